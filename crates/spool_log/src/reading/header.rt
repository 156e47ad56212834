//! The first 20 bytes of a device: a magic of eight bytes, and in numbers of four and eight bytes, the
//! highest byte first, how many slots follow and how many bytes each has.
ghost use Rattle.std.specs.Prelude.{◌≡◌, ◌↔◌, ◌+◌, ◌≤◌, length, IsTrue, IfOk, IfErr, IsErrOf};
ghost use Rattle.std.specs.Int.{from_be_bytes};
ghost use mir.Syntax.{w32, w64};
ghost use Rattle.foundation.specs.Bytes.{part};
ghost use Rattle.spool_state.specs.Image.{magic, header_text};
ghost use Rattle.spool_state.specs.Rules.{IsLayout};
ghost use Rattle.edge_disk.specs.Calls.{Calls};
ghost use Rattle.edge_disk.specs.Disk.{IsUntouched};

use crate::PendFault;
use edge_disk::Disk;
use foundation::u64_at;

/// The offset at which the first slot begins, after the header and the two cells.
pub(crate) const FIRST_SLOT: u64 = 12_288;

/// What the header tells.
#[derive(Clone, Copy)]
pub(crate) struct Header {
    pub slots: u32,
    pub size: u64,
}

// Whether the text begins with the magic.
fn is_named(text: &[u8; 20]) -> bool
    ensures { IsTrue result ↔ (part 0 8 text.now ≡ magic) }
{
    &text[..8] == b"RLBSPOOL".as_slice()
}

impl Header {
    ghost use Rattle.spool_log.specs.Reading.Header.{HasHeader};
    ghost use Rattle.spool_log.specs.Reading.{IsReadFault};

    fn of(text: &[u8; 20]) -> Header
        ensures slots { result.slots ≡ from_be_bytes w32 (part 8 4 text.now) }
        ensures size { result.size ≡ from_be_bytes w64 (part 12 8 text.now) }
        ensures text { part 0 8 text.now ≡ magic → text.now ≡ header_text result.slots result.size }
    {
        Header {
            slots: u32::from_be_bytes([text[8], text[9], text[10], text[11]]),
            size: u64_at(text, 12),
        }
    }

    // Whether a device of so many bytes has this layout.
    fn fits(&self, len: u64) -> bool
        ensures { IsTrue result ↔ IsLayout self.now.slots self.now.size len }
    {
        (1..=1024).contains(&self.slots)
            && (4096..=1_073_741_824).contains(&self.size)
            && len == FIRST_SLOT + u64::from(self.slots) * self.size
    }

    /// Reads the header of a device. `NotSpool` comes exactly where it breaks one of the first two rules: at
    /// 0 where the device is too short or doesn't begin with the magic, at 8 where its length isn't that of
    /// so many slots. Nothing is written.
    pub fn read<D: Disk>(disk: &mut D) -> Result<Header, PendFault>
        ensures calls { Calls (IsErrOf result PendFault.DiskFault) (D.moment disk.old) (D.moment disk.new) }
        ensures told { D.tells → IsUntouched (D.moment disk.old) (D.moment disk.new) }

        ensures layout { IfOk result (λ header. IsLayout header.slots header.size (D.moment disk.old).size) }
        ensures known { IfOk result (λ header. D.tells → HasHeader header (D.moment disk.old).reads) }
        ensures broken { IfErr result (λ fault. D.tells → IsReadFault (D.moment disk.old).reads fault) }
    {
        let len = disk.len();
        if len < FIRST_SLOT {
            return Err(PendFault::NotSpool { at: 0 });
        }
        let mut text = [0; 20];
        disk.read_at(0, &mut text)?;
        if !is_named(&text) {
            return Err(PendFault::NotSpool { at: 0 });
        }
        let header = Header::of(&text);
        if !header.fits(len) {
            return Err(PendFault::NotSpool { at: 8 });
        }
        Ok(header)
    }
}

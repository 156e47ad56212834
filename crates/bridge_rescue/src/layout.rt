//! How many slots a device has, and how long each is.
ghost use Rattle.std.specs.Prelude.{◌≡◌, ◌↔◌, IsTrue, MatchOption, IfOk, IfErr, IsErrOf};
ghost use Rattle.foundation.specs.Bytes.{part};
ghost use Rattle.spool_state.specs.Image.{magic};
ghost use Rattle.edge_disk.specs.Calls.{Calls};
ghost use Rattle.edge_disk.specs.Disk.{IsUntouched};
ghost use Rattle.bridge_rescue.specs.Layout.{IsInRange, TellsLayout, IsUntold, IsHeaderNote};

use edge_disk::Disk;
use foundation::{u32_at, u64_at};
use notes::Note;

/// How many slots a device has, and how many bytes each has.
#[derive(Clone, Copy)]
pub struct Layout {
    /// How many slots: 1 to 1,024.
    pub slots: u32,
    /// Bytes of a slot: 4,096 to 1,073,741,824.
    pub size: u64,
    ghost ranges: { IsInRange slots size },
}

// Whether the text begins with the magic.
fn is_named(text: &[u8; 20]) -> bool
    ensures { IsTrue result ↔ (part 0 8 text.now ≡ magic) }
{
    &text[..8] == b"RLBSPOOL".as_slice()
}

impl Layout {
    /// So many slots of this size, where both are in their ranges.
    pub fn of(slots: u64, size: u64) -> Option<Layout>
        ensures { MatchOption result (IsInRange slots size → ⊥) (λ layout. (layout.slots ≡ slots) × (layout.size ≡ size)) }
    {
        if (1..=1024).contains(&slots) && (4096..=1_073_741_824).contains(&size) {
            Some(Layout {
                slots: slots as u32,
                size,
            })
        } else {
            None
        }
    }

    /// The layout that the header of a device tells. The error is the note: `NotSpool` where it tells none, at 0 where the device doesn't
    /// begin with the magic and at 8 where the numbers after it aren't in their ranges; `DiskFault` where the read failed. The device
    /// may be longer than its slots, or shorter.
    pub(crate) fn read<D: Disk>(disk: &mut D) -> Result<Layout, Note>
        ensures calls { Calls (IsErrOf result Note.DiskFault) (D.moment disk.old) (D.moment disk.new) }
        ensures told { D.tells → IsUntouched (D.moment disk.old) (D.moment disk.new) }

        ensures found { IfOk result (λ layout. D.tells → TellsLayout layout.slots layout.size (D.moment disk.old).reads) }
        ensures known { IfErr result IsHeaderNote }
        ensures broken { IfErr result (λ note. D.tells → IsUntold note (D.moment disk.old).reads) }
    {
        if disk.len() < 20 {
            return Err(Note::NotSpool { at: 0 });
        }
        let mut text = [0; 20];
        let Ok(()) = disk.read_at(0, &mut text) else {
            return Err(Note::DiskFault);
        };
        if !is_named(&text) {
            return Err(Note::NotSpool { at: 0 });
        }
        match Layout::of(u64::from(u32_at(&text, 8)), u64_at(&text, 12)) {
            Some(layout) => Ok(layout),
            None => Err(Note::NotSpool { at: 8 }),
        }
    }
}

//! A disk that is written in whole pages where a write goes on.
ghost use Rattle.std.specs.Prelude.{◌≡◌, ◌+◌, ◌^◌, ◌%◌, ◌<◌, ◌≤◌, [], length, take, IsErr, IfOk, OnOk, OnErr};
ghost use Rattle.foundation.specs.Bytes.{part, put, SameBut};
ghost use Rattle.edge_disk.specs.Calls.{Calls};
ghost use Rattle.edge_disk.specs.Disk.{IsSettled, IsUntouched, Remembers};
ghost use Rattle.edge_disk.specs.Leave.{LetsAll};

use crate::held_part::{HeldPart, PAGE};
use edge_disk::{Disk, DiskFault};

// A write of so many bytes may be one of several that go on from each other. A shorter one is written at once.
const LONG: usize = 65_536;

/// A disk over another one, which gets whole pages where long writes go on from each other.
///
/// Where a write ends inside a page that isn't in memory, the system reads that page from the disk first. So the last
/// part of a write of 65,536 bytes or more, the bytes after the last multiple of 4,096, is held back. A write that goes on
/// just there fills the page; a read, a sync or a write at any other place writes what is held first. A shorter write
/// isn't held. What is read, and what a sync makes durable, is as without it.
///
/// Where the call that writes the held part fails, that call fails, and the part is held on. It is in this value, and of
/// a fixed size, so that no memory has to be found for it. Where the value is dropped without a sync what is held is lost,
/// as any write may be that wasn't synced.
#[derive(Drop)]
pub struct WholePages<D: Disk> {
    disk: D,
    held: HeldPart,
    ghost free: { LetsAll D.may_tear },
    ghost room: { held.at + length held.bytes.items ≤ (D.moment disk).size },
}

impl<D: Disk> WholePages<D> {
    ghost use Rattle.edge_file.specs.Held.{seen};

    /// The disk, of whose writes nothing is held. Any write may be made to it.
    pub fn new(disk: D) -> WholePages<D>
        requires { LetsAll D.may_tear }
        ensures disk { result.disk ≡ disk }
        ensures none { result.held.bytes.items ≡ [] }
    {
        WholePages {
            disk,
            held: HeldPart::new(),
        }
    }

    /// The disk. What is held is lost.
    pub fn into_disk(self) -> D
        ensures { result ≡ self.disk }
    {
        let WholePages { disk, held: _ } = self;
        disk
    }

    // Writes what is held. Where that fails it is held on.
    fn write_held(&mut self) -> Result<(), DiskFault>
        ensures calls { Calls (IsErr result) (D.moment self.old.disk) (D.moment self.new.disk) }
        ensures none { OnOk result (self.new.held.bytes.items ≡ []) }
        ensures held { OnErr result (self.new.held ≡ self.old.held) }
        ensures seen { D.tells → seen self.new.held (D.moment self.new.disk) ≡ seen self.old.held (D.moment self.old.disk) }
    {
        if !self.held.bytes.is_empty() {
            self.disk
                .write_at(self.held.at, self.held.bytes.as_slice())?;
            self.held.bytes.clear();
        }
        Ok(())
    }

    // Writes what is held, with the front of a piece that goes on behind it: as much as the page has room for. Gives how
    // many bytes of the piece that is. Where the write fails the held part is as it was.
    fn write_page(&mut self, piece: &[u8]) -> Result<usize, DiskFault>
        requires { self.old.held.at + length self.old.held.bytes.items + length piece.now ≤ (D.moment self.old.disk).size }

        ensures calls { Calls (IsErr result) (D.moment self.old.disk) (D.moment self.new.disk) }
        ensures some { IfOk result (λ n. (n ≤ length piece.now) × (n ≤ PAGE)) }
        ensures none { OnOk result (self.new.held.bytes.items ≡ []) }
        ensures held { OnErr result (self.new.held ≡ self.old.held) }
        ensures written { IfOk result (λ n. D.tells → seen self.new.held (D.moment self.new.disk)
            ≡ put (self.old.held.at + length self.old.held.bytes.items) (take n piece.now) (seen self.old.held (D.moment self.old.disk))) }
        ensures torn { D.tells → SameBut (self.old.held.at + length self.old.held.bytes.items) (length piece.now)
            (seen self.old.held (D.moment self.old.disk)) (seen self.new.held (D.moment self.new.disk)) }
    {
        let before = self.held.bytes.len();
        let n = self.held.fill(piece);
        match self.disk.write_at(self.held.at, self.held.bytes.as_slice()) {
            Ok(()) => {
                self.held.bytes.clear();
                Ok(n)
            }
            Err(fault) => {
                self.held.bytes.truncate(before);
                Err(fault)
            }
        }
    }

    // Before a piece is written at this offset: what is held is written, and with it the front of the piece where that goes
    // on there. Gives how many bytes of the piece that is.
    fn write_before(&mut self, at: u64, piece: &[u8]) -> Result<usize, DiskFault>
        requires { at + length piece.now ≤ (D.moment self.old.disk).size }

        ensures calls { Calls (IsErr result) (D.moment self.old.disk) (D.moment self.new.disk) }
        ensures some { IfOk result (λ n. (n ≤ length piece.now) × (n ≤ PAGE)) }
        ensures none { OnOk result (self.new.held.bytes.items ≡ []) }
        ensures held { OnErr result (self.new.held ≡ self.old.held) }
        ensures written { IfOk result (λ n. D.tells → seen self.new.held (D.moment self.new.disk)
            ≡ put at (take n piece.now) (seen self.old.held (D.moment self.old.disk))) }
        ensures torn { D.tells → SameBut at (length piece.now)
            (seen self.old.held (D.moment self.old.disk)) (seen self.new.held (D.moment self.new.disk)) }
    {
        if self.held.goes_on(at) {
            return self.write_page(piece);
        }
        self.write_held().map(|()| 0)
    }

    // Writes a piece but for its last bytes, which are held. Nothing is held before.
    fn write_but(&mut self, at: u64, piece: &[u8], last: usize) -> Result<(), DiskFault>
        requires none { self.old.held.bytes.items ≡ [] }
        requires last { last ≤ length piece.now }
        requires page { last ≤ PAGE }
        requires room { at + length piece.now ≤ (D.moment self.old.disk).size }

        ensures calls { Calls (IsErr result) (D.moment self.old.disk) (D.moment self.new.disk) }
        ensures held { OnOk result (length self.new.held.bytes.items ≡ last) }
        ensures none { OnErr result (self.new.held.bytes.items ≡ []) }
        ensures written { OnOk result (D.tells → seen self.new.held (D.moment self.new.disk)
            ≡ put at piece.now (seen self.old.held (D.moment self.old.disk))) }
        ensures torn { D.tells → SameBut at (length piece.now)
            (seen self.old.held (D.moment self.old.disk)) (seen self.new.held (D.moment self.new.disk)) }
    {
        let pages = piece.len() - last;
        let (front, back) = piece.split_at(pages);
        self.disk.write_at(at, front)?;
        self.held.hold(at + pages as u64, back);
        Ok(())
    }

    // Writes a piece with what is held before it, and holds its last part where it is long.
    fn write(&mut self, at: u64, piece: &[u8]) -> Result<(), DiskFault>
        requires { at + length piece.now ≤ (D.moment self.old.disk).size }

        ensures calls { Calls (IsErr result) (D.moment self.old.disk) (D.moment self.new.disk) }
        ensures written { OnOk result (D.tells → seen self.new.held (D.moment self.new.disk)
            ≡ put at piece.now (seen self.old.held (D.moment self.old.disk))) }
        ensures torn { D.tells → SameBut at (length piece.now)
            (seen self.old.held (D.moment self.old.disk)) (seen self.new.held (D.moment self.new.disk)) }
        ensures short { length piece.now < LONG → OnOk result (self.new.held.bytes.items ≡ []) }
        ensures long { OnOk result (LONG ≤ length piece.now → length self.new.held.bytes.items ≡ (at + length piece.now) % PAGE) }
    {
        let taken = self.write_before(at, piece)?;
        if 0 < taken && taken == piece.len() {
            return Ok(());
        }
        let (_, rest) = piece.split_at(taken);
        self.write_but(at + taken as u64, rest, last_of(at, piece.len()))
    }
}

// How many bytes of a write of `len` bytes at an offset are held back.
fn last_of(at: u64, len: usize) -> usize
    requires { at + len < 2 ^ 64 }
    ensures short { len < LONG → result ≡ 0 }
    ensures long { LONG ≤ len → result ≡ (at + len) % PAGE }
    ensures page { result < PAGE }
{
    if len < LONG {
        return 0;
    }
    ((at + len as u64) % PAGE as u64) as usize
}

impl<D: Disk> Disk for WholePages<D> {
    ghost use Rattle.std.proofs.Common.{inr};
    ghost use Rattle.edge_file.specs.Held.{held_moment};
    ghost use Rattle.edge_file.specs.HeldLaws.{held_lawful};

    ghost tells = { D.tells };

    ghost tells_images = { λ _. ⊥ };

    ghost moment = { λ w. held_moment w.held (D.moment w.disk) };

    ghost may_release = { D.may_release };

    ghost may_tear = { λ _ _ _. Unit {0} };

    ghost reads_too = { λ w images. absurd images };

    ghost fits = { λ w. D.fits w.disk };

    ghost lawful = { λ w tells. held_lawful w.held (D.moment w.disk) (D.lawful w.disk tells) w.room };

    ghost stands_in = { λ w t c tells. inr (λ is. is) };

    fn len(&self) -> u64 {
        self.disk.len()
    }

    fn read_at(&mut self, at: u64, buf: &mut [u8]) -> Result<(), DiskFault> {
        self.write_held()?;
        self.disk.read_at(at, buf)
    }

    fn write_at(&mut self, at: u64, piece: &[u8]) -> Result<(), DiskFault> {
        self.write(at, piece)
    }

    fn sync(&mut self) -> Result<(), DiskFault>
        ensures calls { Calls (IsErr result) (held_moment self.old.held (D.moment self.old.disk)) (held_moment self.new.held (D.moment self.new.disk)) }
        ensures durable { OnOk result (D.tells → IsSettled (held_moment self.new.held (D.moment self.new.disk))) }
        ensures told { D.tells → IsUntouched (held_moment self.old.held (D.moment self.old.disk)) (held_moment self.new.held (D.moment self.new.disk)) }
        ensures images { ⊥ → ⊥ × Remembers (held_moment self.old.held (D.moment self.old.disk)) (held_moment self.new.held (D.moment self.new.disk)) }
        // And so does the disk below, which has all of it.
        ensures none { OnOk result (self.new.held.bytes.items ≡ []) }
        ensures below { OnOk result (D.tells → IsSettled (D.moment self.new.disk)) }
    {
        let written = self.write_held();
        if written.is_ok() {
            self.disk.sync()
        } else {
            written
        }
    }
}

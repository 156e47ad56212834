//! The disk as the layers above see it.
ghost use Rattle.std.specs.Prelude.{◌≡◌, ◌⊎◌, ◌+◌, ◌^◌, ◌<◌, ◌≤◌, List, ℕ, length, IsErr, OnOk};
ghost use Rattle.foundation.specs.Bytes.{part, put};
ghost use Rattle.edge_disk.specs.Calls.{Calls};
ghost use Rattle.edge_disk.specs.Disk.{Moment, IsSettled, Remembers, IsUntouched, IsTorn, IsLawful};

use thiserror::Error;

/// A call on a disk failed. The disk's count of faults rose in that call; a call that doesn't answer this
/// failed at nothing.
#[derive(Clone, Copy, PartialEq, Eq, Debug, Drop, Error)]
#[error("disk fault")]
pub struct DiskFault;

/// A disk of a fixed length in bytes, with reads, writes and a sync. Offsets count bytes from 0.
///
/// There are three kinds: one that tells what it reads and every image that a crash may leave, one that
/// tells what it reads alone, and one that tells neither, as a real file. Clauses that speak of bytes hold
/// where the disk tells what it reads. A disk that tells no images has what it reads as its one image, so
/// a promise of all images is then one of what it reads when the call returns.
pub trait Disk {
    /// It tells what it reads.
    ghost tells: { Type 0 };

    /// It tells every image that a crash may leave.
    ghost tells_images: { Self → Type 0 };

    /// What it tells at this moment. The size and the count of faults are told by each disk.
    ghost moment: { Self → Moment };

    /// Which of the numbers that are kept here may be given up: the caller's to say. The disk asks for nothing;
    /// who gives a number up does.
    ghost may_release: { ℕ → Type 0 };

    /// Whether a crash may tear so many bytes from this offset on: the caller's to say. Who writes asks it of the disk as it is
    /// before the write.
    ghost may_tear: { Self → ℕ → ℕ → Type 0 };

    /// How many bytes it has. This never changes.
    fn len(&self) -> u64
        ensures { result ≡ (moment self.now).size };

    /// Reads the bytes from offset `at` on until the buffer is full. After a fault the buffer holds any
    /// bytes.
    fn read_at(&mut self, at: u64, buf: &mut [u8]) -> Result<(), DiskFault>
        requires { at + length buf.old ≤ (moment self.old).size }
        ensures calls { Calls (IsErr result) (moment self.old) (moment self.new) }
        ensures read { OnOk result (tells → buf.new ≡ part at (length buf.old) (moment self.old).reads) }
        ensures told { tells → IsUntouched (moment self.old) (moment self.new) }
        ensures images { tells_images self.old
            → tells_images self.new × Remembers (moment self.old) (moment self.new) };

    /// Writes the piece over the bytes from offset `at` on. A crash before the next sync may leave any bytes
    /// in that range: so the write needs leave. After a fault a read, too, may give any bytes there.
    fn write_at(&mut self, at: u64, piece: &[u8]) -> Result<(), DiskFault>
        requires room { at + length piece.now ≤ (moment self.old).size }
        requires leave { ∥ may_tear self.old at (length piece.now) ∥₁ }
        ensures calls { Calls (IsErr result) (moment self.old) (moment self.new) }
        ensures written { OnOk result (tells → (moment self.new).reads ≡ put at piece.now (moment self.old).reads) }
        ensures told { tells → IsTorn at (length piece.now) (moment self.old) (moment self.new) }
        ensures images { tells_images self.old
            → tells_images self.new × Remembers (moment self.old) (moment self.new) };

    /// Makes durable what was written: from then on a crash leaves what a read gives. After a fault the
    /// images are still those of before.
    fn sync(&mut self) -> Result<(), DiskFault>
        ensures calls { Calls (IsErr result) (moment self.old) (moment self.new) }
        ensures durable { OnOk result (tells → IsSettled (moment self.new)) }
        ensures told { tells → IsUntouched (moment self.old) (moment self.new) }
        ensures images { tells_images self.old
            → tells_images self.new × Remembers (moment self.old) (moment self.new) };

    /// A disk that tells its images tells what it reads too.
    ghost reads_too: { (disk : Self) → tells_images disk → tells };

    /// An offset within the disk is a `u64`.
    ghost fits: { (disk : Self) → (moment disk).size < 2 ^ 64 };

    /// What it reads is one of its images, and the images of now are those since now.
    ghost lawful: { (disk : Self) → tells → IsLawful (moment disk) };

    /// Where it doesn't tell its images, what it reads stands in for them.
    ghost stands_in: { (disk : Self) (t : ℕ) (c : List ℕ) → tells
        → (tells_images disk) ⊎ ((moment disk).image_since t c → c ≡ (moment disk).reads) };
}

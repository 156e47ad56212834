//! A text that is written in pieces of 65,536 bytes, by way of a buffer.
ghost use Rattle.std.specs.Prelude.{◌≡◌, ℕ, ◌+◌, ◌<◌, ◌≤◌, List, ◌++◌, length, take, IsErr, OnOk, IfOk};
ghost use Rattle.foundation.specs.Bytes.{put, SameBut};
ghost use Rattle.edge_disk.specs.Calls.{Calls};
ghost use Rattle.edge_disk.specs.Disk.{LeavesOnly};
ghost use Rattle.edge_disk.specs.Gate.{ComesFrom};
ghost use Rattle.edge_disk.specs.Leave.{Lets};
ghost use Rattle.spool_slots.specs.Pen.{HasWritten, GoesFilling};

use edge_disk::{Disk, DiskFault};
use foundation::overwrite;

/// The bytes of a piece.
const PIECE: usize = 65_536;

/// How far a text has come.
#[derive(Drop)]
pub(crate) struct Pen {
    /// Where on the device the buffer's bytes go.
    pub at: u64,
    /// How many bytes wait in the buffer.
    pub filled: usize,
    ghost open: { filled < 65536 },
}

impl Pen {
    /// Takes as much of the text as the buffer has room for, and writes the buffer where it is full.
    /// Gives how many bytes it took.
    fn take_some<D: Disk>(
        &mut self,
        disk: &mut D,
        buffer: &mut [u8],
        text: &[u8],
    ) -> Result<usize, DiskFault>
        requires buffer { length buffer.old ≡ 65536 }
        requires some { 0 < length text.now }
        requires room { self.old.at + self.old.filled + length text.now ≤ (D.moment disk.old).size }
        requires leave { Lets D.tells D.moment D.may_tear (GoesFilling (D.moment disk.old) self.old.at (self.old.filled + length text.now)) }

        ensures calls { Calls (IsErr result) (D.moment disk.old) (D.moment disk.new) }
        ensures goes_on { self.old.at ≤ self.new.at }
        ensures took { IfOk result (λ n. (0 < n) × (n ≤ length text.now) × (self.new.at + self.new.filled ≡ self.old.at + self.old.filled + n)) }
        ensures written { IfOk result
            (λ n. (start : ℕ) (base done : List ℕ) → D.tells
            → HasWritten start base done self.old.at self.old.filled buffer.old (D.moment disk.old).reads
            → HasWritten start base (done ++ take n text.now) self.new.at self.new.filled buffer.new (D.moment disk.new).reads) }
        ensures any_moment { D.tells
            → LeavesOnly (ComesFrom (D.moment disk.old) (SameBut self.old.at (self.old.filled + length text.now)))
            (D.moment disk.old) (D.moment disk.new) }
    {
        let n = text.len().min(PIECE - self.filled);
        overwrite(buffer, self.filled, &text[..n]);
        if self.filled + n < PIECE {
            self.filled += n;
            return Ok(n);
        }
        disk.write_at(self.at, buffer)?;
        self.at += PIECE as u64;
        self.filled = 0;
        Ok(n)
    }

    /// Takes the text. Gives an error where a write fails.
    pub fn write<D: Disk>(
        &mut self,
        disk: &mut D,
        buffer: &mut [u8],
        text: &[u8],
    ) -> Result<(), DiskFault>
        requires buffer { length buffer.old ≡ 65536 }
        requires room { self.old.at + self.old.filled + length text.now ≤ (D.moment disk.old).size }
        requires leave { Lets D.tells D.moment D.may_tear (GoesFilling (D.moment disk.old) self.old.at (self.old.filled + length text.now)) }

        ensures calls { Calls (IsErr result) (D.moment disk.old) (D.moment disk.new) }
        ensures took { OnOk result (self.new.at + self.new.filled ≡ self.old.at + self.old.filled + length text.now) }
        ensures goes_on { self.old.at ≤ self.new.at }
        ensures written { OnOk result ((start : ℕ) (base done : List ℕ) → D.tells
            → HasWritten start base done self.old.at self.old.filled buffer.old (D.moment disk.old).reads
            → HasWritten start base (done ++ text.now) self.new.at self.new.filled buffer.new (D.moment disk.new).reads) }
        ensures any_moment { D.tells
            → LeavesOnly (ComesFrom (D.moment disk.old) (SameBut self.old.at (self.old.filled + length text.now)))
            (D.moment disk.old) (D.moment disk.new) }
    {
        let mut rest = text;
        while !rest.is_empty() {
            let n = self.take_some(disk, buffer, rest)?;
            let (_, after) = rest.split_at(n);
            rest = after;
        }
        Ok(())
    }

    /// Writes the bytes that wait in the buffer.
    pub fn finish<D: Disk>(self, disk: &mut D, buffer: &[u8]) -> Result<(), DiskFault>
        requires buffer { length buffer.now ≡ 65536 }
        requires room { self.at + self.filled ≤ (D.moment disk.old).size }
        requires leave { Lets D.tells D.moment D.may_tear (GoesFilling (D.moment disk.old) self.at self.filled) }

        ensures calls { Calls (IsErr result) (D.moment disk.old) (D.moment disk.new) }
        ensures written { OnOk result ((start : ℕ) (base done : List ℕ) → D.tells
            → HasWritten start base done self.at self.filled buffer.now (D.moment disk.old).reads
            → (D.moment disk.new).reads ≡ put start done base) }
        ensures any_moment { D.tells → LeavesOnly (ComesFrom (D.moment disk.old) (SameBut self.at self.filled)) (D.moment disk.old) (D.moment disk.new) }
    {
        if self.filled == 0 {
            return Ok(());
        }
        disk.write_at(self.at, &buffer[..self.filled])?;
        Ok(())
    }
}

//! What the bytes of a cell say.
ghost use Rattle.std.specs.Prelude.{◌≡◌, ◌+◌, ◌≤◌, ◌↔◌, length, IsErr, IsTrue, IfOk, IfSome, IfNone};
ghost use Rattle.std.specs.Int.{w16, from_be_bytes, to_be_bytes};
ghost use Rattle.foundation.specs.Bytes.{part};
ghost use Rattle.edge_disk.specs.Calls.{Calls};
ghost use Rattle.edge_disk.specs.Disk.{IsUntouched};

use crate::text::{CONTENT, CONTENT_1, STRETCH};
use crate::{Cell, Register};
use edge_disk::{Disk, DiskFault};
use foundation::{u32_at, u64_at};
use known_numbers::MOST_STRETCHES;

// The fields of a cell, whatever they are: those of version 2 but for the stretches.
#[derive(Drop)]
pub(crate) struct Fields {
    pub gate: u8,
    pub ordinal: u64,
    pub len: u32,
    pub version: u8,
    pub run: u64,
    pub cursor: u64,
    pub count: u16,
}

// The number in the two bytes from an offset on.
fn u16_at(bytes: &[u8], at: usize) -> u16
    requires { at + 2 ≤ length bytes.now }
    ensures value { result ≡ from_be_bytes w16 (part at 2 bytes.now) }
    ensures bytes { to_be_bytes w16 result ≡ part at 2 bytes.now }
{
    let mut field = [0; 2];
    field.copy_from_slice(&bytes[at..at + 2]);
    u16::from_be_bytes(field)
}

impl Fields {
    ghost use Rattle.spool_state.specs.Layout.{first_slot};
    ghost use Rattle.disk_cell.specs.Cell.{place_of};
    ghost use Rattle.disk_cell.specs.Fields.{bytes_of, AreInRange, Outranks, AreGood, AreBad};

    // Reads them from a text of 32 bytes.
    fn of(text: &[u8; 32]) -> Fields
        ensures text { bytes_of result ≡ text.now }
        ensures range { AreInRange result }
    {
        Fields {
            gate: text[0],
            ordinal: u64_at(text, 1),
            len: u32_at(text, 9),
            version: text[13],
            run: u64_at(text, 14),
            cursor: u64_at(text, 22),
            count: u16_at(text, 30),
        }
    }

    // Reads those of a cell on a disk.
    pub fn read<D: Disk>(disk: &mut D, cell: Cell) -> Result<Fields, DiskFault>
        requires { first_slot ≤ (D.moment disk.old).size }

        ensures calls { Calls (IsErr result) (D.moment disk.old) (D.moment disk.new) }
        ensures untouched { D.tells → IsUntouched (D.moment disk.old) (D.moment disk.new) }
        ensures text { IfOk result (λ fields. D.tells → part (place_of cell) 32 (D.moment disk.old).reads ≡ bytes_of fields) }
        ensures range { IfOk result AreInRange }
    {
        let mut text = [0; 32];
        disk.read_at(cell.offset(), &mut text)?;
        Ok(Fields::of(&text))
    }

    pub fn is_open(&self) -> bool
        ensures { IsTrue result ↔ (self.now.gate ≡ 1) }
    {
        self.gate == 1
    }

    // Whether their cell is open, and the other one is closed or has a smaller ordinal.
    pub fn outranks(&self, other: &Fields) -> bool
        ensures { IsTrue result ↔ Outranks self.now other.now }
    {
        self.is_open() && (!other.is_open() || other.ordinal < self.ordinal)
    }

    // How many stretches the content has, where the fields are good.
    pub fn stretches(&self) -> Option<usize>
        ensures some { IfSome result (AreGood self.now) }
        ensures none { IfNone result (AreBad self.now) }
    {
        let count = usize::from(self.count);
        if self.run > Register::MOST_RUN || self.ordinal > Register::LAST_ORDINAL {
            return None;
        }
        if self.version == 1 && self.len as usize == CONTENT_1 {
            return Some(0);
        }
        if self.version == 2
            && count <= MOST_STRETCHES
            && self.len as usize == CONTENT + STRETCH * count
        {
            return Some(count);
        }
        None
    }
}

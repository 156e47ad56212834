//! The register in memory, and its cells on the disk.
ghost use Rattle.std.specs.Prelude.{◌≡◌, ◌≢◌, List, ℕ, ◌+◌, ◌*◌, ◌<◌, ◌≤◌, length, slice_index, vec_capacity, All, IsErr, OnOk};
ghost use Rattle.std.specs.Prelude.{OnErr, IfOk, IfErr, IsErrOf, IsTrue, MatchResult};
ghost use Rattle.foundation.specs.Bytes.{SameBut};
ghost use Rattle.edge_disk.specs.Calls.{Calls};
ghost use Rattle.edge_disk.specs.Disk.{IsSettled, IsUntouched, LeavesOnly};
ghost use Rattle.edge_disk.specs.Gate.{ComesFrom};
ghost use Rattle.edge_disk.specs.Leave.{Lets};
ghost use Rattle.known_numbers.specs.declared.stretch.TheConstants.{MOST_STRETCHES};
ghost use Rattle.spool_state.specs.Layout.{first_cell, cell_length, first_slot, most_run, most_number};
ghost use Rattle.disk_cell.specs.Content.{HasVersion, HasRoomInCell};

use crate::cells::{read_register, write_cell};
use crate::fields::Fields;
use crate::{Cell, Content, LoadFault, SetFault};
use edge_disk::{Disk, DiskFault, close_gate};
use known_numbers::{MOST_STRETCHES, Stretch};
use std::alloc::Global;

/// What is known of a register on a disk. It is read by `load`, and changed by `set` alone.
#[derive(Drop)]
pub struct Register {
    /// The cell that counts.
    pub counting: Cell,
    /// Whether the other cell's gate is open.
    pub other_is_open: bool,
    /// The ordinal of the cell that counts, which rises by one with each change. It is at most 2^63.
    pub ordinal: u64,
    /// What the register holds.
    pub content: Content,
    pub ghost last: { ordinal ≤ most_number },
    pub ghost version: { HasVersion content },
    pub ghost run: { content.run ≤ most_run },
    pub ghost few: { length content.known.items ≤ MOST_STRETCHES },
    pub ghost room: { MOST_STRETCHES ≤ vec_capacity content.known },
}

impl Register {
    ghost use Rattle.disk_cell.specs.Cell.{place_of, other_of};
    ghost use Rattle.disk_cell.specs.Fault.{IsBroken, IsWornAt};
    ghost use Rattle.disk_cell.specs.Register.{Knows, IsClosingStep, IsSetStep, GoesSet, IsContent};

    // The greatest run.
    pub(crate) const MOST_RUN: u64 = 2_097_151;

    // With this ordinal a register is worn.
    pub(crate) const LAST_ORDINAL: u64 = 9_223_372_036_854_775_808;

    /// Reads the register of a device, and takes the memory that it will ever need. `NotSpool` comes exactly
    /// where a rule of the cells is broken, at the place of the first one, `DiskFault` exactly where a call
    /// on the disk failed, and `NoMemory` only where there was no memory. Nothing is written.
    pub fn load<D: Disk>(alloc: Global, disk: &mut D) -> Result<Register, LoadFault>
        requires { first_slot ≤ (D.moment disk.old).size }

        ensures calls { Calls (IsErrOf result LoadFault.DiskFault) (D.moment disk.old) (D.moment disk.new) }
        ensures untouched { D.tells → IsUntouched (D.moment disk.old) (D.moment disk.new) }

        ensures known { IfOk result (λ register. D.tells → Knows register (D.moment disk.old).reads) }
        ensures fits { IfOk result (λ register. All HasRoomInCell register.content.known.items) }
        ensures broken { IfErr result (λ fault. D.tells → IsBroken fault (D.moment disk.old).reads) }
    {
        let known = Vec::with_capacity(alloc, MOST_STRETCHES)?;
        let first = Fields::read(disk, Cell::First)?;
        let second = Fields::read(disk, Cell::Second)?;
        if first.outranks(&second) {
            return read_register(disk, Cell::First, &first, second.is_open(), known);
        }
        if second.outranks(&first) {
            return read_register(disk, Cell::Second, &second, first.is_open(), known);
        }
        Err(LoadFault::NotSpool {
            at: Cell::First.offset(),
        })
    }

    /// What the register holds.
    pub fn value(&self) -> &Content
        ensures { result.now ≡ self.now.content }
    {
        &self.content
    }

    /// The ordinal of the cell that counts.
    pub fn ordinal(&self) -> u64
        ensures { result ≡ self.now.ordinal }
    {
        self.ordinal
    }

    // Closes the gate of the other cell where it is open. A gate that is closed is not written, since a
    // write that is torn could open it over what stands after it.
    fn close_other<D: Disk>(&self, disk: &mut D) -> Result<(), DiskFault>
        requires room { first_slot ≤ (D.moment disk.old).size }
        requires known { D.tells → (c : List ℕ) → (D.moment disk.old).image c → Knows self.now c }
        requires leave { IsTrue self.now.other_is_open → ∥ D.may_tear disk.old (place_of (other_of self.now.counting)) 1 ∥₁ }

        ensures calls { Calls (IsErr result) (D.moment disk.old) (D.moment disk.new) }
        ensures closed { OnOk result (D.tells → (c : List ℕ) → (D.moment disk.new).image c → slice_index c (place_of (other_of self.now.counting)) ≢ 1) }
        ensures outside { OnOk result (D.tells → SameBut first_cell (2 * cell_length) (D.moment disk.old).reads (D.moment disk.new).reads) }
        ensures any_moment { D.tells → LeavesOnly (ComesFrom (D.moment disk.old) (IsClosingStep self.now)) (D.moment disk.old) (D.moment disk.new) }
    {
        if !self.other_is_open {
            return Ok(());
        }
        close_gate(disk, self.counting.other().offset())
    }

    /// Changes what the register holds: the other cell gets the next ordinal and this content in version 2,
    /// and counts from then on. It takes no memory. `Worn` comes exactly where the ordinal is 2^63, and
    /// nothing changes then. `DiskFault` comes exactly where a call on the disk failed; the disk then holds
    /// the old content or the new one, and the register has to be loaded again after a sync.
    pub fn set<D: Disk>(
        &mut self,
        disk: &mut D,
        run: u32,
        cursor: u64,
        known: &[Stretch],
    ) -> Result<(), SetFault>
        requires run { run ≤ most_run }
        requires few { length known.now ≤ MOST_STRETCHES }
        requires room { first_slot ≤ (D.moment disk.old).size }
        requires known { D.tells → (c : List ℕ) → (D.moment disk.old).image c → Knows self.old c }
        requires leave { self.old.ordinal < most_number
            → Lets D.tells D.moment D.may_tear (GoesSet (D.moment disk.old) self.old run cursor known.now) }

        ensures calls { Calls (IsErrOf result SetFault.DiskFault) (D.moment disk.old) (D.moment disk.new) }

        ensures worn { MatchResult result (λ _. self.old.ordinal < most_number) (IsWornAt self.old.ordinal) }
        ensures unchanged { self.old.ordinal ≡ most_number → disk.new ≡ disk.old }
        ensures err { OnErr result (self.new ≡ self.old) }

        // At `Ok` the register has the new content, in memory and on the disk.
        ensures content { OnOk result (IsContent run cursor known.now self.new.content) }
        ensures ordinal { OnOk result (self.new.ordinal ≡ self.old.ordinal + 1) }
        ensures durable { OnOk result (D.tells → IsSettled (D.moment disk.new)) }
        ensures known { OnOk result (D.tells → Knows self.new (D.moment disk.new).reads) }

        ensures outside { OnOk result (D.tells → SameBut first_cell (2 * cell_length) (D.moment disk.old).reads (D.moment disk.new).reads) }
        ensures any_moment { D.tells
            → LeavesOnly (ComesFrom (D.moment disk.old) (IsSetStep self.old run cursor known.now)) (D.moment disk.old) (D.moment disk.new) }
    {
        if self.ordinal == Register::LAST_ORDINAL {
            return Err(SetFault::Worn {
                ordinal: self.ordinal,
            });
        }
        let ordinal = self.ordinal + 1;
        let counting = self.counting.other();
        self.close_other(disk)?;
        write_cell(disk, counting.offset(), ordinal, run, cursor, known)?;
        self.counting = counting;
        self.other_is_open = true;
        self.ordinal = ordinal;
        self.content.set(run, cursor, known);
        Ok(())
    }
}

//! A part of a slot that was read. A slot is read in pieces that grow, whatever the size of its entries.
ghost use Rattle.std.specs.Prelude.{◌≡◌, ℕ, ◌+◌, ◌-◌, ◌^◌, ◌<◌, ◌≤◌, List, ◌++◌, length, take, IsErr, OnOk};
ghost use Rattle.foundation.specs.Bytes.{part};
ghost use Rattle.edge_disk.specs.Calls.{Calls};
ghost use Rattle.edge_disk.specs.Disk.{IsUntouched};

use edge_disk::{Disk, DiskFault};
use std::alloc::{AllocError, Global};

/// How many bytes a window has.
const WINDOW: usize = 262_144;

/// How many bytes the first read of a call takes, as far as the slot has them. Each later one takes twice
/// as many as the one before, up to a window.
const FIRST_READ: usize = 4_096;

/// Reads from offset `at` of the device on into the bytes after the first `held`, up to the `end` of them.
fn read_between<D: Disk>(
    disk: &mut D,
    at: u64,
    bytes: &mut [u8],
    held: usize,
    end: usize,
) -> Result<(), DiskFault>
    requires order { held ≤ end }
    requires inside { end ≤ length bytes.old }
    requires place { at + (end - held) ≤ (D.moment disk.old).size }

    ensures calls { Calls (IsErr result) (D.moment disk.old) (D.moment disk.new) }
    ensures told { D.tells → IsUntouched (D.moment disk.old) (D.moment disk.new) }
    ensures read { OnOk result (D.tells → take end bytes.new ≡ take held bytes.old ++ part at (end - held) (D.moment disk.old).reads) }
{
    disk.read_at(at, &mut bytes[held..end])?;
    Ok(())
}

/// The memory by which slots are scanned and read: 262,144 bytes. Its owner makes one, and lends it to each
/// call. A call begins by letting go of what the one before left in it, so one window serves every slot,
/// and what was written meanwhile is never missed.
#[derive(Drop)]
pub struct Window {
    bytes: Vec<u8>,
    /// The offset in the slot of the first of the bytes.
    from: u64,
    /// How many of the bytes were read.
    filled: usize,
    /// How many bytes the next read takes at least, as far as the slot has them.
    ahead: usize,
    ghost whole: { length bytes.items ≡ 262144 },
    ghost inside: { filled ≤ 262144 },
    ghost fits: { from + filled < 2 ^ 64 },
    ghost grows: { ahead ≤ 262144 },
}

impl Window {
    ghost use Rattle.spool_slots.specs.Window.{Holds, IsWindow};

    /// An empty window. The error says that no memory was found for it.
    pub fn new(alloc: Global) -> Result<Window, AllocError> {
        let bytes = vec![in alloc; 0; WINDOW]?;
        Ok(Window {
            bytes,
            from: 0,
            filled: 0,
            ahead: FIRST_READ,
        })
    }

    /// Lets go of all bytes.
    pub(crate) fn empty(&mut self)
        ensures { (at : ℕ) (c : List ℕ) → IsWindow at self.new c }
    {
        self.from = 0;
        self.filled = 0;
        self.ahead = FIRST_READ;
    }

    /// How many bytes the window has from offset `from` of the slot on.
    fn held(&self, from: u64) -> usize
        ensures { Holds self.now from result }
    {
        if from < self.from {
            return 0;
        }
        (self.from + self.filled as u64).saturating_sub(from) as usize
    }

    /// Keeps the `held` bytes from offset `from` of the slot on, as the first ones.
    fn slide(&mut self, from: u64, held: usize)
        requires held { Holds self.old from held }
        requires fits { from + held < 2 ^ 64 }

        ensures from { self.new.from ≡ from }
        ensures filled { self.new.filled ≡ held }
        ensures window { (at : ℕ) (c : List ℕ) → IsWindow at self.old c → IsWindow at self.new c }
    {
        let filled = self.filled;
        self.bytes.copy_within(filled - held..filled, 0);
        self.from = from;
        self.filled = held;
    }

    /// Reads on after the window's bytes, of the `rest` bytes of the slot from the first of them on, until it
    /// has `n` of them or more.
    fn read_on<D: Disk>(
        &mut self,
        disk: &mut D,
        at: u64,
        rest: u64,
        n: usize,
    ) -> Result<(), DiskFault>
        requires place { at + self.old.from + rest ≤ (D.moment disk.old).size }
        requires inside { n ≤ rest }
        requires small { n ≤ 262144 }
        requires more { self.old.filled ≤ n }
        requires window { D.tells → IsWindow at self.old (D.moment disk.old).reads }

        ensures calls { Calls (IsErr result) (D.moment disk.old) (D.moment disk.new) }
        ensures told { D.tells → IsUntouched (D.moment disk.old) (D.moment disk.new) }
        ensures from { self.new.from ≡ self.old.from }
        ensures filled { OnOk result (n ≤ self.new.filled) }
        ensures window { OnOk result (D.tells → IsWindow at self.new (D.moment disk.new).reads) }
    {
        let most = rest.min(WINDOW as u64) as usize;
        let held = self.filled;
        let end = (held + self.ahead).min(most).max(n);
        let place = at + self.from + held as u64;
        read_between(disk, place, &mut self.bytes, held, end)?;
        self.filled = end;
        self.ahead = (2 * self.ahead).min(WINDOW);
        Ok(())
    }

    /// Reads on where the window doesn't have the `n` bytes from offset `from` of the slot on, which has
    /// `size` bytes from offset `at` of the device on. No byte is read that the window has.
    pub(crate) fn cover<D: Disk>(
        &mut self,
        disk: &mut D,
        at: u64,
        size: u64,
        from: u64,
        n: usize,
    ) -> Result<(), DiskFault>
        requires place { at + size ≤ (D.moment disk.old).size }
        requires inside { from + n ≤ size }
        requires some { 0 < n }
        requires small { n ≤ 262144 }
        requires window { D.tells → IsWindow at self.old (D.moment disk.old).reads }

        ensures calls { Calls (IsErr result) (D.moment disk.old) (D.moment disk.new) }
        ensures told { D.tells → IsUntouched (D.moment disk.old) (D.moment disk.new) }
        ensures covers { OnOk result ((self.new.from ≤ from) × (from + n ≤ self.new.from + self.new.filled)) }
        ensures window { OnOk result (D.tells → IsWindow at self.new (D.moment disk.new).reads) }
    {
        let held = self.held(from);
        if n <= held {
            return Ok(());
        }
        self.slide(from, held);
        self.read_on(disk, at, size - from, n)
    }

    /// The bytes that the window has from offset `from` of the slot on, the first `most` of them or all.
    pub(crate) fn seen(&self, from: u64, most: u64) -> &[u8]
        ensures value { (at : ℕ) (c : List ℕ) → IsWindow at self.now c → result.now ≡ part (at + from) (length result.now) c }
        ensures few { length result.now ≤ most }
    {
        let n = (self.held(from) as u64).min(most) as usize;
        if n == 0 {
            return &self.bytes[..0];
        }
        self.bytes(from, n)
    }

    /// Bytes that the window has.
    pub(crate) fn bytes(&self, from: u64, n: usize) -> &[u8]
        requires begin { self.now.from ≤ from }
        requires end { from + n ≤ self.now.from + self.now.filled }
        ensures value { (at : ℕ) (c : List ℕ) → IsWindow at self.now c → result.now ≡ part (at + from) n c }
        ensures len { length result.now ≡ n }
    {
        let start = (from - self.from) as usize;
        &self.bytes[start..start + n]
    }
}

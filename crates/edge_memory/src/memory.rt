//! A disk in memory.
ghost use Rattle.std.specs.Prelude.{◌≡◌, ◌+◌, ◌≤◌, [], length, true, false, IsTrue, replicate, IsErr, IsOk, IfOk, OnOk};
ghost use Rattle.foundation.specs.Bytes.{part, put};
ghost use Rattle.foundation.specs.Faults.{Rose};
ghost use Rattle.edge_disk.specs.Calls.{Calls};
ghost use Rattle.edge_disk.specs.Disk.{IsSettled, Remembers, IsUntouched, IsTorn};
ghost use Rattle.edge_memory.specs.Held.{IsSound, first_half, after_write, after_sync};
ghost use Rattle.edge_memory.specs.CallPlan.{one_more, after_call};

use crate::Crash;
use crate::plan::Plan;
use crate::store::Store;
use edge_disk::{Disk, DiskFault};
use std::alloc::{AllocError, Global};

/// Bytes in memory as a disk, with calls that fail as its making says.
///
/// Its calls of `read_at`, `write_at` and `sync` are numbered from 0. A call that fails counts a fault. A
/// write that fails leaves the first half of its range written, rounded down, and a crash may tear all of
/// the range; a read or a sync that fails leaves all as it was. On a disk that keeps a record, a write or a
/// sync that finds no memory for it counts a fault and changes nothing else.
#[derive(Drop)]
pub struct MemDisk {
    store: Store,
    plan: Plan,
    faults: u64,
    starved: u64,
    ghost sound: { IsSound store },
}

impl MemDisk {
    ghost use Rattle.edge_memory.specs.MemDisk.{held_of, plan_of, starved_of, mem_moment, IsNew, NeverFails};
    ghost use Rattle.edge_memory.specs.Crashing.{IsLeft};

    /// A disk with these bytes, all of them durable, that keeps a record. `failing` lists the numbers of
    /// the calls that fail.
    pub fn of(bytes: Vec<u8>, failing: Vec<u64>) -> MemDisk
        ensures { IsNew true bytes.items failing.items None result }
    {
        MemDisk::make(bytes, true, failing, None)
    }

    /// One whose first `calls` calls pass, and whose later ones all fail.
    pub fn stopped(bytes: Vec<u8>, calls: u64) -> MemDisk
        ensures { IsNew true bytes.items [] (Some calls) result }
    {
        let failing = Vec::new(*bytes.allocator());
        MemDisk::make(bytes, true, failing, Some(calls))
    }

    /// A disk of `len` zero bytes without a record: it tells what it reads, and no images. No call fails.
    pub fn plain(alloc: Global, len: u64) -> Result<MemDisk, AllocError>
        ensures new { IfOk result (λ disk. IsNew false (replicate len 0) [] None disk) }
        ensures never { IfOk result NeverFails }
    {
        let bytes = vec![in alloc; 0; len as usize]?;
        Ok(MemDisk::make(bytes, false, Vec::new(alloc), None))
    }

    fn make(bytes: Vec<u8>, recorded: bool, failing: Vec<u64>, stop: Option<u64>) -> MemDisk
        ensures { IsNew recorded bytes.items failing.items stop result }
    {
        MemDisk {
            store: Store::new(bytes, recorded),
            plan: Plan::new(failing, stop),
            faults: 0,
            starved: 0,
        }
    }

    /// What a read of the whole disk gives.
    pub fn bytes(&self) -> &[u8]
        ensures { result.now ≡ (mem_moment self.now).reads }
    {
        self.store.bytes()
    }

    /// How many calls found no memory for the record, as far as a `u64` counts.
    pub fn starved(&self) -> u64
        ensures { result ≡ starved_of self.now }
    {
        self.starved
    }

    /// What stands after a crash, as a new disk that keeps a record and fails no call. It is one of the
    /// images.
    pub fn crash(self, choice: Crash) -> MemDisk
        ensures image { (mem_moment self).image (mem_moment result).reads }
        ensures left { IsLeft choice (held_of self) (mem_moment result).reads }
        ensures fresh { IsNew true (mem_moment result).reads [] None result }
    {
        let MemDisk {
            store,
            plan: _,
            faults: _,
            starved: _,
        } = self;
        let bytes = store.crash(choice);
        let failing = Vec::new(*bytes.allocator());
        MemDisk::of(bytes, failing)
    }
}

// Counts one more.
fn count(counter: &mut u64)
    ensures one { counter.new ≡ one_more counter.old }
    ensures rose { Rose 1 counter.old counter.new }
    ensures later { counter.old ≤ counter.new }
{
    *counter = counter.saturating_add(1);
}

// What a write of the piece leaves written.
fn came_through(piece: &[u8], fails: bool) -> &[u8]
    ensures whole { fails ≡ false → result.now ≡ piece.now }
    ensures half { fails ≡ true → result.now ≡ first_half piece.now }
    ensures short { length result.now ≤ length piece.now }
{
    if fails {
        return &piece[..piece.len() / 2];
    }
    piece
}

impl Disk for MemDisk {
    ghost use Rattle.edge_memory.specs.HeldLaws.{lawful, stands_in};
    ghost use Rattle.edge_memory.specs.MemDisk.{held_of, plan_of, mem_moment, Ends, EndsRead, NeverFails};

    ghost tells = { Unit {0} };

    ghost tells_images = { λ d. IsTrue (held_of d).recorded };

    ghost moment = { mem_moment };

    ghost may_release = { λ _. Unit {0} };

    ghost may_tear = { λ _ _ _. Unit {0} };

    ghost reads_too = { λ d images. tt };

    ghost fits = { λ d. d.sound.fits };

    ghost lawful = { λ d tells. lawful d.store d.faults d.sound };

    ghost stands_in = { λ d t c tells. stands_in d.store d.faults t c d.sound };

    fn len(&self) -> u64 {
        self.store.bytes().len() as u64
    }

    fn read_at(&mut self, at: u64, buf: &mut [u8]) -> Result<(), DiskFault>
        requires { at + length buf.old ≤ (mem_moment self.old).size }

        ensures calls { Calls (IsErr result) (mem_moment self.old) (mem_moment self.new) }
        ensures read { OnOk result (buf.new ≡ part at (length buf.old) (mem_moment self.old).reads) }
        ensures told { IsUntouched (mem_moment self.old) (mem_moment self.new) }
        ensures images { IsTrue (held_of self.old).recorded
            → IsTrue (held_of self.new).recorded × Remembers (mem_moment self.old) (mem_moment self.new) }
        ensures ends { EndsRead result self.old self.new }
        ensures counted { plan_of self.new ≡ after_call (plan_of self.old) }
        ensures never { NeverFails self.old → IsOk result × NeverFails self.new }
    {
        if self.plan.call_fails() {
            count(&mut self.faults);
            return Err(DiskFault);
        }
        let at = at as usize;
        buf.copy_from_slice(&self.store.bytes()[at..at + buf.len()]);
        Ok(())
    }

    fn write_at(&mut self, at: u64, piece: &[u8]) -> Result<(), DiskFault>
        requires { at + length piece.now ≤ (mem_moment self.old).size }

        ensures calls { Calls (IsErr result) (mem_moment self.old) (mem_moment self.new) }
        ensures written { OnOk result ((mem_moment self.new).reads ≡ put at piece.now (mem_moment self.old).reads) }
        ensures told { IsTorn at (length piece.now) (mem_moment self.old) (mem_moment self.new) }
        ensures images { IsTrue (held_of self.old).recorded
            → IsTrue (held_of self.new).recorded × Remembers (mem_moment self.old) (mem_moment self.new) }
        ensures ends { Ends result
            (after_write at (length piece.now) piece.now (held_of self.old))
            (after_write at (length piece.now) (first_half piece.now) (held_of self.old))
            self.old self.new }
        ensures counted { plan_of self.new ≡ after_call (plan_of self.old) }
        ensures never { NeverFails self.old → IsOk result × NeverFails self.new }
    {
        let fails = self.plan.call_fails();
        let written = came_through(piece, fails);
        if self.store.write(at as usize, piece.len(), written).is_err() {
            count(&mut self.starved);
            count(&mut self.faults);
            return Err(DiskFault);
        }
        if fails {
            count(&mut self.faults);
            return Err(DiskFault);
        }
        Ok(())
    }

    fn sync(&mut self) -> Result<(), DiskFault>
        ensures calls { Calls (IsErr result) (mem_moment self.old) (mem_moment self.new) }
        ensures durable { OnOk result (IsSettled (mem_moment self.new)) }
        ensures told { IsUntouched (mem_moment self.old) (mem_moment self.new) }
        ensures images { IsTrue (held_of self.old).recorded
            → IsTrue (held_of self.new).recorded × Remembers (mem_moment self.old) (mem_moment self.new) }
        ensures ends { Ends result (after_sync (held_of self.old)) (held_of self.old) self.old self.new }
        ensures counted { plan_of self.new ≡ after_call (plan_of self.old) }
        ensures never { NeverFails self.old → IsOk result × NeverFails self.new }
    {
        if self.plan.call_fails() {
            count(&mut self.faults);
            return Err(DiskFault);
        }
        if self.store.sync().is_err() {
            count(&mut self.starved);
            count(&mut self.faults);
            return Err(DiskFault);
        }
        Ok(())
    }
}

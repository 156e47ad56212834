//! The spool.
ghost use Rattle.std.specs.Prelude.{◌≡◌, ◌≤◌, false, length};
ghost use Rattle.spool_state.specs.Layout.{most_number};
ghost use Rattle.spool_state.specs.Image.{slot_at};
ghost use Rattle.edge_disk.specs.Disk.{IsSettled};
ghost use Rattle.spool_answers.specs.Leave.{LetsKeep};
ghost use Rattle.spool_log.specs.Memory.{run_of, cursor_of, known_of, base_of, end_of, room_of, most_of};
ghost use Rattle.spool_log.specs.State.{KnowsDevice};

use crate::Memory;
use edge_disk::Disk;
use known_numbers::{KnownNumbers, Stretch};
use spool_slots::Window;
use std::alloc::Global;

/// A spool on a disk. Memory keeps its numbers, and no entry. All that it may need is reserved when it is
/// opened, but for the entries that `pending` gives and for what is read again in doubt.
///
/// It is in doubt after a call of the disk failed in a `take` or a `mark`: what was to be changed may
/// stand on the device or not. The next call that changes or reads entries mends it first: it reads the
/// device again, and finds the state as it was or a later stage of the change.
#[derive(Drop)]
pub struct Spool<D: Disk> {
    pub disk: D,
    /// What memory keeps of the spool. In doubt it is as before the call that failed.
    pub memory: Memory,
    /// Whether the spool is in doubt.
    pub doubt: bool,
    /// By this groups are written.
    pub(crate) buffer: Vec<u8>,
    /// By this slots are read.
    pub(crate) window: Window,
    /// In this known numbers are joined.
    pub(crate) numbers: KnownNumbers,
    pub(crate) alloc: Global,
    pub ghost lets: { LetsKeep D.tells D.moment D.may_tear D.may_release },
    pub ghost long: { (D.moment disk).size ≡ slot_at memory.size memory.slots },
    pub ghost whole: { length buffer.items ≡ 65536 },
    pub ghost settled: { doubt ≡ false → D.tells → IsSettled (D.moment disk) },
    pub ghost stored: { doubt ≡ false → D.tells → KnowsDevice memory (D.moment disk).reads },
}

impl<D: Disk> Spool<D> {
    /// The number of the first entry, or the end where there is none. In doubt it is as before the call that
    /// failed.
    pub fn base(&self) -> u64
        ensures { result ≡ base_of self.now.memory }
    {
        match self.memory.older.as_slice() {
            [first, ..] => first.first,
            [] => self.memory.active.first,
        }
    }

    /// The number after that of the last entry, at most 2^63. In doubt it is as before the call that failed.
    pub fn end(&self) -> u64
        ensures end { result ≡ end_of self.now.memory }
        ensures most { result ≤ most_number }
    {
        self.memory.active.first + self.memory.active.count
    }

    /// The number below which all are known as confirmed. In doubt it is as before the call that failed.
    pub fn cursor(&self) -> u64
        ensures { result ≡ cursor_of self.now.memory }
    {
        self.memory.register.value().cursor
    }

    /// The stretches of numbers above the cursor that are known as confirmed, at most 240, in order. In doubt
    /// they are as before the call that failed.
    pub fn known(&self) -> &[Stretch]
        ensures { result.now ≡ known_of self.now.memory }
    {
        &self.memory.register.value().known
    }

    /// How many bytes a group may need in the slot to which groups are added. In doubt it is as before the call
    /// that failed.
    pub fn room(&self) -> u64
        ensures { result ≡ room_of self.now.memory }
    {
        self.memory.active.room()
    }

    /// How many bytes a group may need in an empty slot, which is the most that any group may need.
    pub fn most(&self) -> u64
        ensures { result ≡ most_of self.now.memory }
    {
        self.memory.size - 18
    }

    /// How often the spool was opened for storing.
    pub fn run(&self) -> u32
        ensures { result ≡ run_of self.now.memory }
    {
        self.memory.register.value().run
    }

    /// Whether the spool is in doubt.
    pub fn doubt(&self) -> bool
        ensures { result ≡ self.now.doubt }
    {
        self.doubt
    }
}

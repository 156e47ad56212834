//! Lines that wait to be written.
ghost use Rattle.std.specs.Prelude.{◌≡◌, ◌↔◌, ◌≤◌, IsTrue, [], length, string_bytes, vec_len};
ghost use Rattle.std.specs.Bool.{OnTrue};

use std::alloc::Global;
use std::mem;

// How many lines wait at most.
const MOST_LINES: usize = 1_000;

// How many bytes they have together at most.
const MOST_BYTES: usize = 65_536;

/// Lines that wait to be written, in the order in which they were said: 1,000 of them at most, with 65,536 bytes at most. One for which
/// there is no room is left out and counted, and so is each one after it, until those that wait are taken. So all that are left out would
/// stand after those.
#[derive(Drop)]
pub struct Backlog {
    // The lines, none of which has its end.
    lines: Vec<String>,
    // How many bytes they have together.
    bytes: usize,
    // How many were left out since lines were taken last.
    dropped: u64,
    ghost few: { vec_len lines ≤ 1000 },
    ghost short: { bytes ≤ 65536 },
}

/// What is taken of lines that wait.
#[derive(Drop)]
pub struct Batch {
    /// Those that waited, in order.
    pub lines: Vec<String>,
    /// How many were left out after these.
    pub dropped: u64,
}

impl Backlog {
    ghost use Rattle.cli_parts.specs.Backlog.{HasRoom, Kept, LeftOut};

    /// None waits.
    pub fn new(alloc: Global) -> Backlog
        ensures { (result.lines.items ≡ []) × (result.dropped ≡ 0) }
    {
        Backlog {
            lines: Vec::new(alloc),
            bytes: 0,
            dropped: 0,
        }
    }

    // Whether there is room for a line of so many bytes.
    fn has_room(&self, len: usize) -> bool
        ensures { IsTrue result ↔ HasRoom len self.now }
    {
        self.dropped == 0 && self.lines.len() < MOST_LINES && len <= MOST_BYTES - self.bytes
    }

    /// That the line was said. It waits, or where there is no room, or no memory to keep it, it is left out. Gives whether it waits.
    pub fn put(&mut self, line: String) -> bool
        ensures room { IsTrue result → HasRoom (length (string_bytes line)) self.old }
        ensures kept { OnTrue result (Kept (string_bytes line) self.old self.new) }
        ensures left_out { (IsTrue result → ⊥) → LeftOut self.old self.new }
    {
        let len = line.len();
        if self.has_room(len) && self.lines.push(line).is_ok() {
            self.bytes += len;
            return true;
        }
        self.leave_out();
        false
    }

    /// That a line was said of which no text could be made: it is left out.
    pub fn leave_out(&mut self)
        ensures { LeftOut self.old self.new }
    {
        self.dropped = self.dropped.saturating_add(1);
    }

    /// Takes all that wait.
    pub fn take(&mut self, alloc: Global) -> Batch
        ensures lines { result.lines ≡ self.old.lines }
        ensures dropped { result.dropped ≡ self.old.dropped }
        ensures none { (self.new.lines.items ≡ []) × (self.new.dropped ≡ 0) }
    {
        let dropped = self.dropped;
        self.bytes = 0;
        self.dropped = 0;
        Batch {
            lines: mem::replace(&mut self.lines, Vec::new(alloc)),
            dropped,
        }
    }
}

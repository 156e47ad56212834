//! What a register holds.
ghost use Rattle.std.specs.Prelude.{◌≤◌, length, vec_capacity};

use known_numbers::Stretch;

/// What a register holds.
#[derive(Drop)]
pub struct Content {
    /// The version of the layout in which it stands on the disk: 1 or 2.
    pub version: u8,
    /// How often the spool was opened for storing, at most 2,097,151.
    pub run: u32,
    /// Entries with lower numbers are acknowledged.
    pub cursor: u64,
    /// And those with these numbers: at most 240 stretches, none in version 1.
    pub known: Vec<Stretch>,
}

impl Content {
    ghost use Rattle.known_numbers.specs.declared.stretch.TheConstants.{MOST_STRETCHES};
    ghost use Rattle.disk_cell.specs.Register.{IsContent};

    // Makes it one of version 2. It takes no memory.
    pub(crate) fn set(&mut self, run: u32, cursor: u64, known: &[Stretch])
        requires few { length known.now ≤ MOST_STRETCHES }
        requires room { MOST_STRETCHES ≤ vec_capacity self.old.known }
        ensures content { IsContent run cursor known.now self.new }
        ensures room { MOST_STRETCHES ≤ vec_capacity self.new.known }
    {
        self.version = 2;
        self.run = run;
        self.cursor = cursor;
        self.known.clear();
        let _ = self.known.extend_from_slice(known);
    }
}

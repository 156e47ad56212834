//! The name of a shared desk.
use std::marker::Brand;

/// Which desk is meant: its tables of seats, how many passes it has, the run of its spool and how the numbers of its connections are
/// divided, the states in which it may have been given, the moment of its disk then, and whether takes of several callers may be stored
/// as one group. Nothing of it stands in memory. A program picks it where it passes [`std::marker::Brand`] to a function that is generic
/// in it and makes the desk.
pub trait Naming {
    ghost use Rattle.std.specs.Prelude.{ℕ};
    ghost use Rattle.spool_turns.specs.Passes.{Tables, Beginning};
    ghost use Rattle.desk_access.specs.Desk.{DeskState};
    ghost use Rattle.desk_access.specs.Division.{DividedRun};

    /// The tables of seats.
    ghost table: { Tables };

    /// How many passes there are.
    ghost seats: { ℕ };

    /// How often the spool was opened for storing, and how the numbers of its connections are divided then among the passes.
    ghost run: { DividedRun };

    /// The states in which the desk may have been given.
    ghost start: { DeskState → Type 0 };

    /// The moment of its disk then, and whether takes of several callers may be stored as one group.
    ghost began: { Beginning };
}

impl Naming for Brand {
    ghost use Rattle.spool_turns.specs.Passes.{no_table, no_run, no_beginning};

    ghost table = { no_table };

    ghost seats = { 0 };

    ghost run = { no_run };

    ghost start = { λ _. ⊥ };

    ghost began = { no_beginning };
}

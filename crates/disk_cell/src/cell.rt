//! The two places of a register.
ghost use Rattle.std.specs.Prelude.{◌≡◌};

/// One of the two cells.
#[derive(Clone, Copy, PartialEq, Eq)]
pub enum Cell {
    /// The one at offset 4,096.
    First,
    /// The one at offset 8,192.
    Second,
}

impl Cell {
    ghost use Rattle.disk_cell.specs.Cell.{place_of, other_of};

    // The offset on the device at which the cell begins, in bytes.
    pub(crate) fn offset(self) -> u64
        ensures { result ≡ place_of self }
    {
        match self {
            Cell::First => 4096,
            Cell::Second => 8192,
        }
    }

    // The other one of the two.
    pub(crate) fn other(self) -> Cell
        ensures { result ≡ other_of self }
    {
        match self {
            Cell::First => Cell::Second,
            Cell::Second => Cell::First,
        }
    }
}

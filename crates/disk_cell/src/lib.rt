//! A register on a disk: a run, a cursor, and stretches of numbers above it, that are changed whole or not
//! at all, whenever the power fails. It is two cells, written in turn; the open one with the greater ordinal
//! counts, in the layout that `docs/DEVICE.md` gives. A cell of version 1, which has no stretch, is read, and
//! each change writes version 2. The crate's one contract is that of `Register::set`: at each moment a crash
//! leaves the old content or the new one, and nothing else of the disk is touched.
#![tactic(auto)]

mod cell;
mod cells;
mod content;
mod fault;
mod fields;
mod register;
mod text;

pub use cell::Cell;
pub use content::Content;
pub use fault::{LoadFault, SetFault};
pub use known_numbers::Stretch;
pub use register::Register;

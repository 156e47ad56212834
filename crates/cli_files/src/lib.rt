//! What the program does over files that it opens: the commands that aren't `bridge`'s, each by the one call that does it over any disk.
//! Which disk that is, and how its file was opened, stands in their contracts ([`Files`]).
#![tactic(auto)]

mod files;
mod pair;
mod refused;
mod rescue;
mod restore;
mod skip;

pub use files::{Files, How, SystemFiles};
pub use pair::run_move;
pub use refused::refuse;
pub use rescue::{run_check, run_rescue};
pub use restore::run_restore;
pub use skip::run_skip;

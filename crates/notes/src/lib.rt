//! Why a run of bridge ended, with its exit status and its text, and the places of the net that bridge is given. Everything that
//! bridge does ends with a [`Note`], so this crate stands below all that runs, and knows nothing of it.
#![tactic(auto)]

mod note;
mod place;
mod why;

pub use note::{Note, note_text};
pub use place::Place;
pub use why::why_word;

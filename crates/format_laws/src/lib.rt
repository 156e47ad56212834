//! Laws over the definitions of formats, which the crates that own these don't need: they stand here, so that none of the crates
//! above those is proved again for them.
//!
//! The functions do nothing: each has a law as its contract.
#![tactic(auto)]

mod laws;

pub use laws::{
    bytes_stand_or_break, changes_keep_what_there_was, marks_add_numbers, marks_are_joined,
    none_is_chosen, numbers_have_one_form, place_is_one,
};

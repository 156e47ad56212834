//! What follows from the contracts of `bridge_core::bridge`, `bridge_move::bridge_move` and `bridge_skip::bridge_skip` alone: when each
//! command has to end well, what each leaves alone, that commands, moves and skips keep the order of a spool's entries and what is
//! durable, and which of them make a number known.
//!
//! The functions do nothing: each has a law as its contract.
#![tactic(auto)]

mod alone;
mod durable;
mod known;
mod laws;
mod order;

pub use alone::each_command_leaves_alone;
pub use durable::{durable_lasts, leave_lasts, moved_lasts};
pub use known::known_has_cause;
pub use laws::{each_command_ends_well, serve_ends_well};
pub use order::{
    desk_opens_legal, each_command_keeps_order, empty_is_in_order, opening_keeps_order,
    order_holds_from_format, unmoved_is_whole,
};

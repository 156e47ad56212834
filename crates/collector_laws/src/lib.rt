//! Laws over the definitions of the collector's protocol, of its sender's side and its receiver's.
//!
//! The functions do nothing: each has a law as its contract.
#![tactic(auto)]

mod answers;
mod events;
mod posts;
mod whole;

pub use answers::{each_is_answered, posted_is_stored, replies_are_understood};
pub use events::made_is_taken;
pub use posts::{posted_is_asked, posted_is_read};
pub use whole::within_is_whole;

//! The command `serve`: many senders at once over one spool, and a forwarder beside them.
//!
//! [`serve`] opens the spool, binds the doors, has workers serve at them and a forwarder forward what they store, and tells at
//! the end in one line what it came to. Meanwhile it answers those who ask for the numbers of the spool, where the words name a place
//! for them. Its contract, `IsServed`, says what was done of a device, of a net and of doors as they were
//! before the call and after it.
#![tactic(auto)]

mod binding;
mod counting;
mod ended;
mod noting;
mod running;
mod serving;
mod telling;
mod watching;

pub use ended::Over;
pub use serving::serve;

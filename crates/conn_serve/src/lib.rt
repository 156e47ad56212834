//! Serves one connection of a sender, from its first byte to its ending: reads it, stores the events that
//! its protocol brings, answers them once they are durable, and says how the connection ended. The
//! protocols' frames are those of their standards: RELP, Lumberjack and the HTTP Event Collector.
//!
//! The one contract is `Carried`: the bytes read are frames, none skipped, and a tail; the calls on the
//! desk and the bytes written are those that the protocol's table gives for these frames, in order, and
//! then what belongs to the ending. It holds at the ending, and at each write before it of what could be one.
#![tactic(auto)]

mod connection;
mod feed;
mod hec;
mod laws;
mod lumberjack;
mod memory;
mod relp;
mod rules;
mod serve;
mod session;
mod staged;
mod talk;

pub use laws::{
    acked_is_taken, acks_are_of_groups, calls_are_of_conn, disk_fault_is_told, one_is_a_run,
    replies_acknowledge_what_was_taken, runs_of_one, what_may_be_said_is_taken,
};
pub use rules::Rules;
pub use serve::attend;

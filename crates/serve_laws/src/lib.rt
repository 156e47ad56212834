//! What a run of the server promises to those who send to it, and in numbers to whoever runs it, as laws over what
//! [`serve_desk::serve`] says: what is acknowledged is durable, each connection contributes exactly its events, nothing is left where the
//! last look says so, and the counts agree.
//!
//! The functions do nothing: each has a law as its contract. The definitions in `specs/` have plain parameters, so that a crate that
//! runs a server can cite them of its own disk, doors and net; the lemmas in `proofs/` prove them.
#![tactic(auto)]

mod ending;
mod laws;

pub use ending::last_look_is_last;
pub use laws::{
    acknowledged_is_durable, connections_contribute, disk_faults_are_counted, doors_tell_durable,
    end_counts_entries, nothing_else_is_added, nothing_is_left, order_is_kept, order_was_kept,
    reports_count_links, workers_have_parts,
};

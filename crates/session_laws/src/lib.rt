//! What a server means for the peer that it forwards to: of a forwarder's sessions on a desk that others call too each sent exactly
//! what was left.
//!
//! Between the calls of a session there are those of other callers, which take entries, read and ask, but mark and confirm nothing.
//! The laws say of such a session what those of `forward_core` say of one on a desk with a single caller.
#![tactic(auto)]

mod laws;

pub use laws::{
    acknowledged_entries_are_known, only_marked_is_known, only_told_is_known, session_among_others,
    sessions_follow_one_another, sessions_of_a_run,
};

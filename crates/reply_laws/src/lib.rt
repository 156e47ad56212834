//! The replies that http_edge writes are those that http_reply reads: a law over the definitions of both, so that a slip made in
//! the writer and in its definition alike can't pass.
//!
//! The function does nothing: it has the law as its contract.
#![tactic(auto)]

mod laws;

pub use laws::written_is_read;

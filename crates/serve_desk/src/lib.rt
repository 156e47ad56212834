//! Serving over a desk that many share, from the opened desk to the one that comes back, as one journal of all calls left it. Who asks
//! meanwhile is told how the spool stands.
//!
//! [`serve`] seats the forwarder, has workers and forwarder run by [`serve_run::run`], and closes the desk. Its contract, `HasServed`,
//! says that one journal of all calls led to the desk that comes back: each worker's part of it is the calls of the links that it
//! served, and the forwarder's part is the calls of its looks and their sessions.
#![tactic(auto)]

mod ended;
mod reporting;
mod serving;

pub use serving::{Served, Unserved, serve};

//! The receiving side of a server: its workers. Each owns a door, where connections come in, and has a pass of the desk that all
//! share: it accepts a link, serves it to its end by the rules of its place, gives it back to the door, and goes on with the next.
//!
//! [`hire`] gives doors and passes to workers and reserves the memory that they need. [`Hired::work`] runs them, each in a thread of
//! its own where one can be made, returns once all have ended, and hands back their doors, their passes and what each reports, in
//! their order.
//!
//! `MayAnswer` says what the door of a worker has to permit its links: what may be said to a sender once the calls for it were made.
//!
//! `Worked` says what a worker did: the links that its door reports are those that it served, one after another, and the calls of its
//! pass are the calls made for these links, joined. The caller closes the desk, with these passes and any other one, as that of a
//! forwarder beside the workers.
#![tactic(auto)]

mod crew;
mod hired;
mod worker;

pub use crew::{Crew, NoCrew, Post};
pub use hired::{Hired, hire};
pub use worker::{WorkerEnd, WorkerReport};

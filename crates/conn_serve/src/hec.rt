//! The HTTP Event Collector as a connection serves it.
mod act;
mod asked;
mod ids;
mod intake;
mod last;
mod replies;
pub(crate) mod session;

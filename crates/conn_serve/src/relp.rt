//! RELP as a connection serves it.
mod act;
mod run;
pub(crate) mod session;
mod store;
mod texts;

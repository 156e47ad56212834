//! Lumberjack as a connection serves it.
mod act;
pub(crate) mod session;

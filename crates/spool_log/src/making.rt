//! How a device is made an empty spool.
pub(crate) mod formatting;
mod steps;

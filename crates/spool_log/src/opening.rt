//! How a device is opened, and read again where the spool is in doubt.
mod mend;
pub(crate) mod recover;

/// How a device is opened.
#[derive(Clone, Copy, PartialEq, Eq)]
pub enum Opening {
    /// As it is.
    Keep,
    /// For storing: the run is raised by one, and is durable before anything is stored.
    Raise,
}

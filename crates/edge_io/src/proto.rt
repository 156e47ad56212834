//! The protocols.

/// By which protocol a connection speaks.
#[derive(Clone, Copy, Debug, PartialEq, Eq)]
pub enum Proto {
    /// The Reliable Event Logging Protocol.
    Relp,
    /// Lumberjack, version 2.
    Lumberjack,
    /// The HTTP Event Collector of Splunk.
    Hec,
}

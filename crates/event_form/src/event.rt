//! An event, and an entry of the spool.
use crate::Blob;

/// By which protocol, and in which of its forms, an event came.
#[derive(Clone, Copy, PartialEq, Eq)]
pub enum Origin {
    /// The body of a RELP `syslog` frame.
    Relp,
    /// The pairs of a Lumberjack `D` frame.
    LumberData,
    /// The payload of a Lumberjack `J` frame.
    LumberJson,
    /// An event object of an HEC request.
    HecEvent,
    /// A line of a raw HEC request.
    HecRaw,
}

/// An event. Its text has at most `MOST_TEXT` bytes; that of a `LumberData` event is at most
/// `MOST_PAIRS` whole pairs.
#[derive(Drop)]
pub struct Event {
    pub origin: Origin,
    pub text: Blob,
}

/// An event as the spool keeps it.
#[derive(Drop)]
pub struct Entry {
    /// The number of the connection that it came by.
    pub conn: u64,
    /// How many entries of that connection stand before it.
    pub index: u64,
    /// The number in which its sender counts: a transaction number, a sequence number or an ackId.
    pub unit: u64,
    pub event: Event,
}

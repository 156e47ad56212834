//! How a session speaks to the peer.
use edge_io::Proto;

/// How a session speaks to the peer: by which protocol, and what the collector's needs beside.
#[derive(Clone, Copy, PartialEq, Eq)]
pub struct Outward {
    /// The protocol.
    pub proto: Proto,
    /// The collector's token, as the number of its GUID.
    pub token: u128,
    /// The channel of the collector's acknowledgements, likewise.
    pub channel: u128,
    /// How often the collector is asked whether a request is acknowledged; above 0.
    pub polls: u32,
}

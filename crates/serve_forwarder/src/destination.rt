//! Where a server forwards to.
use forward_core::Outward;
use notes::Place;

/// Where a server forwards to, and how it speaks there.
#[derive(Drop)]
pub struct Destination {
    /// The place that is dialed for each session.
    pub place: Place,
    /// How a session speaks to the peer: by which protocol, and what a collector needs beside.
    pub outward: Outward,
}

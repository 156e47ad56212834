//! What a head tells.

use std::net::IpAddr;

/// The address and the port from which the sender reached the proxy.
#[derive(Clone, Copy)]
pub struct Source {
    /// The address, of IPv4 or IPv6 as the head has it.
    pub ip: IpAddr,
    /// The port of TCP.
    pub port: u16,
}

/// A head.
#[derive(Clone, Copy)]
pub struct Head {
    /// The sender's; `None` where the proxy speaks for itself, as it does for a check of health, where it doesn't know the sender, or where
    /// the sender came by another protocol than TCP over IPv4 or IPv6. Then the address of the connection itself is the sender's.
    pub source: Option<Source>,
    /// How many bytes the head has.
    pub len: usize,
}

/// What bytes begin with that may begin with a head.
#[derive(Clone, Copy)]
pub enum Reading {
    /// A whole head.
    Whole(Head),
    /// They are too few to tell, and more of them may make them begin with one.
    More,
}

/// The addresses that a block has.
#[derive(Clone, Copy)]
pub enum Kind {
    /// Two addresses of IPv4 and two ports of TCP.
    Ipv4,
    /// Two addresses of IPv6 and two ports of TCP.
    Ipv6,
    /// Those of another protocol or none, which are skipped.
    Skipped,
}

/// The family of a line's addresses.
#[derive(Clone, Copy)]
pub enum Family {
    V4,
    V6,
}

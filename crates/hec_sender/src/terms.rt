//! The terms of a session.

/// What stays through a session.
#[derive(Clone, Copy)]
pub(crate) struct Terms {
    /// The token of each request, a GUID as a number.
    pub token: u128,
    /// The channel of each request, a GUID as a number.
    pub channel: u128,
    /// How often a query may be asked.
    pub polls: u32,
}

//! What waits in a window.
use crate::head::Head;

/// A whole request, but for the bytes of its body.
#[derive(Drop)]
pub struct Parked {
    pub head: Head,
    /// How many bytes the head has.
    pub size: usize,
    /// How many bytes the body has.
    pub body: usize,
}

/// An item that waits.
#[derive(Drop)]
pub enum Waiting {
    Continue,
    Request(Parked),
}

//! What is kept of an id.

/// What is kept of an id that was issued: the channel that holds it, and whether it is settled.
#[derive(Clone, Copy)]
pub struct Issued {
    pub channel: u128,
    pub settled: bool,
}

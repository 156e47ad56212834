//! Whose end of the connection reads.

/// Whose end of the connection reads.
#[derive(Clone, Copy, PartialEq, Eq)]
pub enum Side {
    /// It reads a writer's frames: `W`, `D` and `J`.
    Receiver,
    /// It reads its receiver's acknowledgments: `A`.
    Sender,
}

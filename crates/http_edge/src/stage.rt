//! How far a body has been read.

/// What is due next of a body.
#[derive(Clone, Copy)]
pub enum Stage {
    /// So many bytes of a body whose head gave its length.
    Plain { left: usize },
    /// A chunk line.
    Line,
    /// So many bytes of a chunk's data.
    Data { left: usize },
    /// CR LF after a chunk's data.
    End,
    /// The trailer.
    Trailer,
}

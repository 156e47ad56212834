//! The bytes of a body, gathered from a piece.
ghost use Rattle.std.specs.Prelude.{IfOk};
ghost use Rattle.http_edge.specs.Gathering.{GathersTo};
ghost use Rattle.http_edge.specs.Steps.{Fits};

use http_edge::Stage;
use http_edge::gather::{Ending, Gathered, gather};
use std::alloc::{AllocError, Global};

/// What a piece brought of a body.
#[derive(Drop)]
pub struct Brought {
    /// The body's bytes in it.
    pub bytes: Vec<u8>,
    /// How many bytes of the piece were read.
    pub used: usize,
    pub end: Ending,
}

/// Reads a piece after a body of so many bytes so far that has come to this stage: to the end of the reply or of the
/// piece, or to the first fault. What it gives keeps no memory beyond its bytes, however long the piece is: one read may bring
/// many short replies.
pub fn bring(alloc: Global, stage: Stage, held: usize, piece: &[u8]) -> Result<Brought, AllocError>
    requires { Fits stage held }
    ensures { IfOk result (λ b. GathersTo stage held piece.now b.bytes.items b.used b.end) }
{
    let mut bytes = Vec::with_capacity(alloc, piece.len())?;
    let Gathered { used, end } = gather(&mut bytes, stage, held, piece);
    bytes.shrink_to_fit();
    Ok(Brought { bytes, used, end })
}

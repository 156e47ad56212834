//! What a net in memory gives where it is dialed.
ghost use Rattle.std.specs.Prelude.{IfOk};
ghost use Rattle.edge_io.specs.MemScript.{IsOfScript};

use crate::{MemLink, MemSink, MemSource};
use std::alloc::{AllocError, Global};

/// What a link gives that is dialed at that place of a [`crate::MemNet`], and which of its reads and writes
/// fail.
#[derive(Drop)]
pub struct MemScript {
    /// The place's name.
    pub place: String,
    /// The bytes that the link gives, as many as a read asks for.
    pub bytes: Vec<u8>,
    /// The numbers, from 0, of the reads that fail, in any order.
    pub reads: Vec<u64>,
    /// The numbers, from 0, of the writes that fail, in any order.
    pub writes: Vec<u64>,
}

/// A new link with that script, dialed at the place that is called `name`.
pub(crate) fn link_of(alloc: Global, script: &MemScript, name: &str) -> Result<MemLink, AllocError>
    ensures { IfOk result (IsOfScript script.now name.now) }
{
    let place = String::from_str(alloc, name)?;
    let bytes = script.bytes.to_vec(alloc)?;
    let reads = script.reads.to_vec(alloc)?;
    let writes = script.writes.to_vec(alloc)?;
    let source = MemSource::of(bytes, usize::MAX, reads);
    Ok(MemLink::dialed(place, source, MemSink::of(alloc, writes)))
}

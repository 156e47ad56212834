//! Writing a piece to its end.
ghost use Rattle.std.specs.Prelude.{◌<◌, take, length, IfErr, OnOk};
ghost use Rattle.std.specs.Io.KnownBytes.{Appends};
ghost use Rattle.foundation.specs.Faults.{HasCause};
ghost use Rattle.edge_io.specs.Told.{MayFollow};

use crate::Sink;
use thiserror::Error;

/// A write failed before the whole piece was taken.
#[derive(Clone, Copy, PartialEq, Eq, Debug, Drop, Error)]
#[error("write fault")]
pub struct Stopped {
    /// How many bytes of the piece were taken: its first ones, and not all.
    pub sent: usize,
}

/// Writes the whole piece, which the sink may take, in as many writes as the sink needs. It takes no memory.
///
/// `Ok`: the whole piece was taken and no write failed. `Stopped`: a write failed, so the sink's count of
/// faults has risen, and exactly the first `sent` bytes of the piece were taken.
pub fn write_whole<K: Sink>(sink: &mut K, piece: &[u8]) -> Result<(), Stopped>
    requires permitted { MayFollow (K.permits sink.old) (K.taken sink.old) piece.now }

    ensures whole { OnOk result (Appends (K.taken sink.old) (K.taken sink.new) piece.now) }
    ensures part { IfErr result (λ stopped. (stopped.sent < length piece.now)
        × Appends (K.taken sink.old) (K.taken sink.new) (take stopped.sent piece.now)) }
    ensures cause { HasCause (K.write_faults sink.old) (K.write_faults sink.new) result }
    ensures same { K.same sink.old sink.new }
    ensures apart { K.write_apart sink.old sink.new }
{
    let mut sent = 0;
    while sent < piece.len() {
        match sink.write(&piece[sent..]) {
            Ok(n) => sent += n,
            Err(_) => return Err(Stopped { sent }),
        }
    }
    Ok(())
}

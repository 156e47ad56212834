//! Where bytes go.
ghost use Rattle.std.specs.Prelude.{◌<◌, ◌≤◌, ℕ, List, Option, length, IfOk};
ghost use Rattle.std.specs.Io.KnownBytes.{WriteAppends};
ghost use Rattle.foundation.specs.Faults.{HasCause};
ghost use Rattle.edge_io.specs.Told.{Lasts, MayFollow};

use crate::Object;
use thiserror::Error;

/// A write failed. The sink's count of faults says how often that was; a write that doesn't answer this
/// failed at nothing.
#[derive(Clone, Copy, PartialEq, Eq, Debug, Drop, Error)]
#[error("write fault")]
pub struct WriteFault;

/// An object that takes bytes. It may tell which bytes it has taken; one that tells nothing, as a
/// file, has `None` for them, and then no clause speaks of its bytes.
pub trait Sink: Object {
    /// The bytes taken so far, where it tells them.
    ghost taken: { Self → Option (List ℕ) };

    /// The texts that it may have taken. No write changes which they are.
    ghost permits: { Self → List ℕ → Type 0 };

    /// How many writes have failed.
    ghost write_faults: { Self → ℕ };

    /// The second is the first with no change but that of writes.
    ghost write_apart: { Self → Self → Type 0 };

    /// Writes the start of `piece`, which the sink may take whole after all that it has taken. `Ok(n)`: the first
    /// `n` bytes of `piece` were taken, and at least one where there is one. After a fault none was taken, and
    /// the count of faults has risen.
    fn write(&mut self, piece: &[u8]) -> Result<usize, WriteFault>
        requires permitted { MayFollow (permits self.old) (taken self.old) piece.now }
        ensures bound { IfOk result (λ n. n ≤ length piece.now) }
        ensures some { 0 < length piece.now → IfOk result (λ n. 0 < n) }
        ensures taken { WriteAppends (taken self.old) (taken self.new) result piece.now }
        ensures cause { HasCause (write_faults self.old) (write_faults self.new) result }
        ensures same { Self.same self.old self.new }
        ensures apart { write_apart self.old self.new };

    /// What was permitted stays so, and a sink that tells nothing goes on to tell nothing.
    ghost permits_last: { (x y : Self) → write_apart x y → Lasts (permits x) (taken x) (permits y) (taken y) };

    ghost apart_refl: { (x : Self) → write_apart x x };

    ghost apart_trans: { (x y z : Self) → write_apart x y → write_apart y z → write_apart x z };
}

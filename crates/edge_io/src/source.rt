//! Where bytes come from.
ghost use Rattle.std.specs.Prelude.{◌<◌, ◌≤◌, ℕ, List, Option, length, IfOk};
ghost use Rattle.std.specs.Io.KnownBytes.{ReadConsumes, WriteAppends};
ghost use Rattle.foundation.specs.Faults.{HasCause};

use crate::Object;
use thiserror::Error;

/// A read failed. The source's count of faults says how often that was; a read that doesn't answer this
/// failed at nothing.
#[derive(Clone, Copy, PartialEq, Eq, Debug, Drop, Error)]
#[error("read fault")]
pub struct ReadFault;

/// An object that gives bytes. It may tell which bytes it has given and which are left; one that tells
/// nothing, as a file, has `None` for them, and then no clause speaks of its bytes.
pub trait Source: Object {
    /// The bytes given so far, where it tells them.
    ghost given: { Self → Option (List ℕ) };

    /// The bytes that are left, where it tells them.
    ghost left: { Self → Option (List ℕ) };

    /// How many reads have failed.
    ghost read_faults: { Self → ℕ };

    /// The second is the first with no change but that of reads.
    ghost read_apart: { Self → Self → Type 0 };

    /// Reads into `buf`, which isn't empty. `Ok(n)`: the first `n` bytes of `buf` are the next `n` of
    /// those that are left. `Ok(0)` is the end of input: no byte is left, so each later read that
    /// doesn't fail answers 0 too. After a fault none was given, and the count of faults has risen.
    fn read(&mut self, buf: &mut [u8]) -> Result<usize, ReadFault>
        requires { 0 < length buf.old }
        ensures bound { IfOk result (λ n. n ≤ length buf.new) }
        ensures given { WriteAppends (given self.old) (given self.new) result buf.new }
        ensures left { ReadConsumes (left self.old) (left self.new) result buf.new }
        ensures cause { HasCause (read_faults self.old) (read_faults self.new) result }
        ensures same { Self.same self.old self.new }
        ensures apart { read_apart self.old self.new };

    ghost read_apart_refl: { (x : Self) → read_apart x x };

    ghost read_apart_trans: { (x y z : Self) → read_apart x y → read_apart y z → read_apart x z };
}

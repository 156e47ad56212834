//! A monitor in memory.
ghost use Rattle.std.specs.Prelude.{◌≡◌, false};

use crate::{Monitor, SpoolNumbers};

/// A monitor whom nobody asks. It may be told any numbers, and keeps none.
#[derive(Clone, Copy, Debug, PartialEq, Eq)]
pub struct MemMonitor;

impl Monitor for MemMonitor {
    ghost may_tell = { λ _. Unit {0} };

    /// It waits for nothing.
    fn is_asked(&mut self) -> bool
        ensures { result ≡ false }
    {
        false
    }

    fn tell(&mut self, _: &SpoolNumbers) {}
}

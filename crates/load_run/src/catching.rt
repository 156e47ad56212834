//! Where the bytes go that a load writes.
ghost use Rattle.std.specs.Prelude.{◌≡◌, [], Some};
ghost use Rattle.edge_io.specs.MemSink.{faults_of, script_of, starved_of};
ghost use Rattle.edge_io.specs.Script.{failing_numbers};

use edge_io::{MemSink, Object, Sink, WriteFault};
use std::alloc::Global;

/// A sink in memory of which a write fails only where no memory is found.
#[derive(Drop)]
pub(crate) struct Catch {
    sink: MemSink,
    ghost never: { failing_numbers (script_of sink) ≡ [] },
    ghost starved: { starved_of sink ≡ faults_of sink },
}

impl Catch {
    ghost use Rattle.std.specs.Prelude.{◌<◌, ◌↔◌, IsTrue, Option, List, ℕ};

    /// A sink that has taken nothing.
    pub(crate) fn of(alloc: Global) -> Catch
        ensures taken { ⟦<Catch as Sink>⟧.taken result ≡ Some [] }
        ensures none { ⟦<Catch as Sink>⟧.write_faults result ≡ 0 }
    {
        Catch {
            sink: MemSink::of(alloc, Vec::new(alloc)),
        }
    }

    /// The bytes taken.
    pub(crate) fn taken(&self) -> &[u8]
        ensures { ⟦<Catch as Sink>⟧.taken self.now ≡ Some result.now }
    {
        self.sink.taken()
    }

    /// Whether a write found no memory.
    pub(crate) fn is_starved(&self) -> bool
        ensures { IsTrue result ↔ (0 < ⟦<Catch as Sink>⟧.write_faults self.now) }
    {
        self.sink.starved() > 0
    }
}

impl Object for Catch {
    ghost same = { λ _ _. Unit {0} };

    ghost same_refl = { λ _. tt };

    ghost same_trans = { λ _ _ _ _ _. tt };
}

impl Sink for Catch {
    ghost use Rattle.edge_io.specs.MemSink.{taken_of};

    ghost taken = { λ catch. Some (taken_of catch.sink) };

    ghost permits = { λ _ _. Unit {0} };

    ghost write_faults = { λ catch. faults_of catch.sink };

    ghost write_apart = { λ _ _. Unit {0} };

    ghost permits_last = { λ _ _ _. (λ _ _. tt, λ none. absurd Prim.cc) };

    ghost apart_refl = { λ _. tt };

    ghost apart_trans = { λ _ _ _ _ _. tt };

    fn write(&mut self, piece: &[u8]) -> Result<usize, WriteFault> {
        self.sink.write(piece)
    }
}

//! Where the bytes of a load come from.
ghost use Rattle.std.specs.Prelude.{◌≡◌, [], Some};
ghost use Rattle.edge_io.specs.MemSource.{script_of};
ghost use Rattle.edge_io.specs.Script.{failing_numbers};

use edge_io::{MemSource, Object, ReadFault, Source};
use std::alloc::Global;

/// A source in memory of which no read fails.
#[derive(Drop)]
pub(crate) struct Feed {
    source: MemSource,
    ghost never: { failing_numbers (script_of source) ≡ [] },
}

impl Feed {
    /// A source that gives these bytes, as many as a read asks for.
    pub(crate) fn of(bytes: Vec<u8>) -> Feed
        ensures given { ⟦<Feed as Source>⟧.given result ≡ Some [] }
        ensures left { ⟦<Feed as Source>⟧.left result ≡ Some bytes.items }
    {
        let failing = Vec::new(*bytes.allocator());
        Feed {
            source: MemSource::of(bytes, usize::MAX, failing),
        }
    }
}

impl Object for Feed {
    ghost same = { λ _ _. Unit {0} };

    ghost same_refl = { λ _. tt };

    ghost same_trans = { λ _ _ _ _ _. tt };
}

impl Source for Feed {
    ghost use Rattle.edge_io.specs.MemSource.{given_of, left_of};

    ghost given = { λ feed. Some (given_of feed.source) };

    ghost left = { λ feed. Some (left_of feed.source) };

    ghost read_faults = { λ _. 0 };

    ghost read_apart = { λ _ _. Unit {0} };

    ghost read_apart_refl = { λ _. tt };

    ghost read_apart_trans = { λ _ _ _ _ _. tt };

    fn read(&mut self, buf: &mut [u8]) -> Result<usize, ReadFault> {
        self.source.read(buf)
    }
}

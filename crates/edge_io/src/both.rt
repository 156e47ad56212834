//! A link of two halves.
ghost use Rattle.std.specs.Prelude.{◌≡◌, None, refl};
ghost use Rattle.std.proofs.Common.{◌∙◌};

use crate::{Link, Object, ReadFault, Sink, Source, WriteFault};

/// A link that reads from the one and writes to the other, which may be lent: `Both<&mut S, &mut K>`
/// is a link too.
#[derive(Drop)]
pub struct Both<S, K> {
    /// What it reads from.
    pub source: S,
    /// What it writes to.
    pub sink: K,
}

impl<S: Object, K: Object> Object for Both<S, K> {
    ghost same = { λ x y. S.same x.source y.source × K.same x.sink y.sink };

    ghost same_refl = { λ x. (S.same_refl x.source, K.same_refl x.sink) };

    ghost same_trans = { λ x y z p q.
        (S.same_trans x.source y.source z.source p.0 q.0, K.same_trans x.sink y.sink z.sink p.1 q.1) };
}

impl<S: Source, K: Sink> Source for Both<S, K> {
    ghost given = { λ both. S.given both.source };

    ghost left = { λ both. S.left both.source };

    ghost read_faults = { λ both. S.read_faults both.source };

    ghost read_apart = { λ x y. y.sink ≡ x.sink };

    ghost read_apart_refl = { λ _. Prim.cc };

    ghost read_apart_trans = { λ x y z p q. Prim.cc };

    fn read(&mut self, buf: &mut [u8]) -> Result<usize, ReadFault> {
        self.source.read(buf)
    }
}

impl<S: Source, K: Sink> Sink for Both<S, K> {
    ghost taken = { λ both. K.taken both.sink };

    ghost write_faults = { λ both. K.write_faults both.sink };

    ghost write_apart = { λ x y. (y.source ≡ x.source) × K.write_apart x.sink y.sink };

    ghost permits = { λ both. K.permits both.sink };

    ghost permits_last = { λ x y apart. K.permits_last x.sink y.sink apart.1 };

    ghost apart_refl = { λ x. (refl, K.apart_refl x.sink) };

    ghost apart_trans = { λ x y z p q. (q.0 ∙ p.0, K.apart_trans x.sink y.sink z.sink p.1 q.1) };

    fn write(&mut self, piece: &[u8]) -> Result<usize, WriteFault> {
        self.sink.write(piece)
    }
}

impl<S: Source, K: Sink> Link for Both<S, K> {
    ghost dialed = { λ _. None };

    ghost reads_keep = { λ x y same. (Prim.cc, Prim.cc, Prim.cc) };

    ghost writes_keep = { λ x y apart. let same = apart.0 in (Prim.cc, Prim.cc, Prim.cc, Prim.cc) };
}

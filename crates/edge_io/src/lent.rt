//! A source or a sink that is lent.
ghost use Rattle.std.specs.Prelude.{◌≡◌, refl};
ghost use Rattle.std.proofs.Common.{◌∙◌};

use crate::{Object, ReadFault, Sink, Source, WriteFault};

/// The same reference, to the same object.
impl<S: Object> Object for &mut S {
    ghost same = { λ x y. (y.ghost_name ≡ x.ghost_name) × S.same x.now y.now };

    ghost same_refl = { λ x. (refl, S.same_refl x.now) };

    ghost same_trans = { λ x y z p q. (q.0 ∙ p.0, S.same_trans x.now y.now z.now p.1 q.1) };
}

impl<S: Source> Source for &mut S {
    ghost given = { λ s. S.given s.now };

    ghost left = { λ s. S.left s.now };

    ghost read_faults = { λ s. S.read_faults s.now };

    ghost read_apart = { λ x y. S.read_apart x.now y.now };

    ghost read_apart_refl = { λ x. S.read_apart_refl x.now };

    ghost read_apart_trans = { λ x y z. S.read_apart_trans x.now y.now z.now };

    fn read(&mut self, buf: &mut [u8]) -> Result<usize, ReadFault> {
        (**self).read(buf)
    }
}

impl<K: Sink> Sink for &mut K {
    ghost taken = { λ k. K.taken k.now };

    ghost permits = { λ k. K.permits k.now };

    ghost write_faults = { λ k. K.write_faults k.now };

    ghost write_apart = { λ x y. K.write_apart x.now y.now };

    ghost permits_last = { λ x y. K.permits_last x.now y.now };

    ghost apart_refl = { λ x. K.apart_refl x.now };

    ghost apart_trans = { λ x y z. K.apart_trans x.now y.now z.now };

    fn write(&mut self, piece: &[u8]) -> Result<usize, WriteFault> {
        (**self).write(piece)
    }
}

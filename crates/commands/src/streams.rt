//! The input and the output as one link.
ghost use Rattle.std.specs.Prelude.{◌≡◌, None, refl};
ghost use Rattle.std.proofs.Common.{◌∙◌};

use edge_io::{Link, Object, ReadFault, Sink, Source, WriteFault};

/// A link that reads from the input and writes to the output, both lent for one time.
#[derive(Drop)]
pub(crate) struct Streams<'a, S, K> {
    /// The input.
    pub(crate) source: &'a mut S,
    /// The output.
    pub(crate) sink: &'a mut K,
}

impl<S: Object, K: Object> Object for Streams<'_, S, K> {
    ghost same = { λ x y. ((y.source.ghost_name ≡ x.source.ghost_name) × S.same x.source.now y.source.now)
        × ((y.sink.ghost_name ≡ x.sink.ghost_name) × K.same x.sink.now y.sink.now) };

    ghost same_refl = { λ x. ((refl, S.same_refl x.source.now), (refl, K.same_refl x.sink.now)) };

    ghost same_trans = { λ x y z p q. (
      (q.0.0 ∙ p.0.0, S.same_trans x.source.now y.source.now z.source.now p.0.1 q.0.1),
      (q.1.0 ∙ p.1.0, K.same_trans x.sink.now y.sink.now z.sink.now p.1.1 q.1.1),
    ) };
}

impl<S: Source, K: Sink> Source for Streams<'_, S, K> {
    ghost given = { λ streams. S.given streams.source.now };

    ghost left = { λ streams. S.left streams.source.now };

    ghost read_faults = { λ streams. S.read_faults streams.source.now };

    ghost read_apart = { λ x y. y.sink ≡ x.sink };

    ghost read_apart_refl = { λ _. Prim.cc };

    ghost read_apart_trans = { λ x y z p q. Prim.cc };

    fn read(&mut self, buf: &mut [u8]) -> Result<usize, ReadFault> {
        (*self.source).read(buf)
    }
}

impl<S: Source, K: Sink> Sink for Streams<'_, S, K> {
    ghost taken = { λ streams. K.taken streams.sink.now };

    ghost write_faults = { λ streams. K.write_faults streams.sink.now };

    ghost write_apart = { λ x y. (y.source ≡ x.source) × K.write_apart x.sink.now y.sink.now };

    ghost permits = { λ streams. K.permits streams.sink.now };

    ghost permits_last = { λ x y apart. K.permits_last x.sink.now y.sink.now apart.1 };

    ghost apart_refl = { λ x. (refl, K.apart_refl x.sink.now) };

    ghost apart_trans = { λ x y z p q. (q.0 ∙ p.0, K.apart_trans x.sink.now y.sink.now z.sink.now p.1 q.1) };

    fn write(&mut self, piece: &[u8]) -> Result<usize, WriteFault> {
        (*self.sink).write(piece)
    }
}

impl<S: Source, K: Sink> Link for Streams<'_, S, K> {
    ghost dialed = { λ _. None };

    ghost reads_keep = { λ x y same. (Prim.cc, Prim.cc, Prim.cc) };

    ghost writes_keep = { λ x y apart. let same = apart.0 in (Prim.cc, Prim.cc, Prim.cc, Prim.cc) };
}

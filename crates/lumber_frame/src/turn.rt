//! What a whole field does, whichever it is.
ghost use Rattle.std.specs.Prelude.{◌≡◌, ℕ, ◌+◌, ◌≤◌, List, ◌++◌, drop, length, slice_range};
ghost use Rattle.lumber_frame.specs.Machine.{size_of, turn, value_of};
ghost use Rattle.lumber_frame.specs.Places.{Stands, StandsBehind, step_of};

use crate::field::{Field, Turn, Whole};
use crate::joined::{byte_at, number_at};
use crate::side::Side;
use crate::steps::{
    after_count, after_key_length, after_payload_length, after_size, after_type,
    after_value_length, after_version, next_pair,
};

/// What a whole field does that begins at a place of its frame, and at another one of two lists joined.
#[tactic(auto, using(crate::proofs::TextLaws::drop_early, crate::proofs::TextLaws::drop_text, crate::proofs::TextLaws::drop_whole), unfolding(crate::specs::Machine::turn))]
pub fn after_field(
    side: Side,
    field: Field,
    at: usize,
    front: &[u8],
    back: &[u8],
    from: usize,
) -> Turn
    requires stands { Stands field at }
    requires inside { from + size_of field ≤ length front.now + length back.now }
    ensures stands { StandsBehind result (at + size_of field) }
    ensures turn { (h b : List ℕ) → length h ≡ at → length b ≡ size_of field
        → b ≡ slice_range (front.now ++ back.now) from (from + size_of field)
        → step_of result (h ++ b) ≡ turn side field (drop 10 h) b (value_of field b) }
{
    match field {
        Field::VersionByte => after_version(byte_at(front, back, from)),
        Field::TypeByte => after_type(side, byte_at(front, back, from)),
        Field::WindowSize => after_size(number_at(front, back, from)),
        Field::AckSequence => Turn::Done(Whole::Ack {
            seq: number_at(front, back, from),
        }),
        Field::PairsSequence => Turn::Go(Field::PairCount {
            seq: number_at(front, back, from),
        }),
        Field::JsonSequence => Turn::Go(Field::PayloadLength {
            seq: number_at(front, back, from),
        }),
        Field::PairCount { seq } => after_count(seq, number_at(front, back, from)),
        Field::PayloadLength { seq } => after_payload_length(seq, number_at(front, back, from)),
        Field::Payload { seq, .. } => Turn::Done(Whole::Json { seq }),
        Field::KeyLength { seq, left } => {
            after_key_length(seq, left, at, number_at(front, back, from))
        }
        Field::Key { seq, left, .. } => Turn::Go(Field::ValueLength { seq, left }),
        Field::ValueLength { seq, left } => {
            after_value_length(seq, left, at, number_at(front, back, from))
        }
        Field::Value { seq, left, .. } => next_pair(seq, left),
    }
}

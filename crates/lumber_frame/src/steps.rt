//! What each field does.
ghost use Rattle.std.specs.Prelude.{◌≡◌, ℕ, ◌+◌, ◌≤◌, List, drop};
ghost use Rattle.lumber_frame.specs.declared.field.Field.TheVariants.{VersionByte, TypeByte, WindowSize, PairCount, PayloadLength};
ghost use Rattle.lumber_frame.specs.declared.side.Side.{Side};
ghost use Rattle.lumber_frame.specs.Machine.{pairs_turn};
ghost use Rattle.lumber_frame.specs.Places.{Stands, StandsBehind, Turns, step_of};

use crate::fault::LumberWhy;
use crate::field::{Field, TEXT, Turn, Whole};
use crate::limits::MOST_FRAMES;
use crate::side::Side;
use event_form::{MOST_PAIRS, MOST_TEXT};

/// What the version byte does.
#[tactic(auto, using(crate::proofs::TextLaws::drop_early), unfolding(crate::specs::Machine::turn))]
pub fn after_version(byte: u8) -> Turn
    ensures stands { StandsBehind result 1 }
    ensures turn { (side : Side) → Turns result side VersionByte 0 byte }
{
    if byte == b'2' {
        Turn::Go(Field::TypeByte)
    } else {
        Turn::Bad(LumberWhy::Version)
    }
}

/// What the type byte does.
#[tactic(auto, using(crate::proofs::TextLaws::drop_early), unfolding(crate::specs::Machine::turn))]
pub fn after_type(side: Side, kind: u8) -> Turn
    ensures stands { StandsBehind result 2 }
    ensures turn { Turns result side TypeByte 1 kind }
{
    match (side, kind) {
        (Side::Receiver, b'W') => Turn::Go(Field::WindowSize),
        (Side::Receiver, b'D') => Turn::Go(Field::PairsSequence),
        (Side::Receiver, b'J') => Turn::Go(Field::JsonSequence),
        (Side::Receiver, b'A') => Turn::Bad(LumberWhy::AckFromWriter),
        (Side::Sender, b'A') => Turn::Go(Field::AckSequence),
        (_, b'C') => Turn::Bad(LumberWhy::Compressed),
        _ => Turn::Bad(LumberWhy::Kind),
    }
}

/// Another pair, or the frame's end.
pub fn next_pair(seq: u32, left: u32) -> Turn
    ensures stands { (at : ℕ) → 10 ≤ at → at ≤ 10 + MOST_TEXT → StandsBehind result at }
    ensures turn { (h : List ℕ) → step_of result h ≡ pairs_turn seq left (drop 10 h) }
{
    if left == 0 {
        Turn::Done(Whole::Pairs { seq })
    } else {
        Turn::Go(Field::KeyLength {
            seq,
            left: left - 1,
        })
    }
}

/// What a window size does.
#[tactic(auto, unfolding(crate::specs::Machine::turn))]
pub fn after_size(size: u32) -> Turn
    ensures stands { StandsBehind result 6 }
    ensures turn { (side : Side) → Turns result side WindowSize 2 size }
{
    if size <= MOST_FRAMES {
        Turn::Done(Whole::Window { size })
    } else {
        Turn::Bad(LumberWhy::TooMany)
    }
}

/// What a pair count does.
#[tactic(auto, using(crate::proofs::TextLaws::drop_early), unfolding(crate::specs::Machine::turn))]
pub fn after_count(seq: u32, count: u32) -> Turn
    ensures stands { StandsBehind result 10 }
    ensures turn { (side : Side) → Turns result side (PairCount seq) 6 count }
{
    if count as usize <= MOST_PAIRS {
        next_pair(seq, count)
    } else {
        Turn::Bad(LumberWhy::TooMany)
    }
}

/// What a payload length does.
#[tactic(auto, using(crate::proofs::TextLaws::drop_early, crate::proofs::TextLaws::drop_whole), unfolding(crate::specs::Machine::turn))]
pub fn after_payload_length(seq: u32, len: u32) -> Turn
    ensures stands { StandsBehind result 10 }
    ensures turn { (side : Side) → Turns result side (PayloadLength seq) 6 len }
{
    let len = len as usize;
    if len > MOST_TEXT {
        Turn::Bad(LumberWhy::TooLong)
    } else if len == 0 {
        Turn::Done(Whole::Json { seq })
    } else {
        Turn::Go(Field::Payload { seq, len })
    }
}

/// What a key length at a place of its frame does.
#[tactic(auto, using(crate::proofs::TextLaws::drop_text, crate::proofs::TextLaws::length_text), unfolding(crate::specs::Machine::turn))]
pub fn after_key_length(seq: u32, left: u32, at: usize, len: u32) -> Turn
    requires { Stands (Field.KeyLength seq left) at }
    ensures stands { StandsBehind result (at + 4) }
    ensures turn { (side : Side) → Turns result side (Field.KeyLength seq left) at len }
{
    let len = len as usize;
    if at - TEXT + 8 + len > MOST_TEXT {
        Turn::Bad(LumberWhy::TooLong)
    } else if len == 0 {
        Turn::Go(Field::ValueLength { seq, left })
    } else {
        Turn::Go(Field::Key { seq, left, len })
    }
}

/// What a value length at a place of its frame does.
#[tactic(auto, using(crate::proofs::TextLaws::drop_text, crate::proofs::TextLaws::length_text), unfolding(crate::specs::Machine::turn))]
pub fn after_value_length(seq: u32, left: u32, at: usize, len: u32) -> Turn
    requires { Stands (Field.ValueLength seq left) at }
    ensures stands { StandsBehind result (at + 4) }
    ensures turn { (side : Side) → Turns result side (Field.ValueLength seq left) at len }
{
    let len = len as usize;
    if at - TEXT + 4 + len > MOST_TEXT {
        Turn::Bad(LumberWhy::TooLong)
    } else if len == 0 {
        next_pair(seq, left)
    } else {
        Turn::Go(Field::Value { seq, left, len })
    }
}

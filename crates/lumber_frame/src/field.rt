//! The fields of a frame.
ghost use Rattle.std.specs.Prelude.{◌≡◌};
ghost use Rattle.lumber_frame.specs.Machine.{size_of};

use crate::fault::LumberWhy;

/// Where a text begins in its frame.
pub const TEXT: usize = 10;

/// A field of a frame, with what the fields before it told: the sequence number, how many pairs come
/// after this one, and of a string its length.
#[derive(Clone, Copy)]
pub enum Field {
    VersionByte,
    TypeByte,
    WindowSize,
    AckSequence,
    PairsSequence,
    JsonSequence,
    PairCount { seq: u32 },
    PayloadLength { seq: u32 },
    Payload { seq: u32, len: usize },
    KeyLength { seq: u32, left: u32 },
    Key { seq: u32, left: u32, len: usize },
    ValueLength { seq: u32, left: u32 },
    Value { seq: u32, left: u32, len: usize },
}

/// The field that is read of an unfinished frame, and the place in the frame where it begins.
#[derive(Clone, Copy)]
pub struct Phase {
    pub field: Field,
    pub at: usize,
}

/// Nothing has been read.
pub const START: Phase = Phase {
    field: Field::VersionByte,
    at: 0,
};

/// A whole frame without its text, which stands after the frame's first ten bytes.
#[derive(Clone, Copy)]
pub enum Whole {
    Window { size: u32 },
    Pairs { seq: u32 },
    Json { seq: u32 },
    Ack { seq: u32 },
}

/// What a whole field does: another field comes, the frame ends with it, or it breaks a rule.
#[derive(Clone, Copy)]
pub enum Turn {
    Go(Field),
    Done(Whole),
    Bad(LumberWhy),
}

/// How many bytes a field has.
pub fn field_size(field: Field) -> usize
    ensures { result ≡ size_of field }
{
    match field {
        Field::VersionByte | Field::TypeByte => 1,
        Field::Payload { len, .. } | Field::Key { len, .. } | Field::Value { len, .. } => len,
        _ => 4,
    }
}

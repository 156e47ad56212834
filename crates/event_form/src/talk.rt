//! How a connection ended.

/// Why bytes are no stream of their protocol. RELP has the first five, Lumberjack `Version` to `TooMany`
/// and `TooLong`, HTTP `BadHead` to `BadChunk` and `TooLong`.
#[derive(Clone, Copy, PartialEq, Eq, Debug)]
pub enum Why {
    /// A digit is due and isn't there, or a number has too many.
    Digits,
    /// A number ends with another byte than may follow it.
    Space,
    /// A command has another byte than a letter, or too many.
    Command,
    /// A length is above its limit.
    TooLong,
    /// The byte after the data isn't LF.
    Trailer,
    /// The version isn't 2.
    Version,
    /// No frame has this type.
    Kind,
    /// The frame is compressed.
    Compressed,
    /// The frame is an acknowledgement, which no sender of events sends.
    AckFromWriter,
    /// A count is above its limit.
    TooMany,
    /// The bytes begin no head of a request.
    BadHead,
    /// The head says no length that is allowed.
    BadLength,
    /// A chunk or the trailer after the chunks is broken.
    BadChunk,
    /// A peer's reply is none that may come.
    Reply,
}

/// How a connection ended. Offsets count its bytes from 0, needs and rooms count bytes of a slot.
#[derive(Clone, Copy, PartialEq, Eq, Debug)]
pub enum Talk {
    /// The input was read to its end, at a frame's end.
    Ended,
    /// The protocol's close was answered.
    Closed,
    /// The input breaks its protocol at this offset.
    Fault { at: u64, why: Why },
    /// The input ended inside the frame that begins at this offset.
    Truncated { at: u64 },
    /// The spool has no room: the group needs `need` bytes, the active slot has `room` left, and no slot is free.
    Full { need: u64, room: u64 },
    /// The group needs more bytes than an empty slot has.
    TooLarge { need: u64, most: u64 },
    /// The table of ids is full: it holds `held` of them.
    Busy { held: u32 },
    /// The numbers of the entries are spent.
    Spent { end: u64 },
    /// The ids of this run are spent.
    NoMore { run: u32 },
    /// `at` bytes were read, 2^40, which are all that a connection may have.
    TooMuch { at: u64 },
    /// A read failed.
    ReadFault,
    /// A write failed.
    WriteFault,
    /// A call of the disk failed.
    DiskFault,
    /// The device reads as no spool at this offset.
    NotSpool { at: u64 },
    /// No memory was found.
    NoMemory,
}

/// What came of one connection.
#[derive(Clone, Copy, PartialEq, Eq)]
pub struct Attended {
    /// How it ended.
    pub talk: Talk,
    /// How many entries were taken from it into the spool.
    pub taken: u64,
}

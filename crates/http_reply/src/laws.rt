//! What holds of the definitions alone. These functions do nothing: each has a law as its contract.
ghost use Rattle.stream_grammar.specs.Laws.{OneReading, SomeReading};
ghost use Rattle.stream_grammar.specs.Reading.{Drops};
ghost use Rattle.http_reply.specs.Reading.{replies};

/// The bytes of a stream alone decide its replies, the offset of the unfinished reply or of the one at fault, the bytes
/// of the unfinished one, and the fault.
pub fn one_reading()
    ensures { OneReading replies Drops }
{}

/// All bytes have a reading: they are whole replies, and then an unfinished one or none, or one at fault.
pub fn some_reading()
    ensures { SomeReading replies Drops }
{}

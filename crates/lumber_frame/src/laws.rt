//! What holds of the layout alone. These functions do nothing: each has a law as its contract.
ghost use Rattle.lumber_frame.specs.declared.side.Side.{Side};
ghost use Rattle.lumber_frame.specs.Reading.{WrittenIsRead, format};
ghost use Rattle.lumber_frame.specs.Spelling.{SpellsOnce, WrittenSpells};
ghost use Rattle.stream_grammar.specs.Laws.{OneReading, SomeReading};
ghost use Rattle.stream_grammar.specs.Reading.{Drops, Keeps};

/// No spelling of a frame is a proper front of another one, whatever follows.
pub fn spells_once()
    ensures { SpellsOnce }
{}

/// What is written for a frame within the limits is a spelling of it.
pub fn written_spells()
    ensures { WrittenSpells }
{}

/// What is written for a frame within the limits is read first by the side that reads such frames,
/// whatever follows it, and what follows is read as if it stood alone.
pub fn written_is_read()
    ensures reader { WrittenIsRead Drops }
    ensures window { WrittenIsRead Keeps }
{}

/// The bytes of a stream alone decide its frames, its rest, and the place and reason of its fault: what
/// a reader holds, and what a window holds.
pub fn one_reading()
    ensures reader { (side : Side) → OneReading (format side) Drops }
    ensures window { (side : Side) → OneReading (format side) Keeps }
{}

/// All bytes are frames and a rest, or frames and a field that breaks a rule.
pub fn some_reading()
    ensures reader { (side : Side) → SomeReading (format side) Drops }
    ensures window { (side : Side) → SomeReading (format side) Keeps }
{}

//! Which of the event objects that event_map makes hec_body takes. The function does nothing: it has the laws as its contract.
ghost use Rattle.collector_laws.specs.Taken.{FewAreShort, FittingIsOne, KeptIsTaken, MappedIsTaken, OthersAreRefused};
ghost use Rattle.collector_laws.specs.Taken.{RequestIsRefused, RequestIsTaken};

/// The event object of an event that didn't come as one is one event of a body, with the value that the map gives, where it has at most
/// 131,072 bytes and, where the event is an object that came by Lumberjack, that one has at most 126 levels (`taken`). A text of at most
/// 21,843 bytes makes no longer object (`few`). Where it has more bytes, or that object has 127 levels, it is refused by its format, as
/// event 0 (`refused`). What a receiver has taken as an event is one event of a body again (`kept`).
///
/// So the object of an entry is taken where its event came as an event object that was taken, or fits by these limits (`fits`).
/// A request whose entries' objects are taken is taken as these objects (`request`); of another the first entry whose object isn't taken
/// is told by its number among them (`first`).
pub fn made_is_taken()
    ensures taken { MappedIsTaken }
    ensures few { FewAreShort }
    ensures refused { OthersAreRefused }
    ensures kept { KeptIsTaken }
    ensures fits { FittingIsOne }
    ensures request { RequestIsTaken }
    ensures first { RequestIsRefused }
{}

//! What holds of the definitions alone. These functions do nothing: each has a law as its contract.
ghost use Rattle.stream_grammar.specs.Laws.{SomeReading};
ghost use Rattle.stream_grammar.specs.Reading.{Drops};
ghost use Rattle.http_edge.specs.Laws.{BothReadings, FaultOrStream, OneFault, OneReading, RequestsOnce};
ghost use Rattle.http_edge.specs.Laws.{FaultsStay, FrontsAreOpen, OpenBodies, PlacesAreOpen, SomeBody, WholeBodies};
ghost use Rattle.http_edge.specs.Reading.{http};

/// No request's bytes are a proper front of another one's, whatever follows.
pub fn requests_once()
    ensures { RequestsOnce }
{}

/// Where bytes are read without a fault, they alone decide the items, the offset of the unfinished request
/// and its bytes.
pub fn one_reading()
    ensures { OneReading }
{}

/// The bytes of a stream with a fault alone decide its items, the offset of the request at fault, the
/// fault's place and its reason. One case is left open: where a request's first 16,384 bytes end inside a
/// target that can no longer be text, the reason may be `BadHead` or `TooLong`.
pub fn one_fault()
    ensures { OneFault }
{}

/// Bytes with a fault have no reading without one. One case is left open: where the bytes end inside a
/// target that can no longer be text, they may also be an unfinished request.
pub fn fault_or_stream()
    ensures { FaultOrStream }
{}

/// In the cases that are left open, both readings are there.
pub fn both_readings()
    ensures { BothReadings }
{}

/// All bytes have a reading: they are whole requests, and then an unfinished one or none, or one at fault.
pub fn some_reading()
    ensures { SomeReading http Drops }
{}

/// Every text after a head begins with a whole body, is open, or is at fault.
pub fn some_body()
    ensures { SomeBody }
{}

/// A whole body is one by RFC 9112, the limits aside.
pub fn whole_bodies()
    ensures { WholeBodies }
{}

/// A text is open exactly where some bytes that follow make it a body by RFC 9112, the limits aside, and it
/// neither begins with a whole body nor is at fault. So a chunk line or a trailer that can't end within its
/// limit any more, or a size above it, is a fault only once the limit is reached, or the line is whole.
pub fn open_bodies()
    ensures { OpenBodies }
{}

/// What a whole body begins with is open, until the body is whole.
pub fn fronts_are_open()
    ensures { FrontsAreOpen }
{}

/// Whatever follows a text at fault, no body comes of it.
pub fn faults_stay()
    ensures { FaultsStay }
{}

/// A fault of chunks is placed at one of the bytes, and the bytes before that one are open.
pub fn places_are_open()
    ensures { PlacesAreOpen }
{}

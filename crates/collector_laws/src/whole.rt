//! What keeps the limits of requests is whole. The function does nothing: it has the laws as its contract.
ghost use Rattle.collector_laws.specs.Whole.{ChunkedIsWhole, RequestIsWhole, SizedIsWhole};

/// A body of at most 1,048,576 bytes is whole by its length (`sized`). A text is whole as a chunked body of some bytes exactly where it is
/// a chunked body of RFC 9112, section 7.1, of these bytes, and keeps the limits of chunk lines, of the trailer and of the sum (`chunked`).
/// A head within its limits and a whole body after it are a request, with that head and that body (`request`).
pub fn within_is_whole()
    ensures sized { SizedIsWhole }
    ensures chunked { ChunkedIsWhole }
    ensures request { RequestIsWhole }
{}

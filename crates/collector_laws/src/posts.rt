//! What holds of what the collector's sender posts. The functions do nothing: each has laws as its contract.
ghost use Rattle.stream_grammar.specs.Reading.{Drops};
ghost use Rattle.http_edge.specs.Reading.{parts};
ghost use Rattle.collector_laws.specs.Asked.{EventsAreStored, QueriesAreAsked, QueryAsksForOne, TermsAreFound};
ghost use Rattle.collector_laws.specs.Sent.{PostedIsRead, PostedSpells, QueriesArePosted, ReadsFirst, RequestsArePosted, SessionIsPosts};

/// Each request of the collector's sender and each of its queries is a post of a body to its path (`requests`, `queries`). Whatever the
/// token, the channel and the body, what is written of a post is one request by the grammar of http_edge, with this method, this target,
/// these fields and this body (`spells`).
///
/// It is read first, whatever follows it, and what follows is read as if it stood alone: of what a window holds (`window`), and of
/// bytes (`bytes`). So whatever an `HttpWindow` has read of bytes that begin with it, that request is the first (`first`). And the whole
/// text of a session, of any entries and of whatever the collector's replies brought, is such posts, one after another (`session`).
pub fn posted_is_read()
    ensures requests { RequestsArePosted }
    ensures queries { QueriesArePosted }
    ensures spells { PostedSpells }
    ensures window { PostedIsRead parts }
    ensures bytes { PostedIsRead Drops }
    ensures first { ReadsFirst }
    ensures session { SessionIsPosts }
{}

/// A receiver finds in each post the token and the channel that the sender was given, each of them any number of 128 bits (`terms`). So
/// a post of events is to be stored where the receiver has that token (`events`), and a query is to be asked where that token uses
/// acks (`asks`); the body of a query asks for its id alone (`query`).
pub fn posted_is_asked()
    ensures terms { TermsAreFound }
    ensures events { EventsAreStored }
    ensures asks { QueriesAreAsked }
    ensures query { QueryAsksForOne }
{}

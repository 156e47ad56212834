//! Each body and each request has an answer. The functions do nothing: each has laws as its contract.
ghost use Rattle.collector_laws.specs.Replied.{AnswerDecides, OthersRefuse, SuccessAsks, SuccessConfirms};
ghost use Rattle.collector_laws.specs.Outcomes.{PostedIsStored, QueryIsAsked, QueryOrNot, SomeAct, SomeCut, SomeLineCut};

/// Each body of events is events or has a first fault, of which hec_body's definition says where and why (`events`), and so has each raw
/// body (`lines`); each body asks for some acknowledgement ids or for none (`query`). So each request has something to be done for it by
/// hec_session's definition, whatever the receiver's tokens (`act`). That there is no second answer is said by those crates' own laws.
pub fn each_is_answered()
    ensures events { SomeCut }
    ensures lines { SomeLineCut }
    ensures query { QueryOrNot }
    ensures act { SomeAct }
{}

/// What the sender posts is stored by a receiver that has its token, where each event object of the request is taken: these objects, in
/// their order, and on the sender's channel where that token uses acks (`events`). There a query asks for its id on that channel
/// (`asks`).
pub fn posted_is_stored()
    ensures events { PostedIsStored }
    ensures asks { QueryIsAsked }
{}

/// The replies of a receiver say to the collector's sender what they are to: a success without an id confirms the request (`confirms`),
/// one with an id has that id asked for (`asks`), the answer to the query of an id confirms or denies, by whether the id is known
/// (`decides`), and a reply with any other code refuses with that code, to a request and to a query (`refuses`). That a reply says no
/// second thing is hec_sender's own law.
pub fn replies_are_understood()
    ensures confirms { SuccessConfirms }
    ensures asks { SuccessAsks }
    ensures decides { AnswerDecides }
    ensures refuses { OthersRefuse }
{}

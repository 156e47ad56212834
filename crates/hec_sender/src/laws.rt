//! What holds of requests and of replies alone. These functions do nothing: each has a law as its contract.
ghost use Rattle.hec_sender.specs.Laws.{OneVerdict, RequestsFit};

/// The body of each request has at most `MOST_BODY` bytes, since an event object is shorter.
pub fn requests_fit()
    ensures { RequestsFit }
{}

/// A reply says one thing.
pub fn one_verdict()
    ensures { OneVerdict }
{}

//! How far a request is.
ghost use Rattle.std.specs.Prelude.{◌≡◌};
ghost use Rattle.hec_sender.specs.Sender.{asked_by};

use crate::query::Query;

/// How far the request of the first entries that aren't acknowledged is.
#[derive(Clone, Copy)]
pub(crate) enum Stage {
    /// It isn't written.
    Unsent,
    /// It is written, and its reply is to come.
    Sent,
    /// This query is to be written, after a pause.
    Paused(Query),
    /// This query is written, and its reply is to come.
    Asked(Query),
}

impl Stage {
    /// What is asked for the request.
    pub fn asked(self) -> Option<Query>
        ensures { result ≡ asked_by self }
    {
        match self {
            Stage::Unsent | Stage::Sent => None,
            Stage::Paused(query) | Stage::Asked(query) => Some(query),
        }
    }
}

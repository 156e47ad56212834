//! What is due.
use crate::query::Query;
use crate::stop::Stop;

/// What is due.
#[derive(Clone, Copy)]
pub(crate) enum Due {
    /// Nothing: the session ended.
    Stopped(Stop),
    /// To write the next request.
    Send,
    /// To write this query again.
    Repeat(Query),
    /// To ask for more entries.
    Ask,
    /// Nothing: all is acknowledged, and no more comes.
    End,
    /// To take a reply.
    Hear,
}

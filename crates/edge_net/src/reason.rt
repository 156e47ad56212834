//! Why a request was refused, in words.
use crate::ending::Ending;
use event_form::Talk;
use std::fmt;

// Why the collector refuses a request, by the number of its reason ("Troubleshoot HTTP Event Collector", possible error codes).
fn words_of(reason: u16) -> &'static str {
    match reason {
        2 => "it has no token",
        3 => "its field Authorization names no token",
        4 => "its token isn't known",
        5 => "it has no event",
        6 => "its body isn't one that is taken",
        8 => "it can't be stored",
        9 => "FILE has no room for it, or the table of ack ids is full",
        10 => "it names no channel",
        11 => "its channel is no GUID",
        12 => "an object has no event",
        13 => "an event is blank",
        14 => "its token has no ack ids",
        16 => "its token stands in the query",
        404 => "nothing is at its path",
        405 => "its path has another method",
        _ => "see its code",
    }
}

/// Why a request was refused.
#[derive(Clone, Copy)]
pub(crate) struct Reason {
    /// The number of the reason in the answer.
    pub(crate) number: u16,
    /// How the connection ended by it, if it did.
    pub(crate) end: Option<Talk>,
}

/// By how the connection ended, or else by the number.
impl fmt::Display for Reason {
    fn fmt<W: fmt::Write>(&self, f: &mut fmt::Formatter<W>) -> fmt::Result {
        match self.end {
            Some(talk) => {
                let ending = Ending { talk };
                write!(f, "{ending}")
            }
            None => f.write_str(words_of(self.number)),
        }
    }
}

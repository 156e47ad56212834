//! How a connection ended, in words.
ghost use Rattle.std.specs.Prelude.{◌≡◌};
ghost use Rattle.edge_net.specs.Ending.{is_full, explains, kind_of};

use event_form::Talk;
use notes::why_word;
use std::fmt;

/// Whether it ended since FILE had no room for an event: not where an event was larger than a slot, nor where the table of ack ids was
/// full.
pub(crate) fn is_full(talk: Talk) -> bool
    ensures { result ≡ is_full talk }
{
    matches!(talk, Talk::Full { .. })
}

/// Whether it says why the request was refused that came last: it is not the end of the bytes, nor a call of the connection that failed.
pub(crate) fn explains(talk: Talk) -> bool
    ensures { result ≡ explains talk }
{
    !matches!(
        talk,
        Talk::Ended | Talk::Closed | Talk::Truncated { .. } | Talk::ReadFault | Talk::WriteFault
    )
}

/// The same without its offset and its numbers, so that endings of one kind are equal. Why bytes break their protocol stays.
pub(crate) fn kind_of(talk: Talk) -> Talk
    ensures { result ≡ kind_of talk }
{
    match talk {
        Talk::Fault { why, .. } => Talk::Fault { at: 0, why },
        Talk::Truncated { .. } => Talk::Truncated { at: 0 },
        Talk::Full { .. } => Talk::Full { need: 0, room: 0 },
        Talk::TooLarge { .. } => Talk::TooLarge { need: 0, most: 0 },
        Talk::Busy { .. } => Talk::Busy { held: 0 },
        Talk::Spent { .. } => Talk::Spent { end: 0 },
        Talk::NoMore { .. } => Talk::NoMore { run: 0 },
        Talk::TooMuch { .. } => Talk::TooMuch { at: 0 },
        Talk::NotSpool { .. } => Talk::NotSpool { at: 0 },
        other => other,
    }
}

// What there is to say of it where no number is said.
fn words_of(talk: Talk) -> &'static str {
    match talk {
        Talk::Spent { .. } => "the numbers of entries are spent",
        Talk::NoMore { .. } => "the ack ids of this run are spent",
        Talk::TooMuch { .. } => "it sent as much as a connection may",
        Talk::ReadFault => "a read failed",
        Talk::WriteFault => "a write failed",
        Talk::DiskFault => "a call on FILE failed",
        Talk::NoMemory => "no memory",
        _ => "see its status",
    }
}

/// How a connection ended.
#[derive(Clone, Copy)]
pub(crate) struct Ending {
    /// That.
    pub(crate) talk: Talk,
}

/// As `its bytes break the protocol at byte 7: bad head`. Offsets count the bytes of the connection from 0, but that of a FILE that is no
/// spool, which counts FILE's.
impl fmt::Display for Ending {
    fn fmt<W: fmt::Write>(&self, f: &mut fmt::Formatter<W>) -> fmt::Result {
        match self.talk {
            Talk::Fault { at, why } => {
                let word = why_word(why);
                write!(f, "its bytes break the protocol at byte {at}: {word}")
            }
            Talk::Truncated { at } => write!(f, "it ended in a frame at byte {at}"),
            Talk::Full { need, room } => {
                write!(f, "FILE has no room; {need} bytes needed, {room} free")
            }
            Talk::TooLarge { need, most } => write!(
                f,
                "the event is larger than a slot of FILE; {need} bytes needed, {most} at most"
            ),
            Talk::Busy { held } => write!(f, "the table of ack ids is full; it holds {held}"),
            Talk::NotSpool { at } => write!(f, "FILE is no spool at byte {at}"),
            other => f.write_str(words_of(other)),
        }
    }
}

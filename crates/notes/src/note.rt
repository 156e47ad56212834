//! Why a run ended.
ghost use Rattle.std.specs.Prelude.{◌≡◌, ◌++◌, IfOk, string_bytes};
ghost use Rattle.std.specs.Fmt.{decimal};
ghost use Rattle.notes.specs.Notes.{text_of};

use crate::why::why_word;
use event_form::{Blob, Talk, Why};
use std::alloc::{AllocError, Global};

/// Why a run ended. Each has one exit status and one text. Offsets count bytes of the device from 0, or of
/// the input where that is said; needs and rooms count bytes of a slot.
#[derive(Clone, Copy, PartialEq, Eq)]
pub enum Note {
    /// All was done.
    Fine,
    /// The words are no command.
    Usage,
    /// The device breaks a rule of the layout, the first one at this offset.
    NotSpool { at: u64 },
    /// The device has another number of bytes than the spool that is wanted.
    WrongLength { have: u64, want: u64 },
    /// The input, or what the peer sends, breaks its protocol at this offset of it.
    Fault { at: u64, why: Why },
    /// The group of the next event needs `need` bytes, and the active slot has `room` bytes left. No slot is free.
    Full { need: u64, room: u64 },
    /// The next event needs more bytes than an empty slot has room for.
    TooLarge { need: u64, most: u64 },
    /// The table of ids is full: it holds `held` of them.
    Busy { held: u32 },
    /// The peer refused the frame or the request of this number with this code.
    Refused { unit: u64, code: u32 },
    /// The peer's bytes ended, or it said that it closes the session, while entries were unconfirmed.
    PeerClosed,
    /// Asked as often as it may be, the peer never said that the request of this id is acknowledged.
    Unconfirmed { asked: u64 },
    /// No memory was found.
    NoMemory,
    /// A read of the input, or of the link that was dialed, failed.
    ReadFault,
    /// A write of the output, or of the link that was dialed, failed.
    WriteFault,
    /// A call of the disk failed.
    DiskFault,
    /// A place was not dialed or bound, or no connection could be accepted at one that was.
    NetFault,
    /// The input ended inside the frame that begins at this offset of it.
    Truncated { at: u64 },
    /// The spool was opened for storing as often as it can be.
    RunsSpent { run: u32 },
    /// The numbers of the entries are spent.
    Spent { end: u64 },
    /// The register of the device was written as often as it can be.
    Worn { ordinal: u64 },
    /// The ids of this run are spent.
    NoMore { run: u32 },
    /// `at` bytes of the input were read, 2^40, which are all that a connection may have.
    TooMuch { at: u64 },
    /// The spool into which entries are moved has another one under the tag and the number of this entry.
    Strange { number: u64 },
}

// A number between two texts.
fn numbered(alloc: Global, before: &str, number: u64, after: &str) -> Result<String, AllocError>
    ensures { IfOk result (λ text. string_bytes text ≡ before.now ++ (decimal number ++ after.now)) }
{
    format!(in alloc; "{before}{number}{after}")
}

// A number after a text.
fn ended_by(alloc: Global, before: &str, number: u64) -> Result<String, AllocError>
    ensures { IfOk result (λ text. string_bytes text ≡ before.now ++ decimal number) }
{
    format!(in alloc; "{before}{number}")
}

// Two numbers between three texts.
fn two_numbers(
    alloc: Global,
    before: &str,
    first: u64,
    between: &str,
    second: u64,
    after: &str,
) -> Result<String, AllocError>
    ensures { IfOk result (λ text. string_bytes text ≡ before.now ++ (decimal first ++ (between.now ++ (decimal second ++ after.now)))) }
{
    format!(in alloc; "{before}{first}{between}{second}{after}")
}

impl Note {
    ghost use Rattle.notes.specs.Notes.{status_of, text_of, note_of_talk};

    /// The note for a connection that ended so: `Fine` where it was closed or the input was read to its end
    /// at a frame's end, else the note of the same name.
    pub fn of_talk(talk: Talk) -> Note
        ensures { result ≡ note_of_talk talk }
    {
        match talk {
            Talk::Ended | Talk::Closed => Note::Fine,
            Talk::Fault { at, why } => Note::Fault { at, why },
            Talk::Truncated { at } => Note::Truncated { at },
            Talk::Full { need, room } => Note::Full { need, room },
            Talk::TooLarge { need, most } => Note::TooLarge { need, most },
            Talk::Busy { held } => Note::Busy { held },
            Talk::Spent { end } => Note::Spent { end },
            Talk::NoMore { run } => Note::NoMore { run },
            Talk::TooMuch { at } => Note::TooMuch { at },
            Talk::ReadFault => Note::ReadFault,
            Talk::WriteFault => Note::WriteFault,
            Talk::DiskFault => Note::DiskFault,
            Talk::NotSpool { at } => Note::NotSpool { at },
            Talk::NoMemory => Note::NoMemory,
        }
    }

    /// The exit status of the program.
    pub fn status(self) -> u8
        ensures { result ≡ status_of self }
    {
        match self {
            Note::Fine => 0,
            Note::Usage => 64,
            Note::NotSpool { .. } | Note::WrongLength { .. } => 65,
            Note::Fault { .. } => 66,
            Note::Full { .. } | Note::TooLarge { .. } | Note::Busy { .. } => 67,
            Note::Refused { .. } | Note::PeerClosed => 68,
            Note::Unconfirmed { .. } => 69,
            Note::NoMemory => 70,
            Note::ReadFault => 71,
            Note::WriteFault => 72,
            Note::DiskFault => 73,
            Note::NetFault => 74,
            Note::Truncated { .. } => 75,
            Note::RunsSpent { .. } => 76,
            Note::Spent { .. } | Note::Worn { .. } | Note::NoMore { .. } | Note::TooMuch { .. } =>
                77,
            Note::Strange { .. } => 79,
        }
    }

    fn text(self, alloc: Global) -> Result<String, AllocError>
        ensures { IfOk result (λ text. string_bytes text ≡ text_of self) }
    {
        match self {
            Note::Fine => Ok(String::new(alloc)),
            Note::Usage => String::from_str(
                alloc,
                "usage: bridge FILE format|replay|list|drain|serve|load|move",
            ),
            Note::NotSpool { at } => ended_by(alloc, "not a spool at ", at),
            Note::WrongLength { have, want } => {
                two_numbers(alloc, "device has ", have, " bytes, ", want, " wanted")
            }
            Note::Fault { at, why } => {
                let why = why_word(why);
                format!(in alloc; "fault at {at}: {why}")
            }
            Note::Full { need, room } => {
                two_numbers(alloc, "spool full: ", need, " needed, ", room, " free")
            }
            Note::TooLarge { need, most } => {
                two_numbers(
                    alloc,
                    "group too large: ",
                    need,
                    " needed, ",
                    most,
                    " at most",
                )
            }
            Note::Busy { held } => numbered(alloc, "id table full: ", u64::from(held), " held"),
            Note::Refused { unit, code } => format!(in alloc; "peer refused {unit} with {code}"),
            Note::PeerClosed => String::from_str(alloc, "peer closed"),
            Note::Unconfirmed { asked } => ended_by(alloc, "unconfirmed ", asked),
            Note::NoMemory => String::from_str(alloc, "no memory"),
            Note::ReadFault => String::from_str(alloc, "read fault"),
            Note::WriteFault => String::from_str(alloc, "write fault"),
            Note::DiskFault => String::from_str(alloc, "disk fault"),
            Note::NetFault => String::from_str(alloc, "net fault"),
            Note::Truncated { at } => ended_by(alloc, "input ended in a frame at ", at),
            Note::RunsSpent { run } => numbered(alloc, "run ", u64::from(run), " was the last"),
            Note::Spent { end } => ended_by(alloc, "history spent at ", end),
            Note::Worn { ordinal } => ended_by(alloc, "register spent at ", ordinal),
            Note::NoMore { run } => numbered(alloc, "ids of run ", u64::from(run), " spent"),
            Note::TooMuch { at } => ended_by(alloc, "connection spent at ", at),
            Note::Strange { number } => numbered(alloc, "entry ", number, " is another"),
        }
    }
}

/// The text that is printed for a note: one line without its end, and nothing for `Fine`.
pub fn note_text(alloc: Global, note: &Note) -> Result<Blob, AllocError>
    ensures { IfOk result (λ text. text ≡ text_of note.now) }
{
    Ok(Blob::of(note.text(alloc)?.into_bytes()))
}

//! The one reading of the words: clap finds what stands where, and each word is then tested.
ghost use Rattle.std.specs.Prelude.{◌≡◌, ◌≢◌, Err, IfOk, codes, map, string_bytes};
ghost use Rattle.words_faults.specs.declared.fault.WordsFault.{WordsFault};
ghost use Rattle.bridge_words.specs.declared.reading.Unread.TheVariants.{NoMemory, Wrong};
ghost use Rattle.bridge_words.specs.Values.{rows_in, receiver_of};
ghost use Rattle.bridge_words.specs.Asked.{IsAskedBy, IsAsked};
ghost use Rattle.bridge_words.specs.Words.{IsNamed, receiver_in, HasPolls};
ghost use Rattle.bridge_words.specs.Wrong.{unread_for, WrongFormat, WrongList, WrongReplay, WrongDrain, WrongLoad, WrongBy, IsWrong};

use crate::grammar::{found, parse};
use crate::pair::{Pair, pair_in};
use crate::server::serve_in;
use crate::values::{form_in, guid_for, number_for, number_or, place_for, proto_in};
use crate::{Command, Receiver};
use clap::ArgMatches;
use clap::error::ErrorKind;
use edge_io::Proto;
use std::alloc::{AllocError, Global};
use words_faults::WordsFault;

/// Why no command was read from the words.
#[derive(Drop)]
pub(crate) enum Unread {
    /// No memory was found.
    NoMemory,
    /// They are no command.
    Wrong(WordsFault),
}

/// What words ask for.
#[derive(Drop)]
pub(crate) enum Asked {
    /// What is done over one device, or over none.
    Command(Command),
    /// A move from one device into another.
    Move(Pair),
}

impl From<AllocError> for Unread {
    ghost from_gives = { λ _ unread. unread ≡ NoMemory };

    fn from(_error: AllocError) -> Unread {
        Unread::NoMemory
    }
}

impl From<WordsFault> for Unread {
    ghost from_gives = { λ fault unread. unread ≡ Wrong fault };

    fn from(fault: WordsFault) -> Unread {
        Unread::Wrong(fault)
    }
}

// What a kind of clap's errors says: what is wrong with the words, or that no memory was found.
fn unread_for(kind: ErrorKind) -> Unread
    ensures { result ≡ unread_for kind }
{
    match kind {
        ErrorKind::OutOfMemory => Unread::NoMemory,
        ErrorKind::MissingSubcommand => Unread::Wrong(WordsFault::NoCommand),
        ErrorKind::MissingRequiredArgument => Unread::Wrong(WordsFault::MissingWord),
        ErrorKind::InvalidValue => Unread::Wrong(WordsFault::MissingValue),
        ErrorKind::TooManyValues => Unread::Wrong(WordsFault::ExtraValue),
        ErrorKind::ArgumentConflict => Unread::Wrong(WordsFault::GivenTwice),
        _ => Unread::Wrong(WordsFault::UnknownWord),
    }
}

// `format SLOTS SIZE`
fn format_in(matches: &ArgMatches<'_>) -> Result<Command, Unread>
    ensures command { IfOk result (IsNamed (codes "format") (rows_in matches.now)) }
    ensures wrong { (fault : WordsFault) → result ≡ Err (Wrong fault) → WrongFormat fault (rows_in matches.now) }
{
    let slots = number_for(matches, "slots", 1, 1024, WordsFault::Slots)?;
    let size = number_for(matches, "size", 4096, 1_073_741_824, WordsFault::Size)?;
    Ok(Command::Format {
        slots,
        size: u64::from(size),
    })
}

// `list [--as FORM]`
fn list_in(matches: &ArgMatches<'_>) -> Result<Command, Unread>
    ensures command { IfOk result (IsNamed (codes "list") (rows_in matches.now)) }
    ensures wrong { (fault : WordsFault) → result ≡ Err (Wrong fault) → WrongList fault (rows_in matches.now) }
{
    let form = form_in(matches)?;
    Ok(Command::List { form })
}

// `replay PROTO [--token G] [--ack-token G]`
fn replay_in(matches: &ArgMatches<'_>) -> Result<Command, Unread>
    ensures command { IfOk result (IsNamed (codes "replay") (rows_in matches.now)) }
    ensures wrong { (fault : WordsFault) → result ≡ Err (Wrong fault) → WrongReplay fault (rows_in matches.now) }
{
    let proto = proto_in(matches)?;
    let token = guid_for(matches, "token", WordsFault::Token)?;
    let ack_token = guid_for(matches, "ack-token", WordsFault::AckToken)?;
    Ok(Command::Replay {
        proto,
        token,
        ack_token,
    })
}

/// A collector is sent to with a token and on a channel.
pub(crate) fn receiver_of(
    proto: Proto,
    token: Option<u128>,
    channel: Option<u128>,
    polls: u32,
) -> Result<Receiver, WordsFault>
    ensures { result ≡ receiver_of proto token channel polls }
{
    match (proto, token, channel) {
        (Proto::Relp, _, _) => Ok(Receiver::Relp),
        (Proto::Lumberjack, _, _) => Ok(Receiver::Lumberjack),
        (Proto::Hec, None, _) => Err(WordsFault::NoOutToken),
        (Proto::Hec, Some(_), None) => Err(WordsFault::NoOutChannel),
        (Proto::Hec, Some(token), Some(channel)) => Ok(Receiver::Hec {
            token,
            channel,
            polls,
        }),
    }
}

// What `drain` forwards to.
fn receiver_in(matches: &ArgMatches<'_>) -> Result<Receiver, WordsFault>
    ensures receiver { result ≡ receiver_in (rows_in matches.now) }
    ensures polls { IfOk result HasPolls }
{
    let proto = proto_in(matches)?;
    let token = guid_for(matches, "out-token", WordsFault::OutToken)?;
    let channel = guid_for(matches, "out-channel", WordsFault::OutChannel)?;
    let polls = number_or(matches, "polls", 1, 1000, 60, WordsFault::Polls)?;
    receiver_of(proto, token, channel, polls)
}

// `drain PROTO [PLACE] [--out-token G] [--out-channel G] [--polls N]`
fn drain_in(alloc: Global, matches: &ArgMatches<'_>) -> Result<Command, Unread>
    ensures command { IfOk result (IsNamed (codes "drain") (rows_in matches.now)) }
    ensures wrong { (fault : WordsFault) → result ≡ Err (Wrong fault) → WrongDrain fault (rows_in matches.now) }
{
    let receiver = receiver_in(matches)?;
    let place = place_for(alloc, matches, "place")?;
    Ok(Command::Drain { receiver, place })
}

// `load PROTO NUMBER COUNT`
fn load_in(matches: &ArgMatches<'_>) -> Result<Command, Unread>
    ensures command { IfOk result (IsNamed (codes "load") (rows_in matches.now)) }
    ensures wrong { (fault : WordsFault) → result ≡ Err (Wrong fault) → WrongLoad fault (rows_in matches.now) }
{
    let proto = proto_in(matches)?;
    let number = number_for(matches, "number", 0, 2_147_483_647, WordsFault::Number)?;
    let count = number_for(matches, "count", 0, 100_000, WordsFault::Count)?;
    Ok(Command::Load {
        proto,
        number,
        count,
    })
}

// The command of this name for which its words ask. The name isn't `move`.
fn command_in(alloc: Global, name: &str, matches: &ArgMatches<'_>) -> Result<Command, Unread>
    requires other { name.now ≢ codes "move" }
    ensures command { IfOk result (IsNamed name.now (rows_in matches.now)) }
    ensures wrong { (fault : WordsFault) → result ≡ Err (Wrong fault) → WrongBy name.now fault (rows_in matches.now) }
{
    if name == "list" {
        list_in(matches)
    } else if name == "replay" {
        replay_in(matches)
    } else if name == "drain" {
        drain_in(alloc, matches)
    } else if name == "format" {
        format_in(matches)
    } else if name == "load" {
        load_in(matches)
    } else if name == "serve" {
        serve_in(alloc, matches)
    } else {
        Err(Unread::Wrong(WordsFault::UnknownWord))
    }
}

// What the words under this name ask for.
fn asked_in(alloc: Global, name: &str, matches: &ArgMatches<'_>) -> Result<Asked, Unread>
    ensures asked { IfOk result (IsAskedBy name.now (rows_in matches.now)) }
    ensures wrong { (fault : WordsFault) → result ≡ Err (Wrong fault) → WrongBy name.now fault (rows_in matches.now) }
{
    if name == "move" {
        let pair = pair_in(alloc, matches)?;
        return Ok(Asked::Move(pair));
    }
    let command = command_in(alloc, name, matches)?;
    Ok(Asked::Command(command))
}

/// What the words ask for, or what is wrong with them.
pub(crate) fn read(alloc: Global, words: &[String]) -> Result<Asked, Unread>
    ensures asked { IfOk result (IsAsked (map string_bytes words.now)) }
    ensures wrong { (fault : WordsFault) → result ≡ Err (Wrong fault) → IsWrong fault (map string_bytes words.now) }
{
    let matches = match parse(alloc, words) {
        Ok(matches) => matches,
        Err(error) => return Err(unread_for(error.kind())),
    };
    match found(&matches) {
        Some((name, matches)) => asked_in(alloc, name, matches),
        None => Err(Unread::Wrong(WordsFault::NoCommand)),
    }
}

//! The words of the commands, each read from what clap found.
ghost use Rattle.std.specs.Prelude.{◌≡◌, ◌≤◌, None, Some, Ok, Err, IfOk, MatchOption};
ghost use Rattle.words_faults.specs.declared.fault.WordsFault.{WordsFault};
ghost use Rattle.words_faults.specs.declared.fault.WordsFault.TheVariants.{MissingWord};
ghost use Rattle.bridge_words.specs.declared.reading.Unread.TheVariants.{Wrong};
ghost use Rattle.bridge_words.specs.Values.{value_of, rows_in, guid, proto_at, form_at, number_within, must_be, may_be, is_else, place_for, is_given};
ghost use Rattle.bridge_words.specs.Values.{proto_in, form_in, forward_in};

use crate::ListForm;
use crate::number::number_within;
use crate::pair::FilePath;
use crate::reading::Unread;
use clap::ArgMatches;
use edge_io::Proto;
use notes::Place;
use std::alloc::Global;
use uuid::Uuid;
use words_faults::WordsFault;

/// The text that stands for a word of the command.
pub(crate) fn value_of<'a>(matches: &ArgMatches<'a>, id: &str) -> Option<&'a str>
    ensures { MatchOption result (value_of id.now (rows_in matches.now) ≡ None) (λ text. value_of id.now (rows_in matches.now) ≡ Some text.now) }
{
    matches.get_str(id)
}

/// The number of the GUID that a text writes: simple, hyphenated, in braces or as a URN (RFC 9562, section 4).
pub(crate) fn guid(text: &str) -> Option<u128>
    ensures { result ≡ guid text.now }
{
    match Uuid::try_parse(text) {
        Ok(id) => Some(id.as_u128()),
        Err(_) => None,
    }
}

// The protocol that a text names.
fn proto_at(text: &str) -> Option<Proto>
    ensures { result ≡ proto_at text.now }
{
    if text == "relp" {
        Some(Proto::Relp)
    } else if text == "lumberjack" {
        Some(Proto::Lumberjack)
    } else if text == "hec" {
        Some(Proto::Hec)
    } else {
        None
    }
}

// The form that a text names.
fn form_at(text: &str) -> Option<ListForm>
    ensures { result ≡ form_at text.now }
{
    if text == "relp" {
        Some(ListForm::Text)
    } else if text == "json" {
        Some(ListForm::JsonObject)
    } else if text == "hec" {
        Some(ListForm::HecObject)
    } else {
        None
    }
}

/// A number from `least` to `most` that must stand for this word.
pub(crate) fn number_for(
    matches: &ArgMatches<'_>,
    id: &str,
    least: u32,
    most: u32,
    fault: WordsFault,
) -> Result<u32, WordsFault>
    ensures number { result ≡ must_be fault (number_within least most) (value_of id.now (rows_in matches.now)) }
    ensures range { IfOk result (λ n. (least ≤ n) × (n ≤ most)) }
{
    match value_of(matches, id) {
        Some(text) => number_within(text, least, most).ok_or(fault),
        None => Err(WordsFault::MissingWord),
    }
}

/// A number from `least` to `most` that may stand for this word, or else `default`.
pub(crate) fn number_or(
    matches: &ArgMatches<'_>,
    id: &str,
    least: u32,
    most: u32,
    default: u32,
    fault: WordsFault,
) -> Result<u32, WordsFault>
    ensures number { result ≡ is_else default fault (number_within least most) (value_of id.now (rows_in matches.now)) }
    ensures range { least ≤ default → default ≤ most → IfOk result (λ n. (least ≤ n) × (n ≤ most)) }
{
    match value_of(matches, id) {
        Some(text) => number_within(text, least, most).ok_or(fault),
        None => Ok(default),
    }
}

/// A GUID that may stand for this word.
pub(crate) fn guid_for(
    matches: &ArgMatches<'_>,
    id: &str,
    fault: WordsFault,
) -> Result<Option<u128>, WordsFault>
    ensures { result ≡ may_be fault guid (value_of id.now (rows_in matches.now)) }
{
    match value_of(matches, id) {
        Some(text) => match guid(text) {
            Some(number) => Ok(Some(number)),
            None => Err(fault),
        },
        None => Ok(None),
    }
}

/// Whether the option of this name, which has no value, is given.
pub(crate) fn flag_for(matches: &ArgMatches<'_>, id: &str) -> bool
    ensures { result ≡ is_given (value_of id.now (rows_in matches.now)) }
{
    match value_of(matches, id) {
        Some(text) => text == "true",
        None => false,
    }
}

/// PROTO.
pub(crate) fn proto_in(matches: &ArgMatches<'_>) -> Result<Proto, WordsFault>
    ensures { result ≡ proto_in (rows_in matches.now) }
{
    match value_of(matches, "proto") {
        Some(text) => proto_at(text).ok_or(WordsFault::Proto),
        None => Err(WordsFault::MissingWord),
    }
}

/// The value of `--as`.
pub(crate) fn form_in(matches: &ArgMatches<'_>) -> Result<ListForm, WordsFault>
    ensures { result ≡ form_in (rows_in matches.now) }
{
    match value_of(matches, "as") {
        Some(text) => form_at(text).ok_or(WordsFault::Form),
        None => Ok(ListForm::Plain),
    }
}

/// The protocol of `--forward`.
pub(crate) fn forward_in(matches: &ArgMatches<'_>) -> Result<Option<Proto>, WordsFault>
    ensures { result ≡ forward_in (rows_in matches.now) }
{
    match value_of(matches, "forward") {
        Some(text) => match proto_at(text) {
            Some(proto) => Ok(Some(proto)),
            None => Err(WordsFault::Proto),
        },
        None => Ok(None),
    }
}

/// A place that may stand for this word, copied.
pub(crate) fn place_for(
    alloc: Global,
    matches: &ArgMatches<'_>,
    id: &str,
) -> Result<Option<Place>, Unread>
    ensures place { IfOk result (λ place. place_for id.now (rows_in matches.now) ≡ Ok place) }
    ensures wrong { (fault : WordsFault) → result ≡ Err (Wrong fault) → place_for id.now (rows_in matches.now) ≡ Err fault }
{
    match value_of(matches, id) {
        Some(text) if text.is_empty() => Err(Unread::Wrong(WordsFault::Place)),
        Some(text) => Ok(Some(Place::of(alloc, text)?)),
        None => Ok(None),
    }
}

/// A path that must stand for this word, copied.
pub(crate) fn path_for(
    alloc: Global,
    matches: &ArgMatches<'_>,
    id: &str,
) -> Result<FilePath, Unread>
    ensures path { IfOk result (λ path. must_be MissingWord Some (value_of id.now (rows_in matches.now)) ≡ Ok path) }
    ensures wrong { (fault : WordsFault) → result ≡ Err (Wrong fault) → must_be MissingWord Some (value_of id.now (rows_in matches.now)) ≡ Err fault }
{
    match value_of(matches, id) {
        Some(text) => Ok(FilePath::of(alloc, text)?),
        None => Err(Unread::Wrong(WordsFault::MissingWord)),
    }
}

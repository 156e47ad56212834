//! Words that are misspelt, and the names that are near them.
ghost use Rattle.std.specs.Prelude.{◌≡◌, ◌<◌, ◌≤◌, All, IfOk, IfSome, IsNone};
ghost use Rattle.cli_parts.specs.Near.{edits, IsNearest};

use crate::arguments::Arguments;
use std::alloc::{AllocError, Global};
use strsim::levenshtein;

/// By how many edits a word may be another than the name that it is taken for.
const NEAR: usize = 2;

// The commands, and the options of each. The last two of these stand without a command too.
const COMMANDS: [&str; 10] = [
    "format", "replay", "list", "drain", "serve", "load", "move", "skip", "check", "rescue",
];

const NO_COMMAND: [&str; 2] = ["--help", "--version"];

const OTHERS: [&str; 5] = ["--quiet", "--verbose", "--log-time", "--help", "--version"];

const LIST: [&str; 6] = [
    "--as",
    "--quiet",
    "--verbose",
    "--log-time",
    "--help",
    "--version",
];

const REPLAY: [&str; 7] = [
    "--token",
    "--ack-token",
    "--quiet",
    "--verbose",
    "--log-time",
    "--help",
    "--version",
];

const DRAIN: [&str; 8] = [
    "--out-token",
    "--out-channel",
    "--polls",
    "--quiet",
    "--verbose",
    "--log-time",
    "--help",
    "--version",
];

const SERVE: [&str; 24] = [
    "--relp",
    "--lumberjack",
    "--hec",
    "--status",
    "--workers",
    "--connections",
    "--talks",
    "--token",
    "--ack-token",
    "--tokens",
    "--group",
    "--forward",
    "--to",
    "--out-token",
    "--out-channel",
    "--polls",
    "--idle",
    "--memory",
    "--accept-proxy",
    "--quiet",
    "--verbose",
    "--log-time",
    "--help",
    "--version",
];

const RESCUE: [&str; 7] = [
    "--into",
    "--tag",
    "--quiet",
    "--verbose",
    "--log-time",
    "--help",
    "--version",
];

/// What a word names.
#[derive(Clone, Copy, PartialEq, Eq)]
pub(crate) enum Named {
    /// A command.
    Command,
    /// An option of a command, or one of the two that stand without a command too.
    Option,
}

/// A word that is no name, and the name that it is taken for.
#[derive(Clone, Copy)]
pub(crate) struct Misspelt<'a> {
    /// What it would name.
    pub named: Named,
    /// The word. Of an option it is the name alone, without a value.
    pub word: &'a str,
    /// The name: one that is nearest to the word, and at most two edits away.
    pub name: &'static str,
}

// The names of a command's options.
fn options_of(command: &str) -> &'static [&'static str] {
    if command == "list" {
        &LIST
    } else if command == "replay" {
        &REPLAY
    } else if command == "drain" {
        &DRAIN
    } else if command == "serve" {
        &SERVE
    } else if command == "rescue" {
        &RESCUE
    } else {
        &OTHERS
    }
}

// Whether the word is one of the names.
fn is_among(word: &str, names: &[&'static str]) -> bool {
    for name in names {
        if *name == word {
            return true;
        }
    }
    false
}

// The first of the names that are nearest to the word, unless none is near. The error says that no memory was found.
fn nearest(
    alloc: Global,
    word: &str,
    names: &[&'static str],
) -> Result<Option<&'static str>, AllocError>
    ensures some { IfOk result (λ found. IfSome found (λ name. IsNearest word.now names.now name)) }
    ensures none { IfOk result (λ found. IsNone found → All (λ name. NEAR < edits word.now name.now) names.now) }
{
    let mut found = None;
    let mut least = NEAR + 1;
    for name in names {
        let edits = levenshtein(alloc, word, name)?;
        if edits < least {
            least = edits;
            found = Some(*name);
        }
    }
    Ok(found)
}

// The word as one of the names misspelt, unless it is one of them or none is near.
fn misspelt_of<'a>(
    alloc: Global,
    named: Named,
    word: &'a str,
    names: &[&'static str],
) -> Result<Option<Misspelt<'a>>, AllocError>
    ensures nearest { IfOk result (λ found. IfSome found (λ misspelt. IsNearest word.now names.now misspelt.name)) }
    ensures word { IfOk result (λ found. IfSome found (λ misspelt. misspelt.word.now ≡ word.now)) }
    ensures near { IfOk result (λ found. IfSome found (λ misspelt. edits misspelt.word.now misspelt.name.now ≤ NEAR)) }
{
    if is_among(word, names) {
        return Ok(None);
    }
    match nearest(alloc, word, names)? {
        Some(name) => Ok(Some(Misspelt { named, word, name })),
        None => Ok(None),
    }
}

// The name of an option, without its value: a value may be secret.
fn name_of(option: &str) -> &str {
    match option.split_once('=') {
        Some((name, _)) => name,
        None => option,
    }
}

// The same of the first of a command's words that is no option of it. After `--` there is none.
fn misspelt_option<'a>(
    alloc: Global,
    words: &'a [String],
    names: &[&'static str],
) -> Result<Option<Misspelt<'a>>, AllocError>
    ensures near { IfOk result (λ found. IfSome found (λ misspelt. edits misspelt.word.now misspelt.name.now ≤ NEAR)) }
{
    for word in words {
        let name = name_of(word.as_str());
        if name == "--" {
            return Ok(None);
        }
        if name.starts_with("--") && !is_among(name, names) {
            return misspelt_of(alloc, Named::Option, name, names);
        }
    }
    Ok(None)
}

/// The first word that is no command's name, or no option's, with the name that it is taken for, where one is near. Where no command is
/// named it may be the word in FILE's place. The error says that no memory was found.
pub(crate) fn misspelt_in<'a>(
    alloc: Global,
    arguments: &'a Arguments,
) -> Result<Option<Misspelt<'a>>, AllocError>
    ensures near { IfOk result (λ found. IfSome found (λ misspelt. edits misspelt.word.now misspelt.name.now ≤ NEAR)) }
{
    match arguments.words.as_slice() {
        [] => {
            let word = arguments.file.as_str();
            if word.starts_with("--") {
                misspelt_of(alloc, Named::Option, word, &NO_COMMAND)
            } else {
                Ok(None)
            }
        }
        [command, words @ ..] => {
            let command = command.as_str();
            if command.starts_with("--") {
                misspelt_of(alloc, Named::Option, name_of(command), &NO_COMMAND)
            } else if is_among(command, &COMMANDS) {
                misspelt_option(alloc, words, options_of(command))
            } else {
                misspelt_of(alloc, Named::Command, command, &COMMANDS)
            }
        }
    }
}

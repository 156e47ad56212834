//! Words that stand where an option of a run may.
ghost use Rattle.std.specs.Prelude.{◌≡◌, ◌≢◌, MatchOption};
ghost use Rattle.cli_parts.specs.declared.run_options.Flag.{Flag};
ghost use Rattle.cli_parts.specs.RunOptions.{flag_word};
ghost use Rattle.cli_parts.specs.Piece.{IsPiece, IsPlain};

use crate::run_options::Flag;

/// What a word is that stands where an option of a run may.
#[derive(Clone, Copy)]
pub(crate) enum Piece<'a> {
    /// An option that has no value.
    Flag(Flag),
    /// The same with one.
    FlagWith(Flag),
    /// `--idle`, whose value is the next word.
    Idle,
    /// `--idle` with its value.
    IdleWith(&'a str),
    /// `--memory`, whose value is the next word.
    Memory,
    /// `--memory` with its value.
    MemoryWith(&'a str),
    /// `--accept-proxy`, whose value is the next word.
    Proxy,
    /// `--accept-proxy` with its value.
    ProxyWith(&'a str),
    /// No option of a run.
    Other,
}

// The option without a value that has this name.
fn flag_of(name: &str) -> Option<Flag>
    ensures { MatchOption result ((flag : Flag) → name.now ≢ flag_word flag) (λ flag. name.now ≡ flag_word flag) }
{
    if name == "--quiet" {
        Some(Flag::Quiet)
    } else if name == "--verbose" {
        Some(Flag::Verbose)
    } else if name == "--log-time" {
        Some(Flag::LogTime)
    } else {
        None
    }
}

/// What the word is.
pub(crate) fn piece_of(word: &str) -> Piece<'_>
    ensures { IsPiece result word.now }
{
    let Some((name, value)) = word.split_once('=') else {
        return plain_piece(word);
    };
    if name == "--idle" {
        return Piece::IdleWith(value);
    }
    if name == "--memory" {
        return Piece::MemoryWith(value);
    }
    if name == "--accept-proxy" {
        return Piece::ProxyWith(value);
    }
    match flag_of(name) {
        Some(flag) => Piece::FlagWith(flag),
        None => Piece::Other,
    }
}

// What the word is, which has no `=`.
fn plain_piece(word: &str) -> Piece<'static>
    ensures { IsPlain result word.now }
{
    if word == "--idle" {
        return Piece::Idle;
    }
    if word == "--memory" {
        return Piece::Memory;
    }
    if word == "--accept-proxy" {
        return Piece::Proxy;
    }
    match flag_of(word) {
        Some(flag) => Piece::Flag(flag),
        None => Piece::Other,
    }
}

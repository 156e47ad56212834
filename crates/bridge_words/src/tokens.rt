//! The tokens of the HTTP Event Collector, as the words of `serve` have them.
ghost use Rattle.std.specs.Prelude.{◌≡◌, ◌↔◌, Err, Ok, IfOk, IsSome, IsTrue, MatchOption, None, Some, map};
ghost use Rattle.std.specs.Str.Lines.{lines};
ghost use Rattle.words_faults.specs.declared.fault.WordsFault.{WordsFault};
ghost use Rattle.words_faults.specs.declared.fault.WordsFault.TheVariants.{Tokens};
ghost use Rattle.bridge_words.specs.declared.reading.Unread.TheVariants.{Wrong};
ghost use Rattle.bridge_words.specs.Values.{rows_in, value_of};
ghost use Rattle.bridge_words.specs.Tokens.{guid_token, listed_in, token_at, tokens_at, tokens_of};
ghost use Rattle.bridge_words.specs.Words.{AreTokens};
ghost use Rattle.bridge_words.specs.Wrong.{WrongTokens};

use crate::reading::Unread;
use crate::values::{guid, guid_for, value_of};
use clap::ArgMatches;
use hec_tokens::{ListedToken, TokenList};
use std::alloc::{AllocError, Global};
use words_faults::WordsFault;

/// At most so many tokens are listed.
const MOST_TOKENS: usize = 1000;

/// The tokens of the HTTP Event Collector.
#[derive(Drop)]
pub(crate) struct AskedTokens {
    pub(crate) token: Option<u128>,
    pub(crate) ack_token: Option<u128>,
    pub(crate) listed: TokenList,
}

// A GUID as a token, with acks or without.
fn guid_token(acks: bool, text: &str) -> Option<ListedToken>
    ensures { result ≡ guid_token acks text.now }
{
    match guid(text) {
        Some(guid) => Some(ListedToken { guid, acks }),
        None => None,
    }
}

// The token of a line: a GUID, or a GUID, a space and `ack`.
fn token_at(line: &str) -> Option<ListedToken>
    ensures { result ≡ token_at line.now }
{
    match line.strip_suffix(" ack") {
        Some(text) => guid_token(true, text),
        None => guid_token(false, line),
    }
}

/// Whether a line has a token: a GUID, or a GUID, a space and `ack`.
pub fn is_token(line: &str) -> bool
    ensures { IsTrue result ↔ IsSome (token_at line.now) }
{
    token_at(line).is_some()
}

// The lines of a text.
fn lines_of<'a>(alloc: Global, text: &'a str) -> Result<Vec<&'a str>, AllocError>
    ensures { IfOk result (λ found. map (λ line. line.now) found.items ≡ lines text.now) }
{
    text.lines().collect(alloc)
}

// The tokens of lines, if each has one.
#[tactic(auto, using(crate::proofs::Listed::stop, crate::proofs::Listed::ended))]
fn tokens_of(alloc: Global, lines: &[&str]) -> Result<Option<Vec<ListedToken>>, AllocError>
    ensures { IfOk result (λ found. MatchOption found (tokens_of (map (λ line. line.now) lines.now) ≡ None)
        (λ tokens. tokens_of (map (λ line. line.now) lines.now) ≡ Some tokens.items)) }
{
    let mut tokens = Vec::new(alloc);
    for line in lines {
        let Some(token) = token_at(line) else {
            return Ok(None);
        };
        tokens.push(token)?;
    }
    Ok(Some(tokens))
}

// The tokens of a text, if it has 1 to 1,000 lines and each has one.
#[tactic(auto, using(crate::proofs::Listed::within, crate::proofs::Listed::nothing, crate::proofs::Listed::too_many))]
fn tokens_at(alloc: Global, text: &str) -> Result<Option<Vec<ListedToken>>, AllocError>
    ensures { IfOk result (λ found. MatchOption found (tokens_at text.now ≡ None) (λ tokens. tokens_at text.now ≡ Some tokens.items)) }
{
    let lines = lines_of(alloc, text)?;
    if lines.is_empty() || lines.len() > MOST_TOKENS {
        return Ok(None);
    }
    tokens_of(alloc, &lines)
}

// The tokens of the text that is the value of `--tokens`.
fn list_at(alloc: Global, text: &str) -> Result<TokenList, Unread>
    ensures listed { IfOk result (λ listed. tokens_at text.now ≡ Some listed) }
    ensures wrong { (fault : WordsFault) → result ≡ Err (Wrong fault) → (fault ≡ Tokens) × (tokens_at text.now ≡ None) }
{
    match tokens_at(alloc, text)? {
        Some(tokens) => Ok(TokenList::of(tokens)),
        None => Err(Unread::Wrong(WordsFault::Tokens)),
    }
}

// The value of `--tokens`, beside which stands neither that of `--token` nor that of `--ack-token`.
fn listed_in(alloc: Global, matches: &ArgMatches<'_>) -> Result<TokenList, Unread>
    ensures listed { IfOk result (λ listed. listed_in (rows_in matches.now) ≡ Ok listed) }
    ensures wrong { (fault : WordsFault) → result ≡ Err (Wrong fault) → listed_in (rows_in matches.now) ≡ Err fault }
{
    let Some(text) = value_of(matches, "tokens") else {
        return Ok(TokenList::none());
    };
    match (value_of(matches, "token"), value_of(matches, "ack-token")) {
        (None, None) => list_at(alloc, text),
        (None, Some(_)) => Err(Unread::Wrong(WordsFault::BothTokens)),
        (Some(_), _) => Err(Unread::Wrong(WordsFault::BothTokens)),
    }
}

/// The tokens: those of `--token` and `--ack-token`, or those of `--tokens`.
pub(crate) fn tokens_in(alloc: Global, matches: &ArgMatches<'_>) -> Result<AskedTokens, Unread>
    ensures tokens { IfOk result (λ tokens. AreTokens tokens.token tokens.ack_token tokens.listed (rows_in matches.now)) }
    ensures wrong { (fault : WordsFault) → result ≡ Err (Wrong fault) → WrongTokens fault (rows_in matches.now) }
{
    let token = guid_for(matches, "token", WordsFault::Token)?;
    let ack_token = guid_for(matches, "ack-token", WordsFault::AckToken)?;
    let listed = listed_in(alloc, matches)?;
    Ok(AskedTokens {
        token,
        ack_token,
        listed,
    })
}

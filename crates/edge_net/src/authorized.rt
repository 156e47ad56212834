//! The token of a sender, as the heads of its requests have it.
ghost use Rattle.std.specs.Prelude.{◌≡◌, ℕ, IfOk, Some};
ghost use Rattle.edge_net.specs.Authorized.{token_of};
ghost use Rattle.edge_net.specs.declared.authorized.Authorized.TheVariants.{Unsure};

use httparse::{EMPTY_HEADER, Header, Request, Status};
use std::str;
use uuid::Uuid;

// A head of more fields isn't read.
const MOST_FIELDS: usize = 64;

// The number of the reason for which a request is refused whose token has no ack ids.
const NO_ACK_IDS: u16 = 14;

/// Which token the requests of a connection have, whose bytes were looked at as they came.
#[derive(Clone, Copy)]
pub(crate) enum Authorized {
    /// This one, by its number, or none yet; so many bytes are still to come of the body of the last one.
    By { token: Option<u128>, due: u64 },
    /// That can't be told: there were two, or a request begins where none can be seen to.
    Unsure,
}

// What a head says of its request.
#[derive(Clone, Copy)]
struct Head {
    // How many bytes it has.
    len: u64,
    token: Option<u128>,
    // How many bytes its body has.
    body: u64,
}

// A head isn't read, or says a thing twice.
#[derive(Clone, Copy)]
struct Unread;

// The value of the field of this name, if there is one. There may not be two.
fn value_of<'b>(fields: &[Header<'b>], name: &str) -> Result<Option<&'b [u8]>, Unread> {
    let mut found = None;
    for field in fields {
        if field.name.eq_ignore_ascii_case(name) {
            if found.is_some() {
                return Err(Unread);
            }
            found = Some(field.value);
        }
    }
    Ok(found)
}

// The number of the token that an Authorization has: `Splunk`, a space and a GUID.
fn token_in(value: &[u8]) -> Option<u128> {
    let (scheme, text) = str::from_utf8(value).ok()?.split_once(' ')?;
    if !scheme.eq_ignore_ascii_case("Splunk") {
        return None;
    }
    Some(Uuid::try_parse(text).ok()?.as_u128())
}

// What these fields of a head of so many bytes say. How long the body is has to be said by a length.
fn head_of(len: u64, fields: &[Header<'_>]) -> Result<Head, Unread> {
    if value_of(fields, "Transfer-Encoding")?.is_some() {
        return Err(Unread);
    }
    let token = match value_of(fields, "Authorization")? {
        Some(value) => Some(token_in(value).ok_or(Unread)?),
        None => None,
    };
    let body = match value_of(fields, "Content-Length")? {
        Some(value) => number_in(value).ok_or(Unread)?,
        None => 0,
    };
    Ok(Head { len, token, body })
}

// The number that a text writes.
fn number_in(value: &[u8]) -> Option<u64> {
    str::from_utf8(value).ok()?.parse::<u64>().ok()
}

// The head that a piece begins with, if it has the whole of one.
fn head_at(piece: &[u8]) -> Result<Head, Unread> {
    let mut fields = [EMPTY_HEADER; MOST_FIELDS];
    let mut request = Request::new(&mut fields);
    match request.parse(piece) {
        Ok(Status::Complete(len)) => head_of(len as u64, request.headers),
        _ => Err(Unread),
    }
}

// The token of requests, of which some had the first one and the last has the second.
fn joined(token: Option<u128>, other: Option<u128>) -> Result<Option<u128>, Unread>
    ensures stays { IfOk result (λ both. (known : ℕ) → token ≡ Some known → both ≡ Some known) }
    ensures counts { IfOk result (λ both. (known : ℕ) → other ≡ Some known → both ≡ Some known) }
{
    match (token, other) {
        (None, other) => Ok(other),
        (token, None) => Ok(token),
        (Some(one), Some(another)) => {
            if one == another {
                Ok(token)
            } else {
                Err(Unread)
            }
        }
    }
}

// Where a body ends of which so many bytes were to come, after a piece of so many more: how many are to come then.
fn left(due: u64, len: u64) -> Result<u64, Unread> {
    due.checked_sub(len).ok_or(Unread)
}

impl Authorized {
    /// Nothing came yet.
    pub(crate) fn new() -> Authorized {
        Authorized::By {
            token: None,
            due: 0,
        }
    }

    /// Which one it is where this piece comes next, which isn't empty. A request begins a piece and its head ends in it, or none can be
    /// told any more: that is how senders write which wait for each answer.
    pub(crate) fn after(self, piece: &[u8]) -> Authorized
        ensures unsure { self ≡ Unsure → result ≡ Unsure }
        ensures one { (known found : ℕ) → token_of self ≡ Some known → token_of result ≡ Some found → known ≡ found }
    {
        let Authorized::By { token, due } = self else {
            return Authorized::Unsure;
        };
        match next(token, due, piece) {
            Ok(next) => next,
            Err(_) => Authorized::Unsure,
        }
    }

    /// The token of a request that was refused for this reason, where that is known: one that has no ack ids.
    pub(crate) fn refused(self, reason: Option<u16>) -> Option<u128> {
        match (self, reason) {
            (Authorized::By { token, .. }, Some(NO_ACK_IDS)) => token,
            _ => None,
        }
    }
}

// The same of requests that have this token, or none yet, where so many bytes are still to come of a body.
fn next(token: Option<u128>, due: u64, piece: &[u8]) -> Result<Authorized, Unread>
    ensures stays { IfOk result (λ next. (known : ℕ) → token ≡ Some known → token_of next ≡ Some known) }
{
    let len = piece.len() as u64;
    if due > 0 {
        let due = left(due, len)?;
        return Ok(Authorized::By { token, due });
    }
    let head = head_at(piece)?;
    let token = joined(token, head.token)?;
    let due = left(head.body.saturating_add(head.len), len)?;
    Ok(Authorized::By { token, due })
}

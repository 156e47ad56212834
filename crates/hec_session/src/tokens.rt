//! The tokens of a receiver, and what a request's token grants.
ghost use Rattle.std.specs.Prelude.{◌≡◌, codes, IfOk, MatchOption};
ghost use Rattle.hec_session.specs.Acts.{Finds};
ghost use Rattle.hec_session.specs.Checks.{credentials, grant_of, granted, granted_by, guid, is_listed, is_listed_with_acks, is_token, request_of, without_field};
ghost use Rattle.hec_session.specs.Target.{parameter};

use crate::code::HecCode;
use crate::request::RequestRef;
use crate::stop::Stop;
use crate::target::parameter;
use hec_tokens::{ListedToken, TokenList};
use std::alloc::{AllocError, Global};
use uuid::Uuid;

/// The tokens of a receiver: one without acks, one that uses them, and those of a list, each without or with
/// acks.
#[derive(Drop)]
pub struct Tokens {
    pub token: Option<u128>,
    pub ack_token: Option<u128>,
    pub listed: TokenList,
}

/// What a token grants.
#[derive(Clone, Copy, PartialEq, Eq)]
pub enum Grant {
    /// Success is answered once the events are durable.
    WithoutAcks,
    /// Success is answered at once, with an id that can be asked for later.
    WithAcks,
}

/// The number of a GUID, in one of its spellings: simple, hyphenated, as an URN or in braces (RFC 9562,
/// section 4).
pub fn guid(text: &[u8]) -> Option<u128>
    ensures { result ≡ guid text.now }
{
    match Uuid::try_parse_ascii(text) {
        Ok(id) => Some(id.as_u128()),
        Err(_) => None,
    }
}

// What stands after the word Splunk and one space.
fn credentials(value: &[u8]) -> Option<&[u8]>
    ensures { MatchOption result (credentials value.now ≡ None) (λ text. credentials value.now ≡ Some text.now) }
{
    if value.len() >= 7 && value[..7].eq_ignore_ascii_case(b"Splunk ") {
        Some(&value[7..])
    } else {
        None
    }
}

// The tokens below are compared all, and each whole, whichever the GUID is, so that how long an answer takes tells nothing of them.

fn is_token(token: Option<u128>, id: u128) -> bool
    ensures { result ≡ is_token token id }
{
    match token {
        Some(token) => token == id,
        None => false,
    }
}

fn is_listed(listed: &[ListedToken], id: u128) -> bool
    ensures { result ≡ is_listed listed.now id }
{
    let mut found = false;
    for token in listed {
        found |= token.guid == id;
    }
    found
}

fn is_listed_with_acks(listed: &[ListedToken], id: u128) -> bool
    ensures { result ≡ is_listed_with_acks listed.now id }
{
    let mut found = false;
    for token in listed {
        found |= (token.guid == id) & token.acks;
    }
    found
}

// How a request without the field is answered.
fn without_field(alloc: Global, target: &[u8]) -> Result<HecCode, AllocError>
    ensures { IfOk result (λ code. code ≡ without_field (parameter (codes "token") target.now)) }
{
    match parameter(alloc, "token", target)? {
        Some(_) => Ok(HecCode::QueryAuthorization),
        None => Ok(HecCode::TokenRequired),
    }
}

impl Tokens {
    // What this GUID grants.
    fn granted(&self, id: u128) -> Result<Grant, HecCode>
        ensures { result ≡ granted self.now (Some id) }
    {
        let listed = self.listed.as_slice();
        let with_acks = is_token(self.ack_token, id) | is_listed_with_acks(listed, id);
        let without_acks = is_token(self.token, id) | is_listed(listed, id);
        if with_acks {
            Ok(Grant::WithAcks)
        } else if without_acks {
            Ok(Grant::WithoutAcks)
        } else {
            Err(HecCode::InvalidToken)
        }
    }

    // What the field grants.
    fn granted_by(&self, value: &[u8]) -> Result<Grant, HecCode>
        ensures { result ≡ granted_by self.now (credentials value.now) }
    {
        let Some(text) = credentials(value) else {
            return Err(HecCode::InvalidAuthorization);
        };
        match guid(text) {
            Some(id) => self.granted(id),
            None => Err(HecCode::InvalidToken),
        }
    }

    /// What the request is granted by its Authorization (RFC 9110, section 11.6.2).
    pub fn grant(&self, alloc: Global, request: &RequestRef<'_>) -> Result<Grant, Stop>
        ensures { Finds (grant_of self.now (request_of request.now)) result }
    {
        match request.fields.value(b"authorization") {
            Some(value) => Ok(self.granted_by(value)?),
            None => Err(Stop::Answer(without_field(alloc, request.target)?)),
        }
    }
}

//! What is to be done with a request's body.
ghost use Rattle.std.specs.Prelude.{◌≡◌, codes};
ghost use Rattle.http_edge.specs.Fields.{field_value};
ghost use Rattle.hec_session.specs.Acts.{Finds};
ghost use Rattle.hec_session.specs.Target.{parameter};
ghost use Rattle.hec_session.specs.Checks.{channel_in, channel_of, endpoint_of, guid, is_plain, known_channel, request_of, task_for, task_of};

use crate::code::HecCode;
use crate::endpoint::{Endpoint, Form, endpoint_at};
use crate::request::RequestRef;
use crate::stop::Stop;
use crate::target::{parameter, path_of};
use crate::tokens::{Grant, Tokens, guid};
use std::alloc::Global;

/// What is to be done with a request's body.
#[derive(Clone, Copy, PartialEq, Eq)]
pub enum Task {
    /// Its events are stored, and then Success is answered.
    Store(Form),
    /// Its events are stored under an id of this channel.
    StoreOn(Form, u128),
    /// It asks for ids of this channel.
    AskOn(u128),
}

fn known_channel(text: &[u8]) -> Result<u128, HecCode>
    ensures { result ≡ known_channel (guid text.now) }
{
    match guid(text) {
        Some(channel) => Ok(channel),
        None => Err(HecCode::InvalidChannel),
    }
}

// The channel of the query.
fn queried_channel(alloc: Global, target: &[u8]) -> Result<u128, Stop>
    ensures { Finds (channel_in (parameter (codes "channel") target.now)) result }
{
    match parameter(alloc, "channel", target)? {
        Some(text) => Ok(known_channel(text.as_bytes())?),
        None => Err(Stop::Answer(HecCode::ChannelMissing)),
    }
}

// The channel of the field, or else of the query.
fn channel_of(alloc: Global, request: &RequestRef<'_>) -> Result<u128, Stop>
    ensures { Finds (channel_of (request_of request.now)) result }
{
    match request.fields.value(b"x-splunk-request-channel") {
        Some(text) => Ok(known_channel(text)?),
        None => queried_channel(alloc, request.target),
    }
}

fn task_for(
    alloc: Global,
    request: &RequestRef<'_>,
    endpoint: Endpoint,
    grant: Grant,
) -> Result<Task, Stop>
    ensures { Finds (task_for (request_of request.now) endpoint grant) result }
{
    match (endpoint, grant) {
        (Endpoint::Events(form), Grant::WithoutAcks) => Ok(Task::Store(form)),
        (Endpoint::Acks, Grant::WithoutAcks) => Err(Stop::Answer(HecCode::AckDisabled)),
        (Endpoint::Events(form), Grant::WithAcks) => {
            Ok(Task::StoreOn(form, channel_of(alloc, request)?))
        }
        (Endpoint::Acks, Grant::WithAcks) => Ok(Task::AskOn(channel_of(alloc, request)?)),
    }
}

// Whether the body is coded as it stands (RFC 9110, section 8.4).
fn is_plain(request: &RequestRef<'_>) -> bool
    ensures { result ≡ is_plain (field_value (codes "content-encoding") request.now.fields.now) }
{
    match request.fields.value(b"content-encoding") {
        Some(coding) => coding.eq_ignore_ascii_case(b"identity"),
        None => true,
    }
}

// The endpoint that the request is for.
fn endpoint_of(request: &RequestRef<'_>) -> Result<Endpoint, HecCode>
    ensures { result ≡ endpoint_of (request_of request.now) }
{
    endpoint_at(request.method, path_of(request.target))
}

/// What is to be done with the request's body, or the answer of the first check that doesn't pass: of the
/// path and the method, of the authorization, of the channel, and of the body's coding.
pub fn task_of(alloc: Global, tokens: &Tokens, request: &RequestRef<'_>) -> Result<Task, Stop>
    ensures { Finds (task_of tokens.now (request_of request.now)) result }
{
    let endpoint = endpoint_of(request)?;
    let grant = tokens.grant(alloc, request)?;
    let task = task_for(alloc, request, endpoint, grant)?;
    if !is_plain(request) {
        return Err(Stop::Answer(HecCode::InvalidFormat));
    }
    Ok(task)
}

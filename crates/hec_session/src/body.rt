//! What is done for a request's body.
ghost use Rattle.std.specs.Prelude.{◌≡◌, ◌≤◌, length, map, IfOk, IfErr, MatchResult};
ghost use Rattle.hec_body.specs.Limits as limits;
ghost use Rattle.body_faults.specs.declared.fault.BodyFault.TheVariants.{NoMemory};
ghost use Rattle.hec_session.specs.Codes.{IsReply};
ghost use Rattle.hec_session.specs.Acts.{AreEventsOf, AreWithinLimits, AsksOn, IsCutBy, IsSound, Stores, StoresOn, Tells, count_of, event_of, origin_of};

use crate::act::HecAct;
use crate::code::HecCode;
use crate::endpoint::Form;
use crate::say::HecSay;
use event_form::{Blob, Event, Origin};
use hec_body::{AckFault, BodyFault, ack_ids, event_pieces, raw_lines};
use std::alloc::{AllocError, Global};

// The number that is reported for a body with too many events.
const MOST_EVENTS: u32 = 10_000;

// The texts of a body's events.
fn texts_of(alloc: Global, form: Form, body: &[u8]) -> Result<Vec<Blob>, BodyFault>
    ensures texts { IfOk result (λ texts. IsCutBy form body.now (Ok texts.items)) }
    ensures limits { IfOk result (λ texts. limits.AreWithinLimits texts.items) }
    ensures bounded { IfOk result (λ texts. length texts.items ≤ length body.now) }
    ensures fault { IfErr result (λ fault. IsCutBy form body.now (Err fault)) }
{
    match form {
        Form::Objects => event_pieces(alloc, body),
        Form::Raw => raw_lines(alloc, body),
    }
}

fn origin_of(form: Form) -> Origin
    ensures { result ≡ origin_of form }
{
    match form {
        Form::Objects => Origin::HecEvent,
        Form::Raw => Origin::HecRaw,
    }
}

// The events with these texts.
fn with_origin(alloc: Global, form: Form, texts: Vec<Blob>) -> Result<Vec<Event>, AllocError>
    ensures { IfOk result (λ events. events.items ≡ map (event_of form) texts.items) }
{
    let origin = origin_of(form);
    texts
        .into_iter()
        .map(|text| Event { origin, text })
        .collect(alloc)
}

// The events of a body.
fn events_of(alloc: Global, form: Form, body: &[u8]) -> Result<Vec<Event>, BodyFault>
    ensures events { IfOk result (λ events. AreEventsOf form body.now events.items) }
    ensures limits { IfOk result (λ events. AreWithinLimits events.items) }
    ensures bounded { IfOk result (λ events. length events.items ≤ length body.now) }
    ensures fault { IfErr result (λ fault. IsCutBy form body.now (Err fault)) }
{
    let texts = texts_of(alloc, form, body)?;
    Ok(with_origin(alloc, form, texts)?)
}

// How a fault is reported.
fn told(fault: BodyFault) -> Result<HecSay, AllocError>
    ensures told { MatchResult result (λ say. Tells fault say) (λ _. fault ≡ NoMemory) }
    ensures reply { IfOk result IsReply }
{
    match fault {
        BodyFault::NoData => Ok(HecSay::of(HecCode::EmptyBody, None)),
        BodyFault::Format { event } => Ok(HecSay::of(HecCode::InvalidFormat, Some(event))),
        BodyFault::NoEvent { event } => Ok(HecSay::of(HecCode::EventRequired, Some(event))),
        BodyFault::Blank { event } => Ok(HecSay::of(HecCode::EventBlank, Some(event))),
        BodyFault::TooMany => Ok(HecSay::of(HecCode::InvalidFormat, Some(MOST_EVENTS))),
        BodyFault::NoMemory => Err(AllocError),
    }
}

/// The act for a body whose events are stored before Success is answered.
pub fn store(alloc: Global, form: Form, body: &[u8]) -> Result<HecAct, AllocError>
    ensures act { IfOk result (Stores form body.now) }
    ensures sound { IfOk result IsSound }
    ensures bounded { IfOk result (λ act. count_of act ≤ length body.now) }
{
    match events_of(alloc, form, body) {
        Ok(events) => Ok(HecAct::StoreThenSay { events }),
        Err(fault) => Ok(HecAct::Say(told(fault)?)),
    }
}

/// The act for a body whose events are stored under an id of this channel.
pub fn store_on(alloc: Global, form: Form, channel: u128, body: &[u8]) -> Result<HecAct, AllocError>
    ensures act { IfOk result (StoresOn form channel body.now) }
    ensures sound { IfOk result IsSound }
    ensures bounded { IfOk result (λ act. count_of act ≤ length body.now) }
{
    match events_of(alloc, form, body) {
        Ok(events) => Ok(HecAct::SayThenStore { channel, events }),
        Err(fault) => Ok(HecAct::Say(told(fault)?)),
    }
}

/// The act for a body that asks for ids of this channel.
pub fn ask(alloc: Global, channel: u128, body: &[u8]) -> Result<HecAct, AllocError>
    ensures act { IfOk result (AsksOn channel body.now) }
    ensures sound { IfOk result IsSound }
    ensures none { IfOk result (λ act. count_of act ≡ 0) }
{
    match ack_ids(alloc, body) {
        Ok(ids) => Ok(HecAct::Ask { channel, ids }),
        Err(AckFault::Format) => Ok(HecAct::Say(HecSay::of(HecCode::InvalidFormat, None))),
        Err(AckFault::NoMemory) => Err(AllocError),
    }
}

//! The next request.
ghost use Rattle.std.specs.Prelude.{◌≡◌, ◌<◌, ◌≤◌, length, take, All, IfOk};
ghost use Rattle.event_form.specs.declared.event.Entry.{Entry};
ghost use Rattle.event_form.specs.Event.{IsEvent};
ghost use Rattle.event_map.proofs.Functions.{hec_object_of};
ghost use Rattle.hec_sender.specs.Requests.{request_size};
ghost use Rattle.hec_sender.specs.Texts.{objects_text, request_text};

use crate::limits::MOST_BODY;
use crate::terms::Terms;
use crate::text::post;
use event_form::{Blob, Entry};
use event_map::as_hec_object;
use std::alloc::{AllocError, Global};

/// A request: its text, and how many entries it has.
#[derive(Drop)]
pub(crate) struct Request {
    pub text: Blob,
    pub size: usize,
}

/// The body of a request, and how many entries it has.
#[derive(Drop)]
struct Body {
    objects: Vec<u8>,
    size: usize,
}

// The event object of an entry.
fn object(alloc: Global, entry: &Entry) -> Result<Blob, AllocError>
    requires { IsEvent entry.now.event }
    ensures { IfOk result (λ object. object ≡ hec_object_of entry.now.event) }
{
    as_hec_object(alloc, &entry.event)
}

// The body of the next request of a run: as many objects as fit, and at least one.
fn next_body(alloc: Global, run: &[Entry]) -> Result<Body, AllocError>
    requires some { 0 < length run.now }
    requires events { All (λ e. IsEvent e.event) run.now }
    ensures size { IfOk result (λ body. body.size ≡ request_size run.now) }
    ensures within { IfOk result (λ body. body.size ≤ length run.now) }
    ensures objects { IfOk result (λ body. body.objects.items ≡ objects_text (take body.size run.now)) }
{
    let mut objects = object(alloc, &run[0])?.into_vec();
    let mut size = 1;
    while size < run.len() {
        let next = object(alloc, &run[size])?;
        if objects.len().saturating_add(next.bytes().len()) > MOST_BODY {
            break;
        }
        objects.extend_from_slice(next.bytes())?;
        size += 1;
    }
    Ok(Body { objects, size })
}

/// The next request of a run: of as many entries as fit, and of at least one.
pub(crate) fn next_request(
    alloc: Global,
    terms: &Terms,
    run: &[Entry],
) -> Result<Request, AllocError>
    requires some { 0 < length run.now }
    requires events { All (λ e. IsEvent e.event) run.now }
    ensures size { IfOk result (λ request. request.size ≡ request_size run.now) }
    ensures within { IfOk result (λ request. request.size ≤ length run.now) }
    ensures text { IfOk result (λ request. request.text ≡ request_text terms.now (take request.size run.now)) }
{
    let body = next_body(alloc, run)?;
    let text = post(alloc, terms, b"/services/collector/event", &body.objects)?;
    Ok(Request {
        text,
        size: body.size,
    })
}

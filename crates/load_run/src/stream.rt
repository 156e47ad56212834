//! The stream of a load, by the protocol.
ghost use Rattle.std.specs.Prelude.{◌≡◌, ◌<◌, ◌≤◌, ◌^◌, ◌++◌, length, codes, IfOk, OnOk, string_bytes};
ghost use Rattle.event_form.specs.Event.{IsEvent};
ghost use Rattle.event_map.specs.Objects.{event_object, message_object};
ghost use Rattle.event_map.specs.Strings.{event_string};
ghost use Rattle.hec_sender.specs.Texts.{guid_text, post_head, post_text};
ghost use Rattle.load_run.specs.Events.{load_text, load_texts};
ghost use Rattle.load_run.specs.Stream.{hec_stream, lumber_stream, relp_stream, stream_of, terms, window_at};

use crate::generator::{load_text, next_number};
use edge_io::Proto;
use event_form::{Blob, Event, Origin};
use event_map::{as_hec_object, as_json_object};
use itoa::Buffer;
use lumber_frame::{window_frame, write_json};
use relp_frame::write_parts;
use std::alloc::{AllocError, Global};
use uuid::Uuid;

/// How many frames a window of Lumberjack has.
const WINDOW: u32 = 128;

/// The token of the collector's requests.
pub(crate) const TOKEN: u128 = 1;

/// The channel of the collector's requests.
pub(crate) const CHANNEL: u128 = 2;

// The stream by RELP: the frame that opens the session, a `syslog` frame for each event, and the one that closes it.
fn relp_stream(alloc: Global, number: u32, count: u32) -> Result<Vec<u8>, AllocError>
    requires few { count ≤ 100000 }
    ensures { IfOk result (λ stream. stream.items ≡ relp_stream (load_texts 0 number count)) }
{
    let mut out = Vec::new(alloc);
    write_parts(
        1,
        b"open",
        b"relp_version=0\nrelp_software=bridge,1,local\ncommands=syslog",
        &mut out,
    )?;
    let mut x = number;
    for place in 0..count {
        x = next_number(x);
        let text = load_text(alloc, place, x)?;
        write_parts(place + 2, b"syslog", text.as_bytes(), &mut out)?;
    }
    write_parts(count + 2, b"close", b"", &mut out)?;
    Ok(out)
}

// The event of this text, as a sender of lines has it.
fn event_of(text: String) -> Event
    requires { length (string_bytes text) ≤ 131072 }
    ensures limits { IsEvent result }
    ensures line { (result.origin ≡ Origin.Relp) × (result.text ≡ string_bytes text) }
{
    Event {
        origin: Origin::Relp,
        text: Blob::of(text.into_bytes()),
    }
}

// The payload of a `J` frame: the text as a message.
fn message(alloc: Global, place: u32, x: u32) -> Result<Blob, AllocError>
    ensures object { IfOk result (λ object. object ≡ message_object (load_text place x)) }
    ensures short { IfOk result (λ object. length object < 2 ^ 32) }
{
    as_json_object(alloc, &event_of(load_text(alloc, place, x)?))
}

// Begins a window where one is due, of which so many frames are to come.
fn begin_window(place: u32, more: u32, out: &mut Vec<u8>) -> Result<(), AllocError>
    ensures { OnOk result (out.new.items ≡ out.old.items ++ window_at place more) }
{
    if place % WINDOW == 0 {
        out.extend_from_slice(&window_frame(more.min(WINDOW)))?;
    }
    Ok(())
}

// The stream by Lumberjack: windows of 128 frames, of which the last may have fewer.
fn lumber_stream(alloc: Global, number: u32, count: u32) -> Result<Vec<u8>, AllocError>
    ensures { IfOk result (λ stream. stream.items ≡ lumber_stream 0 (load_texts 0 number count)) }
{
    let mut out = Vec::new(alloc);
    let mut x = number;
    for place in 0..count {
        x = next_number(x);
        begin_window(place, count - place, &mut out)?;
        let payload = message(alloc, place, x)?;
        write_json(place % WINDOW + 1, payload.bytes(), &mut out)?;
    }
    Ok(out)
}

// Appends a number as a GUID.
fn write_guid(number: u128, out: &mut Vec<u8>) -> Result<(), AllocError>
    ensures { OnOk result (out.new.items ≡ out.old.items ++ guid_text number) }
{
    let mut buffer = Uuid::encode_buffer();
    let text = Uuid::from_u128(number)
        .hyphenated()
        .encode_lower(&mut buffer);
    out.extend_from_slice(text.as_bytes())?;
    Ok(())
}

// The head of a request to a path, of a body of so many bytes (RFC 9112, sections 3, 5 and 6.2).
fn post_head(alloc: Global, path: &[u8], size: usize) -> Result<Vec<u8>, AllocError>
    ensures { IfOk result (λ head. head.items ≡ post_head terms path.now size) }
{
    let mut head = Vec::from_slice(alloc, b"POST ")?;
    head.extend_from_slice(path)?;
    head.extend_from_slice(b" HTTP/1.1")?;
    head.extend_from_slice(b"\r\n")?;
    head.extend_from_slice(b"Host: collector")?;
    head.extend_from_slice(b"\r\n")?;
    head.extend_from_slice(b"Authorization: Splunk ")?;
    write_guid(TOKEN, &mut head)?;
    head.extend_from_slice(b"\r\n")?;
    head.extend_from_slice(b"X-Splunk-Request-Channel: ")?;
    write_guid(CHANNEL, &mut head)?;
    head.extend_from_slice(b"\r\n")?;
    head.extend_from_slice(b"Content-Type: application/json")?;
    head.extend_from_slice(b"\r\n")?;
    head.extend_from_slice(b"Content-Length: ")?;
    let mut buffer = Buffer::new();
    head.extend_from_slice(buffer.format(size).as_bytes())?;
    head.extend_from_slice(b"\r\n")?;
    head.extend_from_slice(b"\r\n")?;
    Ok(head)
}

// Appends the request of one event object.
fn write_request(alloc: Global, body: &[u8], out: &mut Vec<u8>) -> Result<(), AllocError>
    ensures { OnOk result (out.new.items ≡ out.old.items ++ post_text terms (codes "/services/collector/event") body.now) }
{
    let head = post_head(alloc, b"/services/collector/event", body.len())?;
    out.extend_from_slice(&head)?;
    out.extend_from_slice(body)?;
    Ok(())
}

// The body of a request: the text as an event object.
fn event_object(alloc: Global, place: u32, x: u32) -> Result<Blob, AllocError>
    ensures { IfOk result (λ object. object ≡ event_object (event_string (load_text place x))) }
{
    as_hec_object(alloc, &event_of(load_text(alloc, place, x)?))
}

// The stream to the collector: a request for each event.
fn hec_stream(alloc: Global, number: u32, count: u32) -> Result<Vec<u8>, AllocError>
    ensures { IfOk result (λ stream. stream.items ≡ hec_stream (load_texts 0 number count)) }
{
    let mut out = Vec::new(alloc);
    let mut x = number;
    for place in 0..count {
        x = next_number(x);
        let body = event_object(alloc, place, x)?;
        write_request(alloc, body.bytes(), &mut out)?;
    }
    Ok(out)
}

/// The stream of so many events after this number, by the protocol.
pub(crate) fn stream(
    alloc: Global,
    proto: Proto,
    number: u32,
    count: u32,
) -> Result<Vec<u8>, AllocError>
    requires few { count ≤ 100000 }
    ensures { IfOk result (λ stream. stream.items ≡ stream_of proto number count) }
{
    match proto {
        Proto::Relp => relp_stream(alloc, number, count),
        Proto::Lumberjack => lumber_stream(alloc, number, count),
        Proto::Hec => hec_stream(alloc, number, count),
    }
}

//! What is written to a collector.
ghost use Rattle.std.specs.Prelude.{◌≡◌, ◌++◌, IfOk, OnOk};
ghost use Rattle.hec_sender.specs.Texts.{acks_text, guid_text, post_head, post_text, query_text};

use crate::terms::Terms;
use event_form::Blob;
use itoa::Buffer;
use std::alloc::{AllocError, Global};
use uuid::Uuid;

// Appends a number as a GUID.
fn write_guid(number: u128, out: &mut Vec<u8>) -> Result<(), AllocError>
    ensures { OnOk result (out.new.items ≡ out.old.items ++ guid_text number) }
{
    let mut buffer = Uuid::encode_buffer();
    let text = Uuid::from_u128(number)
        .hyphenated()
        .encode_lower(&mut buffer);
    out.extend_from_slice(text.as_bytes())?;
    Ok(())
}

// The head of a POST to a path, of a body of so many bytes (RFC 9112, sections 3, 5 and 6.2).
fn post_head(alloc: Global, terms: &Terms, path: &[u8], size: usize) -> Result<Vec<u8>, AllocError>
    ensures { IfOk result (λ head. head.items ≡ post_head terms.now path.now size) }
{
    let mut head = Vec::from_slice(alloc, b"POST ")?;
    head.extend_from_slice(path)?;
    head.extend_from_slice(b" HTTP/1.1")?;
    head.extend_from_slice(b"\r\n")?;
    head.extend_from_slice(b"Host: collector")?;
    head.extend_from_slice(b"\r\n")?;
    head.extend_from_slice(b"Authorization: Splunk ")?;
    write_guid(terms.token, &mut head)?;
    head.extend_from_slice(b"\r\n")?;
    head.extend_from_slice(b"X-Splunk-Request-Channel: ")?;
    write_guid(terms.channel, &mut head)?;
    head.extend_from_slice(b"\r\n")?;
    head.extend_from_slice(b"Content-Type: application/json")?;
    head.extend_from_slice(b"\r\n")?;
    head.extend_from_slice(b"Content-Length: ")?;
    let mut buffer = Buffer::new();
    head.extend_from_slice(buffer.format(size).as_bytes())?;
    head.extend_from_slice(b"\r\n")?;
    head.extend_from_slice(b"\r\n")?;
    Ok(head)
}

/// A POST of a body to a path.
pub(crate) fn post(
    alloc: Global,
    terms: &Terms,
    path: &[u8],
    body: &[u8],
) -> Result<Blob, AllocError>
    ensures { IfOk result (λ text. text ≡ post_text terms.now path.now body.now) }
{
    let mut text = post_head(alloc, terms, path, body.len())?;
    text.extend_from_slice(body)?;
    Ok(Blob::of(text))
}

// The body of a query.
fn acks(alloc: Global, id: u64) -> Result<Vec<u8>, AllocError>
    ensures { IfOk result (λ text. text.items ≡ acks_text id) }
{
    let mut buffer = Buffer::new();
    let mut text = Vec::from_slice(alloc, b"{\"acks\":[")?;
    text.extend_from_slice(buffer.format(id).as_bytes())?;
    text.extend_from_slice(b"]}")?;
    Ok(text)
}

/// The query of an acknowledgement id.
pub(crate) fn query(alloc: Global, terms: &Terms, id: u64) -> Result<Blob, AllocError>
    ensures { IfOk result (λ text. text ≡ query_text terms.now id) }
{
    let body = acks(alloc, id)?;
    post(alloc, terms, b"/services/collector/ack", &body)
}

//! The writer of replies.
ghost use Rattle.std.specs.Prelude.{◌≡◌, ◌≤◌, ◌++◌, length, string_bytes, IsTrue, IfOk, OnOk, OnErr};
ghost use Rattle.http_edge.specs.Reply.{connection, is_status, reason_of, reply_head, reply_text};

use std::alloc::{AllocError, Global};

// The reason phrase of a status.
fn reason_of(status: u16) -> &'static str
    ensures { result.now ≡ reason_of status }
{
    match status {
        200 => "OK",
        400 => "Bad Request",
        401 => "Unauthorized",
        403 => "Forbidden",
        404 => "Not Found",
        405 => "Method Not Allowed",
        500 => "Internal Server Error",
        _ => "Service Unavailable",
    }
}

// The field that ends the connection, where it is to end.
fn connection(closing: bool) -> &'static str
    ensures { result.now ≡ connection closing }
{
    if closing { "Connection: close\r\n" } else { "" }
}

// The status line, the fields, and the empty line after them.
fn reply_head(alloc: Global, status: u16, closing: bool, size: usize) -> Result<String, AllocError>
    ensures { IfOk result (λ head. string_bytes head ≡ reply_head status closing size) }
{
    let reason = reason_of(status);
    let ending = connection(closing);
    format!(in alloc;
        "HTTP/1.1 {status} {reason}\r\nContent-Type: application/json\r\nContent-Length: {size}\r\n{ending}\r\n"
    )
}

/// Appends a reply of HTTP/1.1 with this status, its reason, a JSON body of at most 1,048,576 bytes, and,
/// where `closing`, the field `Connection: close` (RFC 9112, sections 4, 6.2 and 9.6). The status is 200,
/// 400, 401, 403, 404, 405, 500 or 503. After the error `out` is as before.
pub fn write_reply(
    status: u16,
    closing: bool,
    body: &[u8],
    out: &mut Vec<u8>,
) -> Result<(), AllocError>
    requires status { IsTrue (is_status status) }
    requires body { length body.now ≤ 1048576 }
    ensures ok { OnOk result (out.new.items ≡ out.old.items ++ reply_text status closing body.now) }
    ensures err { OnErr result (out.new.items ≡ out.old.items) }
{
    let before = out.len();
    let head = reply_head(*out.allocator(), status, closing, body.len())?;
    out.extend_from_slice(head.as_bytes())?;
    if let Err(error) = out.extend_from_slice(body) {
        out.truncate(before);
        return Err(error);
    }
    Ok(())
}

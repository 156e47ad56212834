//! What somebody asks for over HTTP.

/// What a request asks for.
#[derive(Clone, Copy, PartialEq, Eq)]
pub(crate) enum Asked {
    /// `GET` or `HEAD` of `/metrics`.
    Metrics,
    /// The same of `/health`.
    Health,
    /// The same of another path.
    NoPage,
    /// Another method.
    NoMethod,
    /// It is no request of HTTP, version 1.
    NoRequest,
}

/// A request, as far as it matters.
#[derive(Clone, Copy)]
pub(crate) struct Request {
    /// What it asks for.
    pub(crate) asked: Asked,
    /// It asks for the head of the answer alone.
    pub(crate) is_head: bool,
}

// What the first line of a request asks for, by its method, its target and its version. What stands after a question mark says nothing.
fn asked_in(line: &str) -> Option<Request> {
    let (method, rest) = line.split_once(' ')?;
    let (target, version) = rest.split_once(' ')?;
    if !version.starts_with("HTTP/1.") {
        return None;
    }
    let path = match target.split_once('?') {
        Some((path, _)) => path,
        None => target,
    };
    let is_head = method == "HEAD";
    let asked = match path {
        _ if !is_head && method != "GET" => Asked::NoMethod,
        "/metrics" => Asked::Metrics,
        "/health" => Asked::Health,
        _ => Asked::NoPage,
    };
    Some(Request { asked, is_head })
}

/// What the head of a request asks for, of which so much has come. `None`: the empty line hasn't come with which it ends.
pub(crate) fn request_in(head: &[u8]) -> Option<Request> {
    if !head.windows(4).any(|four| four == b"\r\n\r\n".as_slice()) {
        return None;
    }
    let mut end = 0usize;
    for byte in head {
        if *byte == b'\r' {
            break;
        }
        end = end.saturating_add(1);
    }
    let found = match str::from_utf8(head.get(..end)?) {
        Ok(line) => asked_in(line),
        Err(_) => None,
    };
    Some(found.unwrap_or(Request {
        asked: Asked::NoRequest,
        is_head: false,
    }))
}

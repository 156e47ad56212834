//! The target of a request.
ghost use Rattle.std.specs.Prelude.{◌≡◌, ◌==◌, IfOk, position, string_bytes};
ghost use Rattle.std.specs.Option.{option_map};
ghost use Rattle.hec_session.specs.Target.{mark_of, path_of, query_of, parameter};

use form_urlencoded::parse;
use std::alloc::{AllocError, Global};

// Where the first `?` stands.
fn mark_of(target: &[u8]) -> Option<usize>
    ensures { result ≡ mark_of target.now }
{
    target.iter().position(|&byte| byte == b'?')
}

/// The path: what stands before the first `?`.
pub fn path_of(target: &[u8]) -> &[u8]
    ensures { result.now ≡ path_of target.now }
{
    match mark_of(target) {
        Some(mark) => &target[..mark],
        None => target,
    }
}

// The query: what stands after it.
fn query_of(target: &[u8]) -> &[u8]
    ensures { result.now ≡ query_of target.now }
{
    match mark_of(target) {
        Some(mark) => &target[mark + 1..],
        None => &target[target.len()..],
    }
}

/// The value of the query's first parameter with this name, decoded (URL Standard, section 5.1).
pub fn parameter(alloc: Global, name: &str, target: &[u8]) -> Result<Option<String>, AllocError>
    ensures { IfOk result (λ found. option_map string_bytes found ≡ parameter name.now target.now) }
{
    for pair in parse(alloc, query_of(target)) {
        let (key, value) = pair?;
        if key.as_str() == name {
            return Ok(Some(value.into_owned(alloc)?));
        }
    }
    Ok(None)
}

//! Where a request goes.
ghost use Rattle.std.specs.Prelude.{◌≡◌};
ghost use Rattle.hec_session.specs.Checks.{is_events_path, is_lines_path, is_acks_path, is_health_path, posted, health, endpoint_at};

use crate::code::HecCode;

/// What an event body holds.
#[derive(Clone, Copy, PartialEq, Eq)]
pub enum Form {
    /// Event objects.
    Objects,
    /// Lines.
    Raw,
}

/// What is at a path.
#[derive(Clone, Copy, PartialEq, Eq)]
pub enum Endpoint {
    /// Events are taken.
    Events(Form),
    /// Ack queries are answered.
    Acks,
}

fn is_events_path(path: &[u8]) -> bool
    ensures { result ≡ is_events_path path.now }
{
    path == b"/services/collector".as_slice()
        || path == b"/services/collector/event".as_slice()
        || path == b"/services/collector/event/1.0".as_slice()
}

fn is_lines_path(path: &[u8]) -> bool
    ensures { result ≡ is_lines_path path.now }
{
    path == b"/services/collector/raw".as_slice()
        || path == b"/services/collector/raw/1.0".as_slice()
}

fn is_acks_path(path: &[u8]) -> bool
    ensures { result ≡ is_acks_path path.now }
{
    path == b"/services/collector/ack".as_slice()
}

fn is_health_path(path: &[u8]) -> bool
    ensures { result ≡ is_health_path path.now }
{
    path == b"/services/collector/health".as_slice()
        || path == b"/services/collector/health/1.0".as_slice()
}

fn posted(method: &[u8], endpoint: Endpoint) -> Result<Endpoint, HecCode>
    ensures { result ≡ posted method.now endpoint }
{
    if method == b"POST".as_slice() {
        Ok(endpoint)
    } else {
        Err(HecCode::MethodNotAllowed)
    }
}

fn health(method: &[u8]) -> HecCode
    ensures { result ≡ health method.now }
{
    if method == b"GET".as_slice() {
        HecCode::Healthy
    } else {
        HecCode::MethodNotAllowed
    }
}

/// The endpoint at a path, for a request with this method.
pub fn endpoint_at(method: &[u8], path: &[u8]) -> Result<Endpoint, HecCode>
    ensures { result ≡ endpoint_at method.now path.now }
{
    if is_events_path(path) {
        posted(method, Endpoint::Events(Form::Objects))
    } else if is_lines_path(path) {
        posted(method, Endpoint::Events(Form::Raw))
    } else if is_acks_path(path) {
        posted(method, Endpoint::Acks)
    } else if is_health_path(path) {
        Err(health(method))
    } else {
        Err(HecCode::NotFound)
    }
}

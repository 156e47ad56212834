//! What a frame asks for.
ghost use Rattle.std.specs.Prelude.{◌≡◌, ℕ, find, codes};
ghost use Rattle.std.specs.Option.{option_map};
ghost use Rattle.relp_frame.specs.Machine.{frame};
ghost use Rattle.relp_session.specs.Request.{Asks, lines, speaks, states_version};

use relp_frame::Frame;

/// What a frame asks for.
#[derive(Clone, Copy, PartialEq, Eq)]
pub enum Request {
    /// To open the session, in the version that is spoken here.
    Open,
    /// To open it in another version.
    OpenOther,
    /// To keep an event.
    Syslog,
    /// To end the session.
    Close,
    /// Anything else.
    Other,
}

// The first line of an offer that states a version.
fn version_line(offer: &[u8]) -> Option<&[u8]>
    ensures { option_map (λ line. line.now) result ≡ find states_version (lines offer.now) }
{
    offer
        .split(|byte| *byte == b'\n')
        .find(|line| line.starts_with(b"relp_version="))
}

// Whether an offer states no version, or states 0 first.
fn speaks(offer: &[u8]) -> bool
    ensures { result ≡ speaks offer.now }
{
    match version_line(offer) {
        Some(line) => line == b"relp_version=0".as_slice(),
        None => true,
    }
}

// What an `open` with this offer asks for.
fn opening(offer: &[u8]) -> Request
    ensures { (txnr : ℕ) → Asks (frame txnr (codes "open") offer.now) result }
{
    if speaks(offer) {
        Request::Open
    } else {
        Request::OpenOther
    }
}

/// What a frame of this command and this body asks for, judged where they lie.
pub fn request_in(command: &[u8], body: &[u8]) -> Request
    ensures { (txnr : ℕ) → Asks (frame txnr command.now body.now) result }
{
    if command == b"syslog".as_slice() {
        Request::Syslog
    } else if command == b"open".as_slice() {
        opening(body)
    } else if command == b"close".as_slice() {
        Request::Close
    } else {
        Request::Other
    }
}

/// What the frame asks for.
pub fn request_of(frame: &Frame) -> Request
    ensures { Asks frame.now result }
{
    request_in(frame.command.bytes(), frame.body.bytes())
}

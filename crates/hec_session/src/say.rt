//! A reply.
ghost use Rattle.std.specs.Prelude.{◌≡◌};
ghost use Rattle.hec_session.specs.Codes.{IsReply, say_of};

use crate::code::HecCode;

/// A reply: its status (RFC 9110, section 15), the number of its code, and the number of the event at
/// fault, counted from 0, where there is one.
#[derive(Clone, Copy, PartialEq, Eq)]
pub struct HecSay {
    pub status: u16,
    pub code: u16,
    pub event: Option<u32>,
}

impl HecSay {
    /// The reply with this code and its status.
    pub fn of(code: HecCode, event: Option<u32>) -> HecSay
        ensures value { result ≡ say_of code event }
        ensures reply { IsReply result }
    {
        HecSay {
            status: code.status(),
            code: code.number(),
            event,
        }
    }
}

//! What a request of Splunk's HTTP Event Collector asks for: a receiver's checks of path, method, token,
//! channel and coding in their order, the events or the ack query of the body, and the bodies of the
//! replies.
//!
//! The one contract is the list of checks. Each request has one act: the answer of the first check that
//! doesn't pass, or else what its body asks for.
#![tactic(auto)]

mod act;
mod body;
mod code;
mod endpoint;
mod laws;
mod receiver;
mod reply;
mod request;
mod say;
mod stop;
mod target;
mod task;
mod tokens;

pub use act::HecAct;
pub use code::HecCode;
pub use laws::one_act;
pub use receiver::HecCore;
pub use reply::{say_body, success_body};
pub use say::HecSay;

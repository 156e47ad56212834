//! What is done for a request.
use crate::say::HecSay;
use event_form::Event;

/// What is done for a request.
#[derive(Drop)]
pub enum HecAct {
    /// The events are stored, and once they are durable `success_body` without an id is the answer.
    StoreThenSay { events: Vec<Event> },
    /// An id is issued on the channel, `success_body` with it is the answer, and then the events are
    /// stored. Once they are durable the id is known.
    SayThenStore { channel: u128, events: Vec<Event> },
    /// The answer says of each of these ids, which are distinct, whether it is known on the channel.
    Ask { channel: u128, ids: Vec<u64> },
    /// `say_body` is the answer.
    Say(HecSay),
}

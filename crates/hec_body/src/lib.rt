//! Bodies of requests of Splunk's HTTP Event Collector, cut: event bodies into the texts of their event
//! objects, raw bodies into lines, and ack queries into the ids that they ask for. Event objects are JSON
//! as RFC 8259 has it; ack queries are read by `serde_json`.
//!
//! The contract: a body has one cut, by definitions on whole byte lists. What comes back is that cut, or
//! its first fault with the number of the event, or no memory was found.
#![tactic(auto)]

mod acks;
mod answers;
mod events;
mod laws;
mod limits;
mod lines;
mod objects;

pub use acks::ack_ids;
pub use answers::ack_text;
pub use body_faults::{AckFault, BodyFault};
pub use events::event_pieces;
pub use laws::{one_cut, one_line_cut, one_query};
pub use lines::raw_lines;

//! Events as their receivers take them: as a text, which a RELP message carries, as a JSON object, which a
//! Lumberjack payload is, and as an event object of Splunk's HTTP Event Collector. JSON is as RFC 8259 has
//! it, with no white space added; its strings are written by `serde_json`, and what isn't UTF-8 in a text is
//! read as U+FFFD, as `String::from_utf8_lossy` reads it.
//!
//! The contract: by its origin and its text an event has one text, one JSON object and one event object, and
//! each call gives exactly those bytes, or finds no memory.
#![tactic(auto)]

mod laws;
mod maps;
mod objects;
mod pairs;
mod strings;

pub use laws::{some_hec, some_json, some_text};
pub use maps::{as_hec_object, as_json_object, as_text};

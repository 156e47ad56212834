//! A query of an acknowledgement id.

/// A query of an acknowledgement id (Splunk's endpoint `services/collector/ack`).
#[derive(Clone, Copy)]
pub(crate) struct Query {
    /// The id.
    pub id: u64,
    /// How often it is asked, counted from 1.
    pub times: u32,
}

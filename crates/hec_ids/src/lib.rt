//! The acknowledgement ids of the HTTP Event Collector, as Splunk's manual has them under "HTTP Event
//! Collector indexer acknowledgment": each channel holds ids, each settled or not, and a settled one is
//! reported once. How ids are numbered, and how many are held, is this project's own. The one contract is that
//! of `Ids`: each call answers from a plain list of the ids held, and changes it as its definition says.
#![tactic(auto)]

mod counts;
mod entries;
mod fault;
mod ids;
mod issued;
mod laws;

pub use fault::IssueFault;
pub use ids::Ids;
pub use laws::{
    calls_keep_sound, gone_stays_gone, issued_is_new, opened_is_sound, settled_by_settle,
    told_is_gone,
};

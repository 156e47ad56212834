//! bridge: takes log events by RELP, by Lumberjack and by Splunk's HTTP Event Collector, keeps them in a spool on a device of a fixed
//! length, and forwards them. The one contract is that of [`bridge`], the top call: what it makes, lists, stores, answers and sends
//! for its words. [`bridge_once`] does the same of all words but those of `serve`, and returns.
#![tactic(auto)]

mod asked;
mod doing;
mod ended;
mod once;
mod top;

pub use ended::Ended;
pub use once::bridge_once;
pub use top::bridge;

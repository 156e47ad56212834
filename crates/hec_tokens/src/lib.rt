//! A list of the tokens of a receiver of Splunk's HTTP Event Collector: each is the number of a GUID, without
//! or with acks. The list stays in memory as long as the program runs, so that each connection holds it
//! without a copy. Contracts see it as a list.
#![tactic(auto)]

mod list;

pub use list::{ListedToken, TokenList};

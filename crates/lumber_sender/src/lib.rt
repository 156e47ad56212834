//! Sends entries to a receiver of Lumberjack, version 2, as Elastic's protocol document of the Beats input
//! has it, with JSON data frames: windows of at most 128 entries, each of which begins once the last frame of
//! the one before is acknowledged.
//!
//! The one contract is the text: whatever the receiver sends, what was written is the text of the entries given
//! and of the receiver's frames taken, and what is reported as acknowledged is what those frames acknowledge.
#![tactic(auto)]

mod due;
mod hearing;
mod limits;
mod sender;
mod text;

pub use limits::WINDOW;
pub use sender::LumberSender;

//! The head that a proxy puts before the first byte of a connection, as HAProxy's specification of the PROXY protocol has it, versions 1
//! and 2: a line of text, `PROXY TCP4 SOURCE DESTINATION PORT PORT CRLF`, or a signature of 12 bytes, four more and a block.
//!
//! The one contract is that of [`read`]: the bytes that came so far begin with a head, which tells the sender's address or none, or more
//! bytes could make them one, or no bytes can, or they begin with a line that tells nothing. What is read once stays so, whatever follows
//! and however the bytes were cut, and no more than the first [`MOST_HEAD`] bytes are looked at.
#![tactic(auto)]

mod block;
mod fault;
mod head;
mod laws;
mod limits;
mod line;
mod reader;
mod words;

pub use fault::{HeadFault, HeadWhy};
pub use head::{Head, Reading, Source};
pub use laws::{looks_at_few, one_reading, stays_read};
pub use limits::{MOST_BLOCK, MOST_HEAD, MOST_LINE};
pub use reader::read;

//! Replies of HTTP/1.1 (RFC 9112), as a sender reads them of Splunk's HTTP Event Collector. A reader takes the stream
//! in pieces, cut anywhere, and gives its replies one by one, with bodies by length or in chunks. Interim replies,
//! of 100 to 199, are passed over.
//!
//! The one contract is the grammar's. Whatever the pieces, the replies taken, the place of the unfinished reply and
//! the fault are those of the bytes joined. How a body is framed and read is http_edge's.
#![tactic(auto)]

mod body;
mod head;
mod laws;
mod left;
mod look;
mod next;
mod part;
mod reader;
mod reply;
mod scan;
mod size;

pub use laws::{one_reading, some_reading};
pub use reader::ReplyReader;
pub use reply::HttpReply;

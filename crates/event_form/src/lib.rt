//! Events as every layer passes them on, and their bytes in the spool: an entry's text is a head of
//! 29 bytes (origin, connection, index, unit, length of the text, all in network order) and the
//! event's text. What is written for an entry is read again as that entry, whatever follows it.
#![tactic(auto)]

mod blob;
mod event;
mod feed_fault;
mod law;
mod limits;
mod pairs;
mod peek;
mod reading;
mod talk;
mod turn;
mod writing;

pub use blob::Blob;
pub use event::{Entry, Event, Origin};
pub use feed_fault::FeedFault;
pub use law::one_reading;
pub use limits::{HEAD_BYTES, MOST_PAIRS, MOST_TEXT};
pub use pairs::first_pair;
pub use peek::{entry_length, peek_entry};
pub use reading::{EntryFault, Took, read_entry};
pub use talk::{Attended, Talk, Why};
pub use turn::Turn;
pub use writing::{entry_head, entry_size, write_entry};

//! What a receiver of RELP does for each frame, by the sections COMMAND SEMANTICS and OFFERS of
//! rsyslog's RELP specification, in version 0: it answers `open` with what it offers, hands out the
//! event of each `syslog` and has its answer ready for when the event is durable, answers `close`
//! with the hint that the connection ends, and refuses everything else. After a `close` it does
//! nothing more.
//!
//! The one contract is the table of states. Over any list of frames each act is the table's row for
//! its frame, by how far the frames before it have brought the session.
#![tactic(auto)]

mod act;
mod laws;
mod receiver;
mod reply;
mod request;
mod rows;
mod state;

pub use act::{RelpAct, RelpActRef};
pub use laws::{
    acts_by_frames, ends_at_close, ends_when_closed, one_answer, opened_by_one, state_on,
};
pub use receiver::RelpCore;
pub use reply::{closing_hint, stored_reply, write_answer, write_hint};

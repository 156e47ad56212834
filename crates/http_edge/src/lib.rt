//! Requests of HTTP/1.1 (RFC 9112), as Splunk's HTTP Event Collector takes them, and the replies to them.
//! A window takes the stream in pieces, cut anywhere, and lends its requests one by one, with bodies by length
//! or in chunks; a writer appends replies.
//!
//! The one contract is the grammar's. Whatever the pieces, the requests taken, the place of the unfinished
//! request and the fault are those of the bytes joined.
//!
//! A body that nobody wants needn't be kept: an unfinished request can leave the window ([`HttpWindow::leave`]), and
//! is then read past ([`PastBody`]). Its bytes are judged as they were, and what comes after it goes to the window again.
//!
//! The windows over RELP and Lumberjack keep the bytes of the frames that wait, by stream_grammar, and find a
//! frame's parts in them again when they lend it. This one can't: chunks are joined as they come, so the bytes
//! of a request that waits are gone, and a head is too dear to parse twice. So it has a machine and a model of
//! its own, over the parts of requests: what waits are items, and what is unfinished is a head, a stage of its
//! body, and the bytes that aren't read yet.
#![tactic(auto)]

mod chunk;
mod copy;
mod cut;
mod fault;
mod field;
pub mod gather;
mod head;
mod held;
mod item;
mod laws;
mod leaving;
mod left;
mod length;
mod limits;
mod line_part;
mod lines;
mod look;
mod next;
mod part;
mod past;
mod past_body;
mod reply;
mod request;
mod scan;
mod stage;
mod step;
mod taking;
mod text;
mod waiting;
mod why;
mod window;

pub use copy::{copy_fields, front, join};
pub use fault::{HttpFault, HttpWhy};
pub use field::{Field, Fields, first_value};
pub use head::Head;
pub use item::ItemRef;
pub use laws::{
    both_readings, fault_or_stream, faults_stay, fronts_are_open, one_fault, one_reading,
    open_bodies, places_are_open, requests_once, some_body, some_reading, whole_bodies,
};
pub use length::{Size, body_size};
pub use limits::{MOST_BODY, MOST_FIELDS, MOST_HEAD, MOST_LINE, ROOM};
pub use line_part::{LinePart, LinesPart, NO_LINES, after_line};
pub use lines::{AT_START, LastLine, Lines, too_many_lines};
pub use look::first_stage;
pub use next::place;
pub use past::Way;
pub use past_body::PastBody;
pub use reply::write_reply;
pub use request::{HttpItem, HttpRequest};
pub use stage::Stage;
pub use window::HttpWindow;

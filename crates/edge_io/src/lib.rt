//! Bytes in, bytes out, and counts of faults: the objects by which a connection reads and writes, and
//! those that make connections. A `Source` gives bytes and a `Sink` takes them, a `Link` does both, a `Door`
//! accepts links, and a `Net` binds doors and dials links. A `Monitor` is asked for a spool's numbers, and tells
//! them. Each tells what became of them, where it can, and answers a fault only where its count of faults rose.
//! There are memory forms of all, which tell all and fail at the calls that they were given, an adapter over
//! std's readers and writers, and `write_whole`, which says how much of a piece was taken whatever comes. Sockets
//! are the crate above.
#![tactic(auto)]

mod both;
mod door;
mod file_io;
mod held_up;
mod lent;
mod link;
mod mem_door;
mod mem_link;
mod mem_monitor;
mod mem_net;
mod mem_place;
mod mem_script;
mod mem_sink;
mod mem_source;
mod monitor;
mod net;
mod net_fault;
mod object;
mod pause;
mod proto;
mod script;
mod sink;
mod source;
mod whole;

pub use both::Both;
pub use door::{AcceptFault, Door};
pub use file_io::FileIo;
pub use held_up::HeldUp;
pub use link::Link;
pub use mem_door::{Finished, MemDoor};
pub use mem_link::MemLink;
pub use mem_monitor::MemMonitor;
pub use mem_net::{BoundDoors, Hung, MemNet};
pub use mem_place::MemPlace;
pub use mem_script::MemScript;
pub use mem_sink::MemSink;
pub use mem_source::MemSource;
pub use monitor::{EventCounts, Monitor, SpoolNumbers};
pub use net::Net;
pub use net_fault::NetFault;
pub use object::Object;
pub use pause::Pause;
pub use proto::Proto;
pub use sink::{Sink, WriteFault};
pub use source::{ReadFault, Source};
pub use whole::{Stopped, write_whole};

//! The sending side of a server, its forwarder: it sends what the shared desk holds on to one place, in order, while others store
//! there.
//!
//! [`look`] asks the desk whether an entry is pending, that is one that isn't known as confirmed. Where one is, it dials the place,
//! holds one session over the link, and hangs it up; where a session that offered one entry alone did not end as `Drained`, the net is
//! told of it. [`forward_beside`] looks again and again until a flag is set. `IsLook` says what was done: each call of the forwarder on the
//! desk, and each link that the net reports, is that of a look, in order. `AreInTurn` says what each look offers the peer: all that is
//! pending, or the first entry alone, where a session before that began with it failed.
#![tactic(auto)]

mod beside;
mod destination;
mod held;
mod laws;
mod looking;

pub use beside::forward_beside;
pub use destination::Destination;
pub use laws::{
    closed_links_are_read_out, looks_are_of_their_calls, looks_bind_none, looks_keep_counts,
    looks_tell_their_sessions,
};
pub use looking::{Looked, Outcome, look};

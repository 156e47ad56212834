//! The desk that threads share: one spool and one table of acknowledgement ids, many callers, and one
//! history of all their calls.
//!
//! [`Unnamed::new`] takes a desk, and [`Unnamed::named`] gives it back as [`Shared`] with a [`Pass`] for each
//! caller. A pass is four bytes, its number: to a contract it is what its caller knows, above all the journal
//! that it has seen and its own calls. Each call under the lock says by `Calls` what the pass knows after
//! it: the journal begins with what the pass had seen, and ends with the call's own record, but for takes that were
//! made with it. By `IsReal` it says that a desk stood where this journal led, so that a caller who shows a journal
//! can't have made it up.
//!
//! Where the desk was opened with `group`, what several callers hand in is stored as one group, for one pair of syncs: each leaves a
//! letter in a hall, and one of them leads, which stores what lies there and puts the answers. By [`Shared::hand_in`] and
//! [`Shared::collect`] a caller does so in two steps; between them its pass is [`Away`].
//!
//! By [`Shared::level`] whoever holds the desk reads where its spool stands, as [`Level`], without waiting for the disk. It needs no pass,
//! and the journal has no record of it.
//!
//! [`Shared::close`] gives the desk back as one lawful journal left it, of which all that the passes have seen are
//! beginnings. [`Seated`] is a pass at its desk, as a caller of [`desk_access::Access`].
//!
//! The journal stands in the proofs alone, as the rule of a table of seats (`atomic_table`): the seat under
//! the lock has the journal, and a pass comes under the lock for the time of a call.
#![tactic(auto)]

mod answering;
mod away;
mod calling;
mod copies;
mod going;
mod hall;
mod joining;
mod joint;
mod journal;
mod laws;
mod letter;
mod level;
mod naming;
mod pass;
mod rule;
mod seated;
mod shared;
mod steps;
mod tally;
mod turn;
mod twin;
mod unnamed;
mod view;

pub use away::Away;
pub use laws::ids_of_runs_differ;
pub use level::Level;
pub use naming::Naming;
pub use pass::Pass;
pub use seated::Seated;
pub use shared::Shared;
pub use tally::StoredCounts;
pub use unnamed::{NoShare, Opened, Unnamed};

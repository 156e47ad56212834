//! A run of the server over one desk. Workers at their doors store what comes in, and a forwarder beside them sends it on. Once the
//! workers have ended, what is left is forwarded once more.
//!
//! [`run`] does all of it. Its contract, `HasRun`, says what each worker's pass and the forwarder's did: the calls of a worker are those
//! of the links that it served, and the forwarder's are those of its looks and their sessions. It knows the desk by the seats that
//! are taken there alone ([`desk_seats::Seat`]). Whoever opens the desk and closes it stands above. A [`Task`] may be done meanwhile, as
//! answering those who ask how the spool stands.
#![tactic(auto)]

mod beside;
mod meeting;
mod running;
mod working;

pub use running::{CrewAndLook, run};
pub use working::Task;

//! The note of a run of the server, by what its workers report and what came of the last look of its forwarder.
ghost use Rattle.std.specs.Prelude.{◌≡◌};
ghost use Rattle.std.specs.List.{list_any};
ghost use Rattle.bridge_serve.specs.Noted.{is_starved, is_refused, note_of_workers, note_of_look, note_of_run};

use bridge_parts::{first_of, net_note, pend_note, sent_note};
use notes::Note;
use serve_forwarder::Outcome;
use serve_workers::{WorkerEnd, WorkerReport};

// Whether a worker found no memory to give a link back.
fn is_starved(end: WorkerEnd) -> bool
    ensures { result ≡ is_starved end }
{
    match end {
        WorkerEnd::NoMemory => true,
        WorkerEnd::Shut | WorkerEnd::Enough | WorkerEnd::AcceptFault => false,
    }
}

// Whether an accept of a worker failed.
fn is_refused(end: WorkerEnd) -> bool
    ensures { result ≡ is_refused end }
{
    match end {
        WorkerEnd::AcceptFault => true,
        WorkerEnd::Shut | WorkerEnd::Enough | WorkerEnd::NoMemory => false,
    }
}

// Whether one of the workers found no memory to give a link back.
fn some_starved(reports: &[WorkerReport]) -> bool
    ensures { result ≡ list_any (λ (report : _). is_starved report.end) reports.now }
{
    reports.iter().any(|report| is_starved(report.end))
}

// Whether an accept of one of the workers failed.
fn some_refused(reports: &[WorkerReport]) -> bool
    ensures { result ≡ list_any (λ (report : _). is_refused report.end) reports.now }
{
    reports.iter().any(|report| is_refused(report.end))
}

// The note of the workers: want of memory in one of them, or else an accept of one that failed, or else that all is well.
fn workers_note(reports: &[WorkerReport]) -> Note
    ensures { result ≡ note_of_workers reports.now }
{
    if some_starved(reports) {
        Note::NoMemory
    } else if some_refused(reports) {
        Note::NetFault
    } else {
        Note::Fine
    }
}

// The note of the last look: why the desk was not read, why the place was not dialed, or how the session ended. All is well where
// nothing was pending, or where there is no place to forward to.
fn look_note(last: Option<Outcome>) -> Note
    ensures { result ≡ note_of_look last }
{
    match last {
        None | Some(Outcome::Idle) => Note::Fine,
        Some(Outcome::Unread(fault)) => pend_note(fault),
        Some(Outcome::Undialed(fault)) => net_note(fault),
        Some(Outcome::Held(sent)) => sent_note(sent),
    }
}

/// The note of a run before its line is printed: that of the workers, or where that is `Fine` that of the last look, which is `None`
/// where there is no place to forward to. How single connections ended doesn't change it.
pub(crate) fn run_note(reports: &[WorkerReport], last: Option<Outcome>) -> Note
    ensures { result ≡ note_of_run reports.now last }
{
    first_of(workers_note(reports), look_note(last))
}

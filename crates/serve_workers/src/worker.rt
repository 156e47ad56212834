//! A worker at its door.
ghost use Rattle.std.specs.Prelude.{◌≡◌, ◌+◌, ◌<◌, ◌≤◌, ℕ, List, [], Some, OnOk, IfErr};
ghost use Rattle.conn_serve.specs.Serves.{CarriedBy};
ghost use Rattle.conn_serve.specs.Says.{HasCarried, MaySay};
ghost use Rattle.desk_access.specs.Division.{each_of, first_conn};
ghost use Rattle.serve_workers.specs.Works.{ServesLink, Stops, Worked, posted_as, dismissed_as};
ghost use Rattle.serve_workers.specs.Crews.{IsReady};
ghost use Rattle.serve_workers.specs.Answering.{MayAnswer};

use conn_serve::{Rules, attend};
use desk_access::Access;
use desk_seats::Seat;
use edge_io::Door;
use notes::Note;
use std::alloc::Global;

/// Why a worker ended.
#[derive(Clone, Copy, PartialEq, Eq)]
pub enum WorkerEnd {
    /// Its door is shut for good, and no link waits there.
    Shut,
    /// It served as many links as it was to, and gave all of them back.
    Enough,
    /// An accept failed, which the door has counted.
    AcceptFault,
    /// No memory was found to give a link back. That link was served to its end, but its door doesn't report it, and it isn't counted
    /// as finished.
    NoMemory,
}

/// What a worker reports when it has ended.
#[derive(Clone, Copy, PartialEq, Eq)]
pub struct WorkerReport {
    /// Why it ended.
    pub end: WorkerEnd,
    /// How many links it served to their end and gave back.
    pub finished: u32,
}

/// A worker: its door, its seat at the shared desk, the rules by which it serves, and its number, which is that of its pass. Before it
/// has worked, its report means nothing.
#[derive(Drop)]
pub(crate) struct Worker<P: Door, S: Seat> {
    pub(crate) door: P,
    pub(crate) seat: S,
    pub(crate) rules: Rules,
    pub(crate) number: u32,
    pub(crate) report: WorkerReport,
}

// Accepts the next link of the door, serves it to its end as the connection of this number, and gives it back. The error says why no
// link was given back, and the worker ends so.
fn serve_next<P: Door, A: Access>(
    alloc: Global,
    door: &mut P,
    rules: &Rules,
    access: &mut A,
    conn: u64,
) -> Result<(), WorkerEnd>
    requires may { A.may_take access.old conn 0 }
    requires says { (bytes : List ℕ)
        → MaySay (A.ran access.old) (P.permits door.old 0 bytes) (Some []) (HasCarried (CarriedBy rules.now conn) bytes) }

    ensures serves { OnOk result (ServesLink rules.now conn (P.told door.old) (P.told door.new) (λ calls. A.ran access.old calls access.new)) }
    ensures stops { IfErr result (Stops rules.now conn (P.told door.old) (P.told door.new) (λ calls. A.ran access.old calls access.new)) }
    ensures stays { OnOk result ((k : ℕ) (read text : List ℕ) → P.permits door.old (k + 1) read text → P.permits door.new k read text) }
{
    let mut link = match door.accept(conn) {
        Ok(Some(link)) => link,
        Ok(None) => return Err(WorkerEnd::Shut),
        Err(_) => return Err(WorkerEnd::AcceptFault),
    };
    let attended = attend(alloc, &mut link, rules, access, conn);
    let status = Note::of_talk(attended.talk).status();
    match door.give_back(link, rules.proto, conn, status, attended.talk) {
        Ok(()) => Ok(()),
        Err(_) => Err(WorkerEnd::NoMemory),
    }
}

// Serves links of the door one after another, at most `talks` of them, as connections numbered from `first` on. It ends at the first
// link that is not accepted or not given back.
fn serve_all<P: Door, S: Seat>(
    alloc: Global,
    door: &mut P,
    rules: &Rules,
    seat: &mut S,
    first: u64,
    talks: u32,
) -> WorkerReport
    requires first { first ≡ first_conn S.of_run (S.knows seat.old).number }
    requires ready { IsReady S.of_run (S.knows seat.old).number (S.knows seat.old) }
    requires talks { talks ≤ each_of S.of_run.division }
    requires says { MayAnswer S.is_real S.start S.of_run (S.knows seat.old).number
        (P.permits door.old) rules.now }

    ensures worked { Worked S.start S.of_run talks (posted_as rules.now (P.told door.old) (S.knows seat.old)) (dismissed_as (P.told door.new) (S.knows seat.new) result) }
{
    for talk in 0..talks {
        if let Err(end) = serve_next(alloc, door, rules, seat, first + u64::from(talk)) {
            return WorkerReport {
                end,
                finished: talk,
            };
        }
    }
    WorkerReport {
        end: WorkerEnd::Enough,
        finished: talks,
    }
}

impl<P: Door, S: Seat> Worker<P, S> {
    /// Serves the links of its door, one after another, and notes in its report why it ended: the door is shut for good, `talks` links
    /// were served, an accept failed, or no memory was found to give a link back.
    // It is kept out of line: each step by which the threads are made would else take as much stack as it does.
    #[inline(never)]
    pub(crate) fn work(&mut self, alloc: Global, talks: u32)
        requires ready { IsReady S.of_run self.old.number (S.knows self.old.seat) }
        requires talks { talks ≤ each_of S.of_run.division }
        requires says { MayAnswer S.is_real S.start S.of_run self.old.number
            (P.permits self.old.door) self.old.rules }

        ensures worked { Worked S.start S.of_run talks (posted_as self.old.rules (P.told self.old.door) (S.knows self.old.seat))
            (dismissed_as (P.told self.new.door) (S.knows self.new.seat) self.new.report) }
        ensures number { self.new.number ≡ self.old.number }
    {
        let first = self.seat.first_conn(self.number);
        self.report = serve_all(
            alloc,
            &mut self.door,
            &self.rules,
            &mut self.seat,
            first,
            talks,
        );
    }
}

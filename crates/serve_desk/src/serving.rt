//! Serving and forwarding over one desk, from the opened desk to the closed one.
ghost use Rattle.std.specs.Prelude.{◌≡◌, ℕ, ◌+◌, ◌<◌, ◌≤◌, slice_get, vec_len};
ghost use Rattle.desk_access.specs.Division.{callers_of, each_of};
ghost use Rattle.std.specs.Prelude.{Some, IfOk, IfErr, IfSome, option_copied};
ghost use Rattle.forward_core.specs.Exchanged.{HasExchangedAt};
ghost use Rattle.spool_turns.specs.Levels.{HasLevel};
ghost use Rattle.spool_turns.specs.Replays.{IsReal, desk_at};
ghost use Rattle.serve_workers.specs.Crews.{AreNew};
ghost use Rattle.serve_workers.specs.Answering.{MayAnswer};
ghost use Rattle.serve_forwarder.specs.Released.{MayRelease};
ghost use Rattle.serve_forwarder.specs.Reported.{MayReport};
ghost use Rattle.serve_run.specs.Running.{given_by};
ghost use Rattle.serve_desk.specs.Serving.{HasNotServed, seating_as};
ghost use Rattle.serve_desk.specs.Served.{IsServed};
ghost use Rattle.serve_desk.specs.Telling.{MayTell};

use crate::ended::{Ended, Unbegun, run_at};
use crate::reporting::Reporting;
use edge_disk::Disk;
use edge_io::{Door, Monitor, Net};
use serve_forwarder::{Destination, Outcome};
use serve_workers::{Post, WorkerReport};
use spool_desk::Desk;
use spool_turns::{Naming, Opened, Seated, Shared};
use std::alloc::Global;
use std::sync::Wait;
use std::sync::atomic::AtomicBool;
use std::thread::Threads;

/// What serving leaves.
#[derive(Drop)]
pub struct Served<P: Door, D: Disk> {
    /// The desk, as the one journal of all calls left it.
    pub desk: Desk<D>,
    /// The doors, in the order in which they were given.
    pub doors: Vec<P>,
    /// Why the worker of each door ended, and how many links it finished, in the same order.
    pub reports: Vec<WorkerReport>,
    /// What came of the last look; `None` where there is no destination.
    pub last: Option<Outcome>,
}

/// No memory was found for the workers. No link was accepted, and none was dialed.
#[derive(Drop)]
pub struct Unserved<P: Door, D: Disk> {
    /// The desk, on which no call was made.
    pub desk: Desk<D>,
    /// The doors and their rules, as they were given.
    pub posts: Vec<Post<P>>,
}

// The answering of those who ask at the monitor, where there is one.
fn reporting_to<'a, M: Monitor, D: Disk, J: Naming, R: Wait>(
    monitor: &'a mut Option<M>,
    shared: &'a Shared<D, J>,
    rt: &'a R,
    ended: &'a AtomicBool,
) -> Option<Reporting<'a, M, D, J, R>>
    requires { IfSome monitor.old (λ _. MayTell (HasLevel D.Disk J.start J.run J.seats J.began) J.run.number M.may_tell) }
    ensures { IfSome result (λ _. MayTell (HasLevel D.Disk J.start J.run J.seats J.began) J.run.number M.may_tell) }
{
    match monitor {
        Some(monitor) => Some(Reporting {
            monitor,
            shared,
            rt,
            ended,
        }),
        None => None,
    }
}

/// Serves the links of all doors and stores what they bring. Where there is a destination, a forwarder sends it on meanwhile. Once all
/// workers have ended the forwarder looks once more, at all that is left, and the desk is closed.
///
/// Each door has a worker, in a thread of its own where one can be made, that serves the door's links one after another. A worker ends
///
/// - once its door is shut for good, that is when an accept answers that no link waits there; a listening socket is never shut;
/// - once it has served `talks` links, at most as many as each worker has numbers for;
/// - at an accept that fails, which the door counts;
/// - where no memory is found to give a link back.
///
/// Its report says which of these it was, and how many links it gave back. Before the last look the forwarder is shown all that the
/// workers did; `last` says what came of that look.
///
/// Where there is a monitor, those who ask there are told the spool's numbers (`numbers_of`) until the workers have ended, in a thread
/// of its own; where none can be made, nobody is answered. The numbers are those of the spool after its last call, as memory has them.
/// Whoever asks has nothing stored and nothing marked: no call is made on the desk. Nor is the disk waited for, which others may be
/// waiting for meanwhile. Once the workers have ended nobody is answered any more; the monitor is let go as this returns.
///
/// `opened` has one pass for each worker, in the order of the doors, of which there are at most as many as the run's numbers are divided
/// among, and after them one for the forwarder. None of them has made a call. `polls` of the destination is above 0. The error is want of
/// memory before a worker began: it gives back the posts as they were and the desk, on which no call was made.
///
/// `says` is all the leave that it has to write to a sender: each door permits, link by link, what may be said once it is stored
/// (`MayAnswer`). It dials the destination's place and no other, by `named`. And `earned` is all the leave that it has to make numbers
/// known as confirmed: a number may become known once the peer at that place has acknowledged its entry (`MayRelease`). By `tells`, what
/// is told to those who ask are the numbers of this run, of a spool to which a journal of calls led that was really made (`MayTell`).
pub fn serve<
    P: Door + Drop + Send,
    D: Disk + Drop + Send,
    N: Net + Send,
    J: Naming + Send + Sync,
    R: Threads + Wait + Sync,
>(
    rt: &R,
    alloc: Global,
    opened: Opened<D, J>,
    posts: Vec<Post<P>>,
    talks: u32,
    destination: Option<&Destination>,
    net: &mut N,
    monitor: Option<N::M>,
) -> Result<Served<P, D>, Unserved<P, D>>
where
    P::L: Send,
    N::L: Send,
    N::P: Send,
    N::M: Send + Drop,
    <N::P as Door>::L: Send,
    requires many { (vec_len opened.passes ≡ vec_len posts + 1) × (vec_len posts ≤ callers_of J.run.division) × (J.seats ≡ vec_len posts + 1) }
    requires new { AreNew 0 opened.passes.items }
    requires talks { talks ≤ each_of J.run.division }
    requires says { (i : ℕ) (post : _) → slice_get posts.items i ≡ Some post
        → MayAnswer (IsReal D.Disk J.start J.run J.seats J.began) J.start J.run i (P.permits post.door) post.rules }
    requires polls { IfSome destination (λ d. 0 < d.now.outward.polls) }
    requires named { IfSome destination (λ d. N.may_dial d.now.place) }
    requires earned { IfSome destination (λ d. MayRelease (IsReal D.Disk J.start J.run J.seats J.began) J.start d.now.outward
        (HasExchangedAt N.L.same N.L.dialed N.L.given N.L.taken d.now.place) D.may_release) }
    requires reports { IfSome destination (λ d. MayReport (IsReal D.Disk J.start J.run J.seats J.began) J.start d.now.outward
        (HasExchangedAt N.L.same N.L.dialed N.L.given N.L.taken d.now.place) (N.may_report d.now.place)) }
    requires tells { IfSome monitor (λ _. MayTell (HasLevel D.Disk J.start J.run J.seats J.began) J.run.number N.M.may_tell) }

    ensures many { IfOk result (λ served. (vec_len served.doors ≡ vec_len posts) × (vec_len served.reports ≡ vec_len posts)) }
    ensures served { IfOk result (IsServed P.told J.start (seating_as J.run J.seats J.began)
        (given_by P.told talks posts.items (option_copied destination.entry) (N.told net.old)) (N.told net.new)) }
    ensures err { IfErr result (λ unserved. (unserved.posts ≡ posts) × (net.new ≡ net.old)
        × HasNotServed D.tells J.start (seating_as J.run J.seats J.began) (desk_at unserved.desk)) }
{
    let Opened { shared, passes } = opened;
    let mut passes = passes;
    let Some(pass) = passes.pop() else {
        unreachable!()
    };
    let flag = AtomicBool::new(false);
    let ended = &flag;
    let mut monitor = monitor;
    let reporting = reporting_to(&mut monitor, &shared, rt, ended);
    let seat = Seated {
        shared: &shared,
        pass,
        rt,
    };
    match run_at(
        rt,
        alloc,
        seat,
        posts,
        passes,
        talks,
        destination,
        net,
        reporting,
        ended,
    ) {
        Ok(
            Ended {
                doors,
                passes,
                reports,
                last,
            },
        ) => Ok(Served {
            desk: shared.close(passes),
            doors,
            reports,
            last,
        }),
        Err(Unbegun { posts, passes }) => Err(Unserved {
            desk: shared.close(passes),
            posts,
        }),
    }
}

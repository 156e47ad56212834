//! Workers that are hired: they have their doors and passes, and room is reserved for all that they leave.
ghost use Rattle.std.specs.Prelude.{◌≡◌, ℕ, ◌<◌, ◌≤◌, Some, map, length, All, IfOk, IfErr, vec_len, slice_get};
ghost use Rattle.std.specs.Vec.{vec_capacity};
ghost use Rattle.desk_access.specs.Division.{callers_of, each_of};
ghost use Rattle.serve_workers.specs.Works.{Worked, posted_as, dismissed_as};
ghost use Rattle.serve_workers.specs.Crews.{AreNew, Each, IsReady, IsRoom, HaveWorked, returned_as};
ghost use Rattle.serve_workers.specs.Answering.{MayAnswer};

use crate::crew::{Crew, NoCrew, Post, Room, dismissed, room_for};
use crate::worker::{Worker, WorkerEnd, WorkerReport};
use desk_seats::Seat;
use edge_io::Door;
use std::alloc::Global;
use std::marker::Model;
use std::thread::{Threads, for_each_mut};

/// Workers, each at its door with its pass, and room for what they leave. A contract sees them as a `Roster`: the rules, doors and
/// passes of all, in their order. None of them has begun.
#[derive(Drop)]
pub struct Hired<P: Door, S: Seat> {
    workers: Vec<Worker<P, S>>,
    crew: Crew<P, S>,
}

impl<P: Door, S: Seat> Model for Hired<P, S> {
    ghost use Rattle.std.specs.Prelude.{◌+◌, map, All, vec_len};
    ghost use Rattle.serve_workers.specs.Crews.{Roster, IsAtDesk, IsRoom};
    ghost use Rattle.serve_workers.specs.Answering.{MayAnswer};

    ghost Value = { Roster };

    ghost view = { λ h. record {
      rules = map (λ (worker : _). worker.rules) h.workers.items;
      doors = map (λ (worker : _). P.told worker.door) h.workers.items;
      passes = map (λ (worker : _). S.knows worker.seat) h.workers.items;
    } };

    ghost invariant = { λ h. All (λ (worker : _). IsAtDesk S.of_run worker.number (S.knows worker.seat)) h.workers.items
        × All (λ (worker : _). MayAnswer S.is_real S.start S.of_run worker.number (P.permits worker.door) worker.rules) h.workers.items
        × IsRoom (vec_len h.workers) h.crew.doors × IsRoom (vec_len h.workers + 1) h.crew.passes
        × IsRoom (vec_len h.workers) h.crew.reports };
}

// Makes the workers in the room for them: each has the post and the pass at its place, and that place as its number. None has begun.
fn placed<P: Door + Drop, S: Seat>(
    seat: &S,
    posts: Vec<Post<P>>,
    passes: Vec<S::Pass>,
    mut workers: Vec<Worker<P, S>>,
) -> Vec<Worker<P, S>>
    requires room { IsRoom (vec_len posts) workers }
    requires many { (vec_len passes ≡ vec_len posts) × (vec_len posts ≤ callers_of S.of_run.division) }
    requires new { AreNew 0 (map S.pass_knows passes.items) }
    requires says { (i : ℕ) (post : _) → slice_get posts.items i ≡ Some post
        → MayAnswer S.is_real S.start S.of_run i (P.permits post.door) post.rules }

    ensures says { All (λ (worker : _). MayAnswer S.is_real S.start S.of_run worker.number
        (P.permits worker.door) worker.rules) result.items }
    ensures ready { All (λ (worker : _). IsReady S.of_run worker.number (S.knows worker.seat)) result.items }
    ensures doors { map (λ (worker : _). worker.door) result.items ≡ map (λ (post : _). post.door) posts.items }
    ensures rules { map (λ (worker : _). worker.rules) result.items ≡ map (λ (post : _). post.rules) posts.items }
    ensures passes { map (λ (worker : _). S.knows worker.seat) result.items ≡ map S.pass_knows passes.items }
{
    let mut number = 0;
    for (post, pass) in posts.into_iter().zip(passes) {
        workers.push_reserved(Worker {
            door: post.door,
            seat: seat.beside(pass),
            rules: post.rules,
            number,
            report: WorkerReport {
                end: WorkerEnd::Enough,
                finished: 0,
            },
        });
        number += 1;
    }
    workers
}

// Has each worker serve until it ends, in a thread of its own where one can be made.
fn work_all<P: Door + Send, S: Seat + Send, R: Threads + Sync>(
    rt: &R,
    alloc: Global,
    workers: &mut [Worker<P, S>],
    talks: u32,
)
where
    P::L: Send,
    S::Pass: Send,
    requires ready { All (λ (worker : _). IsReady S.of_run worker.number (S.knows worker.seat)) workers.old }
    requires talks { talks ≤ each_of S.of_run.division }
    requires says { All (λ (worker : _). MayAnswer S.is_real S.start S.of_run worker.number
        (P.permits worker.door) worker.rules) workers.old }

    ensures worked { Each (λ (was is : _). Worked S.start S.of_run talks (posted_as was.rules (P.told was.door) (S.knows was.seat))
        (dismissed_as (P.told is.door) (S.knows is.seat) is.report)) workers.old workers.new }
    ensures numbers { Each (λ (was is : _). is.number ≡ was.number) workers.old workers.new }
{
    let threads = workers.len().max(1);
    for_each_mut(
        rt,
        workers,
        threads,
        &|_, worker: &mut Worker<P, S>|
            requires ready { IsReady S.of_run worker.now.number (S.knows worker.now.seat) × (talks ≤ each_of S.of_run.division) }
            requires says { MayAnswer S.is_real S.start S.of_run worker.now.number
                (P.permits worker.now.door) worker.now.rules }
            ensures worked { let was = worker.entry.now in let is = worker.exit.now in Worked S.start S.of_run talks
                (posted_as was.rules (P.told was.door) (S.knows was.seat)) (dismissed_as (P.told is.door) (S.knows is.seat) is.report) }
            ensures number { worker.exit.now.number ≡ worker.entry.now.number }
        { worker.work(alloc, talks) },
    );
}

/// Hires a worker for each of the posts, at most as many as the run's numbers are divided among, and seats it beside `seat`, with the
/// pass at the same place. There are as many passes as posts; they have made no call and are numbered from 0 on, and each worker has the
/// number of its pass. The
/// door of each post permits, link by link, what may be said once it is stored (`MayAnswer`).
///
/// All memory that it takes to give back doors, passes and reports is reserved here, and room for one pass more: so once workers are
/// hired, [`Hired::work`] gives all of them back. The error is want of memory, and gives back posts and passes as they were.
pub fn hire<P: Door + Drop, S: Seat>(
    alloc: Global,
    seat: &S,
    posts: Vec<Post<P>>,
    passes: Vec<S::Pass>,
) -> Result<Hired<P, S>, NoCrew<P, S>>
    requires many { (vec_len passes ≡ vec_len posts) × (vec_len posts ≤ callers_of S.of_run.division) }
    requires new { AreNew 0 (map S.pass_knows passes.items) }
    requires says { (i : ℕ) (post : _) → slice_get posts.items i ≡ Some post
        → MayAnswer S.is_real S.start S.of_run i (P.permits post.door) post.rules }

    ensures rules { IfOk result (λ hired. hired.rules ≡ map (λ (post : _). post.rules) posts.items) }
    ensures doors { IfOk result (λ hired. hired.doors ≡ map (λ (post : _). P.told post.door) posts.items) }
    ensures passes { IfOk result (λ hired. hired.passes ≡ map S.pass_knows passes.items) }
    ensures err { IfErr result (λ none. (none.posts ≡ posts) × (none.passes ≡ passes)) }
{
    let Ok(room) = room_for(alloc, posts.len()) else {
        return Err(NoCrew { posts, passes });
    };
    let Room { workers, crew } = room;
    let workers = placed(seat, posts, passes, workers);
    Ok(Hired { workers, crew })
}

impl<P: Door + Drop + Send, S: Seat + Send> Hired<P, S>
where
    P::L: Send,
    S::Pass: Send,
{
    /// Has each worker serve the links of its door, one after another, in a thread of its own where one can be made. It returns once
    /// all have ended, and hands back the doors, the passes and the reports, each in the order of the workers. `HaveWorked` says what
    /// each did. The list of passes has room for one more, as that of a forwarder. Nothing is allocated for the lists.
    ///
    /// A worker ends once its door is shut for good and no link waits there (a listening socket is never shut), once it has served
    /// `talks` links, which are at most as many as each caller has numbers, at an accept that fails, or where no memory is found to give a link back. Its report
    /// says which of these it was.
    pub fn work<R: Threads + Sync>(self, rt: &R, alloc: Global, talks: u32) -> Crew<P, S>
        requires new { AreNew 0 self.passes }
        requires talks { talks ≤ each_of S.of_run.division }

        ensures worked { HaveWorked S.start S.of_run talks self
            (returned_as (map (λ (door : _). P.told door) result.doors.items) (map S.pass_knows result.passes.items) result.reports.items) }
        ensures many { (vec_len result.doors ≡ length self.passes) × (vec_len result.passes ≡ length self.passes)
            × (vec_len result.reports ≡ length self.passes) }
        ensures room { vec_len result.passes < vec_capacity result.passes }
    {
        let Hired { mut workers, crew } = self;
        work_all(rt, alloc, &mut workers, talks);
        dismissed(workers, crew)
    }
}

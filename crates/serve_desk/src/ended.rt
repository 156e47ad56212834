//! A run at any seat, of which nothing but passes is left.
ghost use Rattle.std.specs.Prelude.{◌≡◌, ℕ, ◌+◌, ◌<◌, ◌≤◌, [], ◌∷◌, ◌++◌, map, slice_get, vec_len};
ghost use Rattle.std.specs.Prelude.{Some, IfOk, IfErr, IfSome, option_copied};
ghost use Rattle.std.specs.Vec.{vec_capacity};
ghost use Rattle.desk_access.specs.Division.{callers_of, each_of};
ghost use Rattle.forward_core.specs.Exchanged.{HasExchangedAt};
ghost use Rattle.serve_workers.specs.Crews.{AreNew};
ghost use Rattle.serve_workers.specs.Answering.{MayAnswer};
ghost use Rattle.serve_forwarder.specs.Released.{MayRelease};
ghost use Rattle.serve_forwarder.specs.Reported.{MayReport};
ghost use Rattle.serve_run.specs.Running.{HasRun, given_by, left_as};

use desk_seats::Seat;
use edge_io::{Door, Net};
use serve_forwarder::{Destination, Outcome};
use serve_run::{CrewAndLook, Task, run};
use serve_workers::{Crew, NoCrew, Post, WorkerReport};
use std::alloc::Global;
use std::sync::Wait;
use std::sync::atomic::AtomicBool;
use std::thread::Threads;

/// What a run leaves once all have given up their seats, as [`CrewAndLook`] has it.
pub(crate) struct Ended<P, Q> {
    /// The doors, in the order of the workers.
    pub(crate) doors: Vec<P>,
    /// The passes, in their order, and the forwarder's at the end.
    pub(crate) passes: Vec<Q>,
    /// Why each worker ended, and how many links it finished.
    pub(crate) reports: Vec<WorkerReport>,
    /// What came of the last look; `None` where there is no destination.
    pub(crate) last: Option<Outcome>,
}

/// No memory was found before a worker began, as [`NoCrew`] has it.
pub(crate) struct Unbegun<P: Door, Q> {
    /// The doors and their rules, as they were given.
    pub(crate) posts: Vec<Post<P>>,
    /// The passes, as they were given, and the forwarder's at the end.
    pub(crate) passes: Vec<Q>,
}

/// Does a run, by [`run`], and hands on what it leaves.
pub(crate) fn run_at<
    P: Door + Drop + Send,
    N: Net + Send,
    S: Seat + Send,
    T: Task<Output = ()> + Send + Drop,
    R: Threads + Wait + Sync,
>(
    rt: &R,
    alloc: Global,
    seat: S,
    posts: Vec<Post<P>>,
    passes: Vec<S::Pass>,
    talks: u32,
    destination: Option<&Destination>,
    net: &mut N,
    other: Option<T>,
    ended: &AtomicBool,
) -> Result<Ended<P, S::Pass>, Unbegun<P, S::Pass>>
where
    P::L: Send,
    S::Pass: Send,
    N::L: Send,
    N::P: Send,
    N::M: Send,
    <N::P as Door>::L: Send,
    requires many { (vec_len passes ≡ vec_len posts) × (vec_len posts ≤ callers_of S.of_run.division) × (S.seats ≡ vec_len posts + 1) }
    requires room { vec_len passes < vec_capacity passes }
    requires new { AreNew 0 (map S.pass_knows passes.items ++ S.knows seat ∷ []) }
    requires talks { talks ≤ each_of S.of_run.division }
    requires says { (i : ℕ) (post : _) → slice_get posts.items i ≡ Some post
        → MayAnswer S.is_real S.start S.of_run i (P.permits post.door) post.rules }
    requires polls { IfSome destination (λ d. 0 < d.now.outward.polls) }
    requires named { IfSome destination (λ d. N.may_dial d.now.place) }
    requires earned { IfSome destination (λ d. MayRelease S.is_real S.start d.now.outward
        (HasExchangedAt N.L.same N.L.dialed N.L.given N.L.taken d.now.place) S.may_release) }
    requires reports { IfSome destination (λ d. MayReport S.is_real S.start d.now.outward
        (HasExchangedAt N.L.same N.L.dialed N.L.given N.L.taken d.now.place) (N.may_report d.now.place)) }
    requires other { IfSome other T.can_run }

    ensures many { IfOk result (λ it. (vec_len it.doors ≡ vec_len posts) × (vec_len it.reports ≡ vec_len posts)) }
    ensures ran { IfOk result (λ it. HasRun S.start S.of_run
        (given_by P.told talks posts.items (option_copied destination.entry) (N.told net.old))
        (left_as (map P.told it.doors.items) it.reports.items (N.told net.new) it.last)
        (map S.pass_knows passes.items ++ S.knows seat ∷ []) (map S.pass_knows it.passes.items)) }
    ensures err { IfErr result (λ none. (none.posts ≡ posts)
        × (map S.pass_knows none.passes.items ≡ map S.pass_knows passes.items ++ S.knows seat ∷ []) × (net.new ≡ net.old)) }
{
    match run(
        rt,
        alloc,
        seat,
        posts,
        passes,
        talks,
        destination,
        net,
        other,
        ended,
    ) {
        Ok(CrewAndLook { crew, last }) => {
            let Crew {
                doors,
                passes,
                reports,
            } = crew;
            Ok(Ended {
                doors,
                passes,
                reports,
                last,
            })
        }
        Err(NoCrew { posts, passes }) => Err(Unbegun { posts, passes }),
    }
}

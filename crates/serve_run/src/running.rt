//! Serving and forwarding over one desk, from the first link to the last look.
ghost use Rattle.std.specs.Prelude.{◌≡◌, ℕ, ◌+◌, ◌<◌, ◌^◌, ◌≤◌, [], ◌∷◌, ◌++◌, length, map, slice_get, vec_len};
ghost use Rattle.desk_access.specs.Division.{callers_of, each_of};
ghost use Rattle.std.specs.Prelude.{Some, IfOk, IfErr, IfSome, option_copied};
ghost use Rattle.std.specs.Vec.{vec_capacity};
ghost use Rattle.forward_core.specs.Exchanged.{HasExchangedAt};
ghost use Rattle.serve_workers.specs.Crews.{AreNew, HaveWorked, returned_as};
ghost use Rattle.serve_workers.specs.Answering.{MayAnswer};
ghost use Rattle.serve_forwarder.specs.Released.{MayRelease};
ghost use Rattle.serve_forwarder.specs.Reported.{MayReport};
ghost use Rattle.serve_forwarder.specs.Looks.{forwarder_at};
ghost use Rattle.serve_run.specs.Running.{Forwarded, HasRun, given_by, left_by};

use crate::beside::{work_and_forward, work_with};
use crate::meeting::look_again;
use crate::working::Task;
use desk_seats::Seat;
use edge_io::{Door, Net};
use serve_forwarder::{Destination, Outcome};
use serve_workers::{Crew, Hired, NoCrew, Post, hire};
use std::alloc::Global;
use std::sync::Wait;
use std::sync::atomic::AtomicBool;
use std::thread::Threads;

/// What a run leaves.
#[derive(Drop)]
pub struct CrewAndLook<P: Door, S: Seat> {
    /// What the workers leave. Its list of passes has the forwarder's after theirs.
    pub crew: Crew<P, S>,
    /// What came of the last look; `None` where there is no destination.
    pub last: Option<Outcome>,
}

// Has the workers work and the forwarder forward beside them, and then look once more. The other task is done while the workers work. The
// forwarder's pass comes back beside that.
fn run_beside<
    P: Door + Drop + Send,
    N: Net + Send,
    S: Seat + Send,
    T: Task<Output = ()> + Send + Drop,
    R: Threads + Wait + Sync,
>(
    rt: &R,
    alloc: Global,
    talks: u32,
    destination: &Destination,
    net: &mut N,
    other: Option<T>,
    ended: &AtomicBool,
    seat: S,
    hired: Hired<P, S>,
) -> (CrewAndLook<P, S>, S::Pass)
where
    P::L: Send,
    S::Pass: Send,
    N::L: Send,
    N::P: Send,
    N::M: Send,
    <N::P as Door>::L: Send,
    requires new { AreNew 0 hired.passes }
    requires talks { talks ≤ each_of S.of_run.division }
    requires confirms { (S.knows seat).number + 1 ≡ S.seats }
    requires polls { 0 < destination.now.outward.polls }
    requires named { N.may_dial destination.now.place }
    requires earned { MayRelease S.is_real S.start destination.now.outward
        (HasExchangedAt N.L.same N.L.dialed N.L.given N.L.taken destination.now.place) S.may_release }
    requires reports { MayReport S.is_real S.start destination.now.outward
        (HasExchangedAt N.L.same N.L.dialed N.L.given N.L.taken destination.now.place) (N.may_report destination.now.place) }
    requires other { IfSome other T.can_run }

    ensures worked { let crew = result.0.crew in HaveWorked S.start S.of_run talks hired
        (returned_as (map (λ (door : _). P.told door) crew.doors.items) (map S.pass_knows crew.passes.items) crew.reports.items) }
    ensures many { (vec_len result.0.crew.doors ≡ length hired.passes) × (vec_len result.0.crew.passes ≡ length hired.passes)
        × (vec_len result.0.crew.reports ≡ length hired.passes) }
    ensures room { vec_len result.0.crew.passes < vec_capacity result.0.crew.passes }
    ensures forwarded { Forwarded S.start (Some destination.now) (map S.pass_knows result.0.crew.passes.items)
        (forwarder_at (S.knows seat) (N.told net.old)) (forwarder_at (S.pass_knows result.1) (N.told net.new)) result.0.last }
{
    let (mut seat, mut crew) = work_and_forward(
        rt,
        alloc,
        talks,
        destination,
        net,
        other,
        ended,
        seat,
        hired,
    );
    let last = look_again(alloc, destination, net, &mut seat, &mut crew.passes);
    let ran = CrewAndLook {
        crew,
        last: Some(last),
    };
    (ran, seat.into_pass())
}

// Has the workers work, forwards where there is a destination, and has the other task done where there is one. The forwarder's pass comes
// back beside what that leaves.
fn run_seated<
    P: Door + Drop + Send,
    N: Net + Send,
    S: Seat + Send,
    T: Task<Output = ()> + Send + Drop,
    R: Threads + Wait + Sync,
>(
    rt: &R,
    alloc: Global,
    talks: u32,
    destination: Option<&Destination>,
    net: &mut N,
    other: Option<T>,
    ended: &AtomicBool,
    seat: S,
    hired: Hired<P, S>,
) -> (CrewAndLook<P, S>, S::Pass)
where
    P::L: Send,
    S::Pass: Send,
    N::L: Send,
    N::P: Send,
    N::M: Send,
    <N::P as Door>::L: Send,
    requires new { AreNew 0 hired.passes }
    requires talks { talks ≤ each_of S.of_run.division }
    requires confirms { ((S.knows seat).number + 1 ≡ S.seats) × ((S.knows seat).own ≡ []) }
    requires polls { IfSome destination (λ d. 0 < d.now.outward.polls) }
    requires named { IfSome destination (λ d. N.may_dial d.now.place) }
    requires earned { IfSome destination (λ d. MayRelease S.is_real S.start d.now.outward
        (HasExchangedAt N.L.same N.L.dialed N.L.given N.L.taken d.now.place) S.may_release) }
    requires reports { IfSome destination (λ d. MayReport S.is_real S.start d.now.outward
        (HasExchangedAt N.L.same N.L.dialed N.L.given N.L.taken d.now.place) (N.may_report d.now.place)) }
    requires other { IfSome other T.can_run }

    ensures worked { let crew = result.0.crew in HaveWorked S.start S.of_run talks hired
        (returned_as (map (λ (door : _). P.told door) crew.doors.items) (map S.pass_knows crew.passes.items) crew.reports.items) }
    ensures many { (vec_len result.0.crew.doors ≡ length hired.passes) × (vec_len result.0.crew.passes ≡ length hired.passes)
        × (vec_len result.0.crew.reports ≡ length hired.passes) }
    ensures room { vec_len result.0.crew.passes < vec_capacity result.0.crew.passes }
    ensures forwarded { Forwarded S.start (option_copied destination.entry) (map S.pass_knows result.0.crew.passes.items)
        (forwarder_at (S.knows seat) (N.told net.old)) (forwarder_at (S.pass_knows result.1) (N.told net.new)) result.0.last }
{
    match destination {
        Some(destination) => run_beside(
            rt,
            alloc,
            talks,
            destination,
            net,
            other,
            ended,
            seat,
            hired,
        ),
        None => {
            let ran = CrewAndLook {
                crew: work_with(rt, alloc, talks, other, ended, hired),
                last: None,
            };
            (ran, seat.into_pass())
        }
    }
}

/// Serves the links of all doors and stores what they bring. Where there is a destination, a forwarder sends it on meanwhile. Once all
/// workers have ended the forwarder looks once more, at all that is left. Where there is another task, it is done while the workers work,
/// in a thread of its own; where none can be made it comes last, and `ended` is set by then, as it is once the workers have ended.
///
/// The forwarder sits there already, at the seat of the pass with the greatest number; `passes` are those of the workers, in the order of
/// the doors, of which there are at most as many as the run's numbers are divided among, and their list has room for the forwarder's. None
/// of them has made a call. The passes come back in their order, with the forwarder's at the end. The error is want of memory before a
/// worker began: it gives back the posts and the passes as they were.
///
/// What each worker serves, and by which leave, is told at [`serve_workers::hire`], and what the forwarder sends at
/// [`serve_forwarder::look`].
pub fn run<
    P: Door + Drop + Send,
    N: Net + Send,
    S: Seat + Send,
    T: Task<Output = ()> + Send + Drop,
    R: Threads + Wait + Sync,
>(
    rt: &R,
    alloc: Global,
    seat: S,
    posts: Vec<Post<P>>,
    passes: Vec<S::Pass>,
    talks: u32,
    destination: Option<&Destination>,
    net: &mut N,
    other: Option<T>,
    ended: &AtomicBool,
) -> Result<CrewAndLook<P, S>, NoCrew<P, S>>
where
    P::L: Send,
    S::Pass: Send,
    N::L: Send,
    N::P: Send,
    N::M: Send,
    <N::P as Door>::L: Send,
    requires many { (vec_len passes ≡ vec_len posts) × (vec_len posts ≤ callers_of S.of_run.division) × (S.seats ≡ vec_len posts + 1) }
    requires room { vec_len passes < vec_capacity passes }
    requires new { AreNew 0 (map S.pass_knows passes.items ++ S.knows seat ∷ []) }
    requires talks { talks ≤ each_of S.of_run.division }
    requires says { (i : ℕ) (post : _) → slice_get posts.items i ≡ Some post
        → MayAnswer S.is_real S.start S.of_run i (P.permits post.door) post.rules }
    requires polls { IfSome destination (λ d. 0 < d.now.outward.polls) }
    requires named { IfSome destination (λ d. N.may_dial d.now.place) }
    requires earned { IfSome destination (λ d. MayRelease S.is_real S.start d.now.outward
        (HasExchangedAt N.L.same N.L.dialed N.L.given N.L.taken d.now.place) S.may_release) }
    requires reports { IfSome destination (λ d. MayReport S.is_real S.start d.now.outward
        (HasExchangedAt N.L.same N.L.dialed N.L.given N.L.taken d.now.place) (N.may_report d.now.place)) }
    requires other { IfSome other T.can_run }

    ensures many { IfOk result (λ ran. (vec_len ran.crew.doors ≡ vec_len posts) × (vec_len ran.crew.reports ≡ vec_len posts)) }
    ensures ran { IfOk result (λ it. HasRun S.start S.of_run
        (given_by P.told talks posts.items (option_copied destination.entry) (N.told net.old)) (left_by P.told it (N.told net.new))
        (map S.pass_knows passes.items ++ S.knows seat ∷ []) (map S.pass_knows it.crew.passes.items)) }
    ensures err { IfErr result (λ none. (none.posts ≡ posts)
        × (map S.pass_knows none.passes.items ≡ map S.pass_knows passes.items ++ S.knows seat ∷ []) × (net.new ≡ net.old)) }
{
    let hired = match hire(alloc, &seat, posts, passes) {
        Ok(hired) => hired,
        Err(NoCrew { posts, mut passes }) => {
            passes.push_reserved(seat.into_pass());
            return Err(NoCrew { posts, passes });
        }
    };
    let (mut ran, pass) = run_seated(
        rt,
        alloc,
        talks,
        destination,
        net,
        other,
        ended,
        seat,
        hired,
    );
    ran.crew.passes.push_reserved(pass);
    Ok(ran)
}

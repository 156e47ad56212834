//! Workers, and a forwarder beside them, with a task of the caller's.
ghost use Rattle.std.specs.Prelude.{◌≡◌, ◌+◌, ◌<◌, ◌^◌, ◌≤◌, List, None, IfSome, length, map, vec_len};
ghost use Rattle.desk_access.specs.Division.{each_of};
ghost use Rattle.std.specs.Vec.{vec_capacity};
ghost use Rattle.forward_core.specs.Exchanged.{HasExchangedAt};
ghost use Rattle.serve_workers.specs.Crews.{AreNew, HaveWorked, returned_as};
ghost use Rattle.serve_forwarder.specs.Looks.{AreInTurn, AreLooks, Look, forwarder_at};
ghost use Rattle.serve_forwarder.specs.Released.{MayRelease};
ghost use Rattle.serve_forwarder.specs.Reported.{MayReport};

use crate::working::{Task, work_beside, work_beside_any};
use desk_seats::Seat;
use edge_io::{Door, Net};
use serve_forwarder::{Destination, forward_beside};
use serve_workers::{Crew, Hired};
use std::alloc::Global;
use std::sync::Wait;
use std::sync::atomic::{AtomicBool, Ordering};
use std::thread::Threads;

// The forwarder as a task: it looks until the workers have ended, and hands back the net that it was lent, and its seat.
#[derive(Drop)]
struct Forwarding<'a, N: Net, S: Seat, R: Wait> {
    rt: &'a R,
    alloc: Global,
    destination: &'a Destination,
    net: &'a mut N,
    seat: S,
    ended: &'a AtomicBool,
}

impl<'a, N: Net, S: Seat, R: Wait> Task for Forwarding<'a, N, S, R> {
    type Output = (&'a mut N, S);

    ghost can_run = { λ t. ((S.knows t.seat).number + 1 ≡ S.seats) × (0 < t.destination.now.outward.polls)
        × N.may_dial t.destination.now.place
        × MayRelease S.is_real S.start t.destination.now.outward
        (HasExchangedAt N.L.same N.L.dialed N.L.given N.L.taken t.destination.now.place) S.may_release
        × MayReport S.is_real S.start t.destination.now.outward
        (HasExchangedAt N.L.same N.L.dialed N.L.given N.L.taken t.destination.now.place) (N.may_report t.destination.now.place) };

    ghost leaves = { λ t r. (r.0.ghost_name ≡ t.net.ghost_name)
        × ((looks : List Look) × AreLooks S.start t.destination.now looks (forwarder_at (S.knows t.seat) (N.told t.net.now))
        (forwarder_at (S.knows r.1) (N.told r.0.now)) × AreInTurn None looks) };

    fn run(self) -> (&'a mut N, S) {
        let Forwarding {
            rt,
            alloc,
            destination,
            net,
            mut seat,
            ended,
        } = self;
        forward_beside(rt, alloc, destination, &mut *net, &mut seat, ended);
        (net, seat)
    }
}

// Does nothing: it is called to end the loan of the net.
fn take_back<N>(net: &mut N)
    ensures { net.new ≡ net.old }
{}

/// Has the workers work, and forwards beside them until they have ended. Where there is another task, it is done meanwhile. It answers the
/// forwarder's seat and what the workers leave. `ended` is set once the workers have ended.
///
/// The forwarder has a thread of its own. Where none can be made it comes last, once the workers have ended, and leaves all to the
/// last look.
pub(crate) fn work_and_forward<
    P: Door + Drop + Send,
    N: Net + Send,
    S: Seat + Send,
    T: Task<Output = ()> + Send + Drop,
    R: Threads + Wait + Sync,
>(
    rt: &R,
    alloc: Global,
    talks: u32,
    destination: &Destination,
    net: &mut N,
    other: Option<T>,
    ended: &AtomicBool,
    seat: S,
    hired: Hired<P, S>,
) -> (S, Crew<P, S>)
where
    P::L: Send,
    S::Pass: Send,
    N::L: Send,
    N::P: Send,
    N::M: Send,
    <N::P as Door>::L: Send,
    requires new { AreNew 0 hired.passes }
    requires talks { talks ≤ each_of S.of_run.division }
    requires confirms { (S.knows seat).number + 1 ≡ S.seats }
    requires polls { 0 < destination.now.outward.polls }
    requires named { N.may_dial destination.now.place }
    requires earned { MayRelease S.is_real S.start destination.now.outward
        (HasExchangedAt N.L.same N.L.dialed N.L.given N.L.taken destination.now.place) S.may_release }
    requires reports { MayReport S.is_real S.start destination.now.outward
        (HasExchangedAt N.L.same N.L.dialed N.L.given N.L.taken destination.now.place) (N.may_report destination.now.place) }
    requires other { IfSome other T.can_run }

    ensures worked { HaveWorked S.start S.of_run talks hired
        (returned_as (map (λ (door : _). P.told door) result.1.doors.items) (map S.pass_knows result.1.passes.items) result.1.reports.items) }
    ensures many { (vec_len result.1.doors ≡ length hired.passes) × (vec_len result.1.passes ≡ length hired.passes)
        × (vec_len result.1.reports ≡ length hired.passes) }
    ensures room { vec_len result.1.passes < vec_capacity result.1.passes }
    ensures looked { (looks : List Look) × AreLooks S.start destination.now looks (forwarder_at (S.knows seat) (N.told net.old))
        (forwarder_at (S.knows result.0) (N.told net.new)) × AreInTurn None looks }
{
    let forwarding = Forwarding {
        rt,
        alloc,
        destination,
        net,
        seat,
        ended,
    };
    let ((net, seat), crew) = work_beside_any(
        rt,
        forwarding,
        other,
        move || -> Crew<P, S>
            requires { AreNew 0 hired.passes × (talks ≤ each_of S.of_run.division) }
            ensures worked { HaveWorked S.start S.of_run talks hired
                (returned_as (map (λ (door : _). P.told door) result.doors.items) (map S.pass_knows result.passes.items) result.reports.items) }
            ensures many { (vec_len result.doors ≡ length hired.passes) × (vec_len result.passes ≡ length hired.passes)
                × (vec_len result.reports ≡ length hired.passes) }
            ensures room { vec_len result.passes < vec_capacity result.passes }
        {
            let crew = hired.work(rt, alloc, talks);
            ended.store(true, Ordering::SeqCst);
            crew
        },
    );
    take_back(net);
    (seat, crew)
}

/// Has the workers work. Where there is another task, it is done meanwhile. `ended` is set once the workers have ended.
pub(crate) fn work_with<
    P: Door + Drop + Send,
    S: Seat + Send,
    T: Task<Output = ()> + Send + Drop,
    R: Threads + Sync,
>(
    rt: &R,
    alloc: Global,
    talks: u32,
    other: Option<T>,
    ended: &AtomicBool,
    hired: Hired<P, S>,
) -> Crew<P, S>
where
    P::L: Send,
    S::Pass: Send,
    requires other { IfSome other T.can_run }
    requires new { AreNew 0 hired.passes }
    requires talks { talks ≤ each_of S.of_run.division }

    ensures worked { HaveWorked S.start S.of_run talks hired
        (returned_as (map (λ (door : _). P.told door) result.doors.items) (map S.pass_knows result.passes.items) result.reports.items) }
    ensures many { (vec_len result.doors ≡ length hired.passes) × (vec_len result.passes ≡ length hired.passes)
        × (vec_len result.reports ≡ length hired.passes) }
    ensures room { vec_len result.passes < vec_capacity result.passes }
{
    let Some(other) = other else {
        return hired.work(rt, alloc, talks);
    };
    let ((), crew) = work_beside(
        rt,
        other,
        move || -> Crew<P, S>
            requires { AreNew 0 hired.passes × (talks ≤ each_of S.of_run.division) }
            ensures worked { HaveWorked S.start S.of_run talks hired
                (returned_as (map (λ (door : _). P.told door) result.doors.items) (map S.pass_knows result.passes.items) result.reports.items) }
            ensures many { (vec_len result.doors ≡ length hired.passes) × (vec_len result.passes ≡ length hired.passes)
                × (vec_len result.reports ≡ length hired.passes) }
            ensures room { vec_len result.passes < vec_capacity result.passes }
        {
            let crew = hired.work(rt, alloc, talks);
            ended.store(true, Ordering::SeqCst);
            crew
        },
    );
    crew
}

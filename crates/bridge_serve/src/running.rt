//! A run of the server over a spool that was opened for storing.
ghost use Rattle.std.specs.Prelude.{◌≡◌, ◌⊎◌, ◌+◌, ◌<◌, ◌^◌, ◌≤◌, ℕ, Some, false, IfOk, IfErr, IfSome, option_copied, slice_get, vec_len};
ghost use Rattle.edge_disk.specs.Calls.{Calls};
ghost use Rattle.spool_log.specs.State.{view};
ghost use Rattle.forward_core.specs.Exchanged.{HasExchangedAt};
ghost use Rattle.spool_turns.specs.Levels.{HasLevel};
ghost use Rattle.spool_turns.specs.Named.{IsName};
ghost use Rattle.spool_turns.specs.Replays.{desk_at, IsReal};
ghost use Rattle.serve_workers.specs.Answering.{MayAnswer};
ghost use Rattle.desk_access.specs.Division.{callers_of, each_of};
ghost use Rattle.serve_forwarder.specs.Released.{MayRelease};
ghost use Rattle.serve_forwarder.specs.Reported.{MayReport};
ghost use Rattle.serve_run.specs.Running.{given_by};
ghost use Rattle.serve_desk.specs.Serving.{HasNotServed, seating_as};
ghost use Rattle.serve_desk.specs.Served.{IsServed};
ghost use Rattle.serve_desk.specs.Telling.{MayTell as MayTellLevels};
ghost use Rattle.bridge_serve.specs.Answered.{WorkerMayAnswer, first_link};
ghost use Rattle.bridge_serve.specs.Numbers.{MayTell};
ghost use Rattle.bridge_serve.specs.Opened.{IsOpenedFrom, IsOpenedOnly};
ghost use Rattle.bridge_serve.specs.Released.{ForwarderMayRelease};
ghost use Rattle.bridge_serve.specs.Reported.{ForwarderMayReport};
ghost use Rattle.bridge_serve.specs.Served.{RanOver, setup_as};

use desk_access::Division;
use edge_disk::Disk;
use edge_io::{Door, Net};
use hec_ids::Ids;
use serve_desk::{Served, Unserved};
use serve_forwarder::Destination;
use serve_workers::Post;
use spool_desk::Desk;
use spool_log::Spool;
use spool_turns::{Naming, NoShare, Unnamed};
use std::alloc::Global;
use std::marker::Brand;
use std::snapshot::Snapshot;
use std::sync::Wait;
use std::thread::Threads;

// Runs the server over a desk that has a name, by which the passes of workers and forwarder are passes of this desk and no other. The
// disk as it was before the opening stands in the proof alone, which says by it which name that is. With `group` takes of several
// workers may be stored as one group. The numbers of connections are divided among the workers by `division`. The error is want of
// memory before a worker began, and gives back the desk and the posts as they were.
fn run_named<
    D: Disk + Drop + Send,
    N: Net + Send,
    J: Naming + Send + Sync,
    R: Threads + Wait + Sync,
>(
    rt: &R,
    alloc: Global,
    _before: Snapshot<D>,
    unnamed: Unnamed<D>,
    group: bool,
    division: Division,
    posts: Vec<Post<N::P>>,
    talks: u32,
    destination: Option<&Destination>,
    net: &mut N,
    monitor: Option<N::M>,
) -> Result<Served<N::P, D>, Unserved<N::P, D>>
where
    N::P: Drop + Send,
    <N::P as Door>::L: Send,
    N::L: Send,
    N::M: Drop + Send,
    requires seats { J.seats ≡ vec_len posts + 1 }
    requires few { vec_len posts ≤ callers_of J.run.division }
    requires talks { talks ≤ each_of J.run.division }
    requires polls { IfSome destination (λ d. 0 < d.now.outward.polls) }
    requires group { group ≡ J.began.grouped }
    requires divided { division ≡ J.run.division }
    requires name { IsName J.table J.run J.start J.began unnamed }
    requires says { (i : ℕ) (post : _) → slice_get posts.items i ≡ Some post
        → MayAnswer (IsReal ⟦<D as Disk>⟧ J.start J.run J.seats J.began) J.start J.run i (N.P.permits post.door) post.rules }
    requires named { IfSome destination (λ d. N.may_dial d.now.place) }
    requires earned { IfSome destination (λ d. MayRelease (IsReal ⟦<D as Disk>⟧ J.start J.run J.seats J.began) J.start d.now.outward
        (HasExchangedAt N.L.same N.L.dialed N.L.given N.L.taken d.now.place) D.may_release) }
    requires reports { IfSome destination (λ d. MayReport (IsReal ⟦<D as Disk>⟧ J.start J.run J.seats J.began) J.start d.now.outward
        (HasExchangedAt N.L.same N.L.dialed N.L.given N.L.taken d.now.place) (N.may_report d.now.place)) }
    requires tells { MayTellLevels (HasLevel ⟦<D as Disk>⟧ J.start J.run J.seats J.began) J.run.number N.M.may_tell }

    ensures many { IfOk result (λ served. (vec_len served.doors ≡ vec_len posts) × (vec_len served.reports ≡ vec_len posts)) }
    ensures served { IfOk result (IsServed N.P.told J.start (seating_as J.run J.seats J.began)
        (given_by N.P.told talks posts.items (option_copied destination.entry) (N.told net.old)) (N.told net.new)) }
    ensures err { IfErr result (λ none. (none.posts ≡ posts) × (net.new ≡ net.old) × ((none.desk ≡ unnamed.alone.desk)
        ⊎ HasNotServed D.tells J.start (seating_as J.run J.seats J.began) (desk_at none.desk))) }
{
    let seats = posts.len() as u32 + 1;
    let opened = match unnamed.named::<J>(alloc, seats, group, division) {
        Ok(opened) => opened,
        Err(NoShare { desk }) => return Err(Unserved { desk, posts }),
    };
    serve_desk::serve(rt, alloc, opened, posts, talks, destination, net, monitor)
}

/// Runs the server over a spool that was opened for storing, from a disk as it was `before`: a worker at each of the doors, which ends
/// after `talks` connections at the latest, and a forwarder beside them where there is a destination. With `group` takes of several
/// workers may be stored as one group. The numbers of connections are divided among the workers by `division`. The result has the desk,
/// the doors, what the workers report, and what came of the forwarder's last look.
///
/// The error is want of memory before a worker began, and gives back the desk and the posts as they were.
pub(crate) fn run_over<D: Disk + Drop + Send, N: Net + Send, R: Threads + Wait + Sync>(
    rt: &R,
    alloc: Global,
    before: Snapshot<D>,
    spool: Spool<D>,
    group: bool,
    division: Division,
    posts: Vec<Post<N::P>>,
    talks: u32,
    destination: Option<&Destination>,
    net: &mut N,
    monitor: Option<N::M>,
) -> Result<Served<N::P, D>, Unserved<N::P, D>>
where
    N::P: Drop + Send,
    <N::P as Door>::L: Send,
    N::L: Send,
    N::M: Drop + Send,
    requires opened { IsOpenedFrom D.tells (D.moment before.value) (view spool.memory spool.doubt (D.moment spool.disk)) }
    requires sure { spool.doubt ≡ false }
    requires few { vec_len posts ≤ callers_of division }
    requires talks { talks ≤ each_of division }
    requires polls { IfSome destination (λ d. 0 < d.now.outward.polls) }
    requires answers { (i : ℕ) (post : _) → slice_get posts.items i ≡ Some post
        → WorkerMayAnswer D.tells (λ (d : D). D.moment d) before.value (first_link division i post.rules) (N.P.permits post.door) }
    requires dials { IfSome destination (λ d. N.may_dial d.now.place) }
    requires releases { IfSome destination (λ d. ForwarderMayRelease D.tells (λ (d : D). D.moment d) before.value d.now.outward
        (HasExchangedAt N.L.same N.L.dialed N.L.given N.L.taken d.now.place) D.may_release) }
    requires reports { IfSome destination (λ d. ForwarderMayReport D.tells (λ (d : D). D.moment d) before.value d.now.outward
        (HasExchangedAt N.L.same N.L.dialed N.L.given N.L.taken d.now.place) (N.may_report d.now.place)) }
    requires tells { MayTell D.tells (λ (d : D). D.moment d) before.value N.M.may_tell }

    ensures many { IfOk result (λ served. (vec_len served.doors ≡ vec_len posts) × (vec_len served.reports ≡ vec_len posts)) }
    ensures over { IfOk result (RanOver N.P.told before.value (setup_as group division)
        (given_by N.P.told talks posts.items (option_copied destination.entry) (N.told net.old)) (N.told net.new)) }
    ensures err { let old = D.moment before.value in IfErr result (λ none. let new = D.moment none.desk.spool.disk in
        (none.posts ≡ posts) × (net.new ≡ net.old) × Calls ⊥ old new × (D.tells → IsOpenedOnly old new)) }
{
    let ids = Ids::new(alloc, spool.run(), 0);
    match Unnamed::new(alloc, Desk { spool, ids }) {
        Ok(unnamed) => run_named::<D, N, Brand, R>(
            rt,
            alloc,
            before,
            unnamed,
            group,
            division,
            posts,
            talks,
            destination,
            net,
            monitor,
        ),
        Err(NoShare { desk }) => Err(Unserved { desk, posts }),
    }
}

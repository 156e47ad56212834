//! The last look, at all that the workers have left.
ghost use Rattle.std.specs.Prelude.{◌≡◌, ◌+◌, ◌<◌, map, vec_len};
ghost use Rattle.std.specs.Vec.{vec_capacity};
ghost use Rattle.forward_core.specs.Exchanged.{HasExchangedAt};
ghost use Rattle.serve_forwarder.specs.Released.{MayRelease};
ghost use Rattle.serve_forwarder.specs.Reported.{MayReport};
ghost use Rattle.serve_forwarder.specs.Looks.{forwarder_at};
ghost use Rattle.serve_run.specs.Running.{HasMet, LooksLast};

use desk_seats::Seat;
use edge_io::Net;
use serve_forwarder::{Destination, Outcome, look};
use std::alloc::Global;

// Shows the pass that sits there all that the others have seen. The others stay as they are, and no call is made.
fn meet_all<S: Seat>(seat: &mut S, others: &mut Vec<S::Pass>)
    ensures met { HasMet (map S.pass_knows others.old.items) (S.knows seat.old) (S.knows seat.new) }
    ensures same { (others.new.items ≡ others.old.items) × (vec_len others.new ≡ vec_len others.old)
        × (vec_capacity others.new ≡ vec_capacity others.old) }
{
    for i in 0..others.len() {
        seat.meet(&mut others[i]);
    }
}

/// Looks once more, after the forwarder's pass was shown all that the workers' passes have seen, and answers what came of it. The look
/// offers all that is pending. The workers' passes stay as they are.
pub(crate) fn look_again<N: Net, S: Seat>(
    alloc: Global,
    destination: &Destination,
    net: &mut N,
    forwarder: &mut S,
    workers: &mut Vec<S::Pass>,
) -> Outcome
    requires confirms { (S.knows forwarder.old).number + 1 ≡ S.seats }
    requires polls { 0 < destination.now.outward.polls }
    requires named { N.may_dial destination.now.place }
    requires earned { MayRelease S.is_real S.start destination.now.outward
        (HasExchangedAt N.L.same N.L.dialed N.L.given N.L.taken destination.now.place) S.may_release }
    requires reports { MayReport S.is_real S.start destination.now.outward
        (HasExchangedAt N.L.same N.L.dialed N.L.given N.L.taken destination.now.place) (N.may_report destination.now.place) }

    ensures looked { LooksLast S.start destination.now (map S.pass_knows workers.old.items)
        (forwarder_at (S.knows forwarder.old) (N.told net.old)) (forwarder_at (S.knows forwarder.new) (N.told net.new)) result }
    ensures same { (workers.new.items ≡ workers.old.items) × (vec_len workers.new ≡ vec_len workers.old)
        × (vec_capacity workers.new ≡ vec_capacity workers.old) }
{
    meet_all(forwarder, workers);
    look(alloc, destination, None, net, forwarder).outcome
}

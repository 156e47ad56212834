//! Looking again and again, beside those who store.
ghost use Rattle.std.specs.Prelude.{◌≡◌, ◌+◌, ◌*◌, ◌<◌, List, None, min};
ghost use Rattle.forward_core.specs.Exchanged.{HasExchangedAt};
ghost use Rattle.serve_forwarder.specs.Looks.{AreInTurn, AreLooks, Look, forwarder_at};
ghost use Rattle.serve_forwarder.specs.Released.{MayRelease};
ghost use Rattle.serve_forwarder.specs.Reported.{MayReport};

use crate::Destination;
use crate::looking::{Looked, Outcome, look};
use desk_seats::Seat;
use edge_io::Net;
use forward_core::Sent;
use std::alloc::Global;
use std::sync::Wait;
use std::sync::atomic::{AtomicBool, Ordering};

// How many pauses there are at most after a session that the peer acknowledged nothing of.
const MOST_PAUSES: u32 = 60;

// Twice as many pauses, or as many as there are at most.
fn more_pauses(pauses: u32) -> u32
    ensures { result ≡ min (2 * pauses) 60 }
{
    pauses.min(MOST_PAUSES / 2) * 2
}

// Pauses so many times, one after another, unless `ended` is set meanwhile.
fn pause_for<N: Net>(net: &mut N, ended: &AtomicBool, pauses: u32)
    ensures { N.told net.new ≡ N.told net.old }
{
    'waits: for _ in 0..pauses {
        if ended.load(Ordering::SeqCst) {
            return;
        }
        net.pause();
    }
}

// Waits after a look, before which the looks were stuck at that entry, if they were, and after which it paused so many times. It answers
// how often it pauses after such a look now.
fn rest_after<N: Net>(
    net: &mut N,
    ended: &AtomicBool,
    looked: &Looked,
    stuck: Option<u64>,
    pauses: u32,
) -> u32
    ensures { N.told net.new ≡ N.told net.old }
{
    match looked.outcome {
        Outcome::Idle | Outcome::Held(Sent::Drained) => {
            net.wait_briefly();
            1
        }
        Outcome::Held(_) => {
            let now = if looked.stuck == stuck {
                more_pauses(pauses)
            } else {
                1
            };
            pause_for(net, ended, now);
            now
        }
        Outcome::Unread(_) | Outcome::Undialed(_) => {
            net.pause();
            pauses
        }
    }
}

/// Looks at what is pending, by [`look`], again and again until `ended` is set, which others set once they store no more. The flag is
/// read before each look, so that a session that has begun is held to its end.
///
/// After a session that ended as `Drained` (all entries that it offered were sent, and the peer acknowledged them), and where nothing is
/// pending, it waits briefly: an event is forwarded soon after it comes, and what comes meanwhile shares one session. After any other
/// outcome it pauses. How long both are is for `net` to say.
///
/// After a session that ended otherwise, the next one offers the entry that was pending first alone, as long as that is pending
/// (`AreInTurn`). While such sessions end otherwise too, it pauses twice, 4, 8, 16, 32 and then 60 times after each, and reads the flag
/// between the pauses. Once that entry is acknowledged, all are offered again.
///
/// The destination's place is one that may be dialed, and a number may become known as confirmed once the peer there has acknowledged
/// its entry (`earned`). What is reported as holding the forwarding up is the entry that a session offered alone and that was not
/// acknowledged then (`reports`).
pub fn forward_beside<N: Net, S: Seat, R: Wait>(
    rt: &R,
    alloc: Global,
    destination: &Destination,
    net: &mut N,
    seat: &mut S,
    ended: &AtomicBool,
)
    requires confirms { (S.knows seat.old).number + 1 ≡ S.seats }
    requires polls { 0 < destination.now.outward.polls }
    requires named { N.may_dial destination.now.place }
    requires earned { MayRelease S.is_real S.start destination.now.outward
        (HasExchangedAt N.L.same N.L.dialed N.L.given N.L.taken destination.now.place) S.may_release }
    requires reports { MayReport S.is_real S.start destination.now.outward
        (HasExchangedAt N.L.same N.L.dialed N.L.given N.L.taken destination.now.place) (N.may_report destination.now.place) }

    ensures { (looks : List Look) × AreLooks S.start destination.now looks (forwarder_at (S.knows seat.old) (N.told net.old))
        (forwarder_at (S.knows seat.new) (N.told net.new)) × AreInTurn None looks }
{
    let mut stuck = None;
    let mut pauses = 1;
    'looks: for _ in rt.forever() {
        if ended.load(Ordering::SeqCst) {
            break;
        }
        let looked = look(alloc, destination, stuck, net, seat);
        pauses = rest_after(net, ended, &looked, stuck, pauses);
        stuck = looked.stuck;
    }
}

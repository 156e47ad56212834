//! One look at what is pending.
ghost use Rattle.std.specs.Prelude.{◌≡◌, ◌+◌, ◌<◌, ◌^◌, Ok, Some, IfOk, IfErr};
ghost use Rattle.forward_core.specs.Exchanged.{HasExchangedAt};
ghost use Rattle.serve_forwarder.specs.Sessions.{Holds, caller_by};
ghost use Rattle.serve_forwarder.specs.Looks.{FailsDial, LooksOnce, first_of, forwarder_at, offer_at, stuck_from, upto_of};
ghost use Rattle.serve_forwarder.specs.Released.{MayEarn, MayRelease, link_by};
ghost use Rattle.serve_forwarder.specs.Reported.{MayReport};

use crate::Destination;
use crate::held::report_held_up;
use desk_access::Access;
use desk_seats::Seat;
use edge_io::{Net, NetFault};
use forward_core::{Sent, forward};
use spool_answers::{Numbered, PendFault};
use std::alloc::Global;

/// What came of a look.
#[derive(Clone, Copy, PartialEq, Eq)]
pub enum Outcome {
    /// No entry is pending. Nothing was dialed.
    Idle,
    /// The desk couldn't say whether an entry is pending, for this reason. Nothing was dialed.
    Unread(PendFault),
    /// An entry is pending, but the dial of the place failed, or no memory was found for it.
    Undialed(NetFault),
    /// An entry was pending. A session was held with the peer, and ended so.
    Held(Sent),
}

/// What came of a look, and where it leaves those after it.
#[derive(Clone, Copy, PartialEq, Eq)]
pub struct Looked {
    /// What came of it.
    pub outcome: Outcome,
    /// The number of the entry at which the looks are stuck now, if they are: the last session began with it, and didn't end as
    /// `Drained`.
    pub stuck: Option<u64>,
}

// The number of the first entry, if there is one.
fn first_of(given: &Vec<Numbered>) -> Option<u64>
    ensures { result ≡ first_of (Ok given.now.items) }
{
    match given.first() {
        Some(one) => Some(one.number),
        None => None,
    }
}

// The number that ends a session which begins with the entry of the number `first`: where the looks are stuck at that entry, the next
// one, so that it alone is offered.
fn upto_at(stuck: Option<u64>, first: u64) -> Option<u64>
    requires { first < 2 ^ 63 }
    ensures { result ≡ upto_of (offer_at stuck (Some first)) (Some first) }
{
    match stuck {
        Some(number) if number == first => Some(first + 1),
        _ => None,
    }
}

// Where a session that began with the entry of that number, and ended so, leaves the looks stuck.
fn stuck_from(sent: Sent, first: u64) -> Option<u64>
    ensures { result ≡ stuck_from sent (Some first) }
{
    match sent {
        Sent::Drained => None,
        _ => Some(first),
    }
}

// Dials the place, holds one session over the link, and hangs it up. Where `upto` is a number, only entries below it are sent. The error
// is that of the dial, and then no call was made.
fn hold<N: Net, A: Access>(
    alloc: Global,
    destination: &Destination,
    upto: Option<u64>,
    net: &mut N,
    access: &mut A,
) -> Result<Sent, NetFault>
    requires confirms { A.may_confirm access.old }
    requires polls { 0 < destination.now.outward.polls }
    requires named { N.may_dial destination.now.place }
    requires earned { MayEarn (caller_by A.ran A.cursor_known A.end_known A.seen) (link_by N.L.same N.L.dialed N.L.given N.L.taken)
        destination.now upto access.old A.may_release }

    ensures held { IfOk result (λ sent. (holds : Holds (caller_by A.ran A.cursor_known A.end_known A.seen) destination.now upto
        (access.old, N.told net.old) (access.new, N.told net.new) sent)
        × HasExchangedAt N.L.same N.L.dialed N.L.given N.L.taken destination.now.place holds.one.bytes holds.one.text) }
    ensures undialed { IfErr result (λ fault. (access.new ≡ access.old) × FailsDial fault (N.told net.old) (N.told net.new)) }
{
    let mut link = match net.dial(destination.place.as_str()) {
        Ok(link) => link,
        Err(fault) => return Err(fault),
    };
    let sent = forward(alloc, &mut link, &destination.outward, upto, access, net);
    net.hang_up(link);
    Ok(sent)
}

/// Asks the desk for one pending entry, that is one that isn't known as confirmed. Where there is one, it dials the place, holds one
/// session over the link, which sends from the desk's cursor up to its end, and hangs the link up. It waits until the session has
/// ended.
///
/// `stuck` is the number of the entry at which the looks before were stuck, if they were. Where that is the entry that is pending first,
/// the session offers it alone; so a receiver that refuses it gets one event, and not all that wait behind it, each time. Else all are
/// offered. What comes back says where the looks are stuck now: where nothing is pending, or the session ended as `Drained`, at no entry;
/// after any other session at the entry that was pending first; and without a session as before.
///
/// After a session that offered one entry alone and did not end as `Drained` the net is told that this entry holds the forwarding up, how
/// long its text is by the destination's protocol, and the code with which the peer refused it, where it did.
///
/// The pass is the one that may confirm, which has the greatest number. The destination's place is one that may be dialed. `polls` of
/// the destination, above 0, is how often at most a collector is asked whether a request is acknowledged.
///
/// `earned` is the leave to make numbers known as confirmed, which the caller gives: a number may become known once the peer at the
/// place has acknowledged its entry (`MayRelease`). No other number does, also where the session never ends. `reports` is the leave to tell
/// the net what holds the forwarding up: the entry that a session offered alone and that was not acknowledged then, and how that session
/// ended (`MayReport`).
///
/// Where the desk is in doubt, as after a call of the disk that failed, the question first finds out what the disk holds. `Unread`
/// comes where the desk refuses the question, `Undialed` where the dial fails or finds no memory. At each outcome but `Held` the
/// question was the only call on the desk.
pub fn look<N: Net, S: Seat>(
    alloc: Global,
    destination: &Destination,
    stuck: Option<u64>,
    net: &mut N,
    seat: &mut S,
) -> Looked
    requires confirms { (S.knows seat.old).number + 1 ≡ S.seats }
    requires polls { 0 < destination.now.outward.polls }
    requires named { N.may_dial destination.now.place }
    requires earned { MayRelease S.is_real S.start destination.now.outward
        (HasExchangedAt N.L.same N.L.dialed N.L.given N.L.taken destination.now.place) S.may_release }
    requires reports { MayReport S.is_real S.start destination.now.outward
        (HasExchangedAt N.L.same N.L.dialed N.L.given N.L.taken destination.now.place) (N.may_report destination.now.place) }

    ensures { LooksOnce S.start destination.now stuck (forwarder_at (S.knows seat.old) (N.told net.old))
        (forwarder_at (S.knows seat.new) (N.told net.new)) result }
{
    let given = match seat.pending(0, 1) {
        Ok(given) => given,
        Err(fault) => {
            return Looked {
                outcome: Outcome::Unread(fault),
                stuck,
            };
        }
    };
    let first = match first_of(&given) {
        Some(first) => first,
        None => {
            return Looked {
                outcome: Outcome::Idle,
                stuck: None,
            };
        }
    };
    let upto = upto_at(stuck, first);
    match hold(alloc, destination, upto, net, seat) {
        Ok(sent) => {
            report_held_up(alloc, destination, &given, upto, sent, net);
            Looked {
                outcome: Outcome::Held(sent),
                stuck: stuck_from(sent, first),
            }
        }
        Err(fault) => Looked {
            outcome: Outcome::Undialed(fault),
            stuck,
        },
    }
}

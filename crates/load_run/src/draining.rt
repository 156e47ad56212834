//! The drain: what a desk holds is sent to a peer that confirms all.
ghost use Rattle.std.specs.Prelude.{◌≡◌, ◌≢◌, ◌<◌, IsTrue};
ghost use Rattle.spool_state.specs.SpoolState.{end};
ghost use Rattle.spool_desk.specs.Alone.{alone_at, IsAt};
ghost use Rattle.desk_access.specs.Desk.{DeskState};
ghost use Rattle.forward_core.specs.Protocols.{settings_as};
ghost use Rattle.load_run.specs.Runs.{Drains, LeadsTo, settings};

use crate::catching::Catch;
use crate::disk::SureDisk;
use crate::feeding::Feed;
use crate::resting::NoRest;
use crate::stream::{CHANNEL, TOKEN};
use edge_io::{Both, Proto};
use forward_core::{Outward, Sent, forward};
use spool_desk::Alone;
use std::alloc::Global;

/// What came of the session.
#[derive(Clone, Copy)]
pub(crate) struct Forwarded {
    /// How it ended.
    pub(crate) sent: Sent,
    /// Whether a write found no memory.
    pub(crate) starved: bool,
}

// How the session speaks to the peer.
fn outward(proto: Proto) -> Outward
    ensures proto { result.proto ≡ proto }
    ensures settings { settings_as result ≡ settings }
    ensures polls { 0 < result.polls }
{
    Outward {
        proto,
        token: TOKEN,
        channel: CHANNEL,
        polls: 1,
    }
}

/// Sends what the desk holds to a peer that sends these bytes.
pub(crate) fn drain(
    alloc: Global,
    proto: Proto,
    peer: Vec<u8>,
    access: &mut Alone<SureDisk>,
) -> Forwarded
    ensures drains { (x : DeskState) → IsAt x (alone_at access.old)
        → Drains (λ calls. LeadsTo x calls (alone_at access.new)) proto peer.items x.spool.cursor (end x.spool) result.sent }
    ensures read { result.sent ≢ Sent.ReadFault }
    ensures disk { result.sent ≢ Sent.DiskFault }
    ensures starved { result.sent ≡ Sent.WriteFault → IsTrue result.starved }
{
    let mut link = Both {
        source: Feed::of(peer),
        sink: Catch::of(alloc),
    };
    let sent = forward(alloc, &mut link, &outward(proto), None, access, &mut NoRest);
    Forwarded {
        sent,
        starved: link.sink.is_starved(),
    }
}

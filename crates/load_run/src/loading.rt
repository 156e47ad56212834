//! A load from its number to its counts.
ghost use Rattle.std.specs.Prelude.{◌≡◌, ◌≢◌, ◌⊎◌, ◌≤◌, ◌+◌, ℕ, [], false, length, IfOk, IfErr, IsTrue, MatchResult, OnOk};
ghost use Rattle.spool_log.specs.State.{view, IsIn};
ghost use Rattle.spool_desk.specs.Alone.{alone_at, IsAt};
ghost use Rattle.desk_access.specs.Desk.{DeskState};
ghost use Rattle.spool_desk.specs.Standing.{standing_in};
ghost use Rattle.load_run.specs.Load.{IsDrainedOf, IsFailed, IsIll, IsLoaded, IsStopped, IsUndrained, IsWell, new_spool};
ghost use Rattle.load_run.specs.Runs.{desk_in};
ghost use Rattle.load_run.specs.Sure.{sure_moment};

use crate::disk::SureDisk;
use crate::draining::{Forwarded, drain};
use crate::peer::peer;
use crate::replaying::{Served, replay};
use crate::stream::stream;
use crate::{LoadFault, Loaded};
use edge_io::Proto;
use event_form::Talk;
use forward_core::Sent;
use hec_ids::Ids;
use spool_desk::{Alone, Desk};
use spool_log::{Opening, RecoverFault, Spool, format};
use std::alloc::Global;

/// How many slots the spool has.
const SLOTS: u32 = 8;

/// How many bytes a slot has.
const SIZE: u64 = 4_194_304;

/// How many bytes the device has: its head and the slots.
const LENGTH: u64 = 33_566_720;

// A new spool, opened for storing.
fn new_spool(alloc: Global) -> Result<Spool<SureDisk>, LoadFault>
    ensures sure { IfOk result (λ spool. spool.doubt ≡ false) }
    ensures state { IfOk result (λ spool. IsIn new_spool [] (view spool.memory spool.doubt (sure_moment spool.disk.disk))) }
    ensures starved { IfErr result (λ fault. fault ≡ LoadFault.NoMemory) }
{
    let mut disk = SureDisk::new(alloc, LENGTH)?;
    if format(&mut disk, SLOTS, SIZE).is_err() {
        unreachable!()
    }
    match Spool::recover(alloc, disk, Opening::Raise) {
        Ok(spool) => Ok(spool),
        Err(refusal) => match refusal.fault {
            RecoverFault::NoMemory => Err(LoadFault::NoMemory),
            _ => unreachable!(),
        },
    }
}

// A desk of a new spool, with one caller.
fn new_desk(alloc: Global) -> Result<Alone<SureDisk>, LoadFault>
    ensures at { IfOk result (λ access. IsAt (desk_in new_spool) (alone_at access)) }
    ensures starved { IfErr result (λ fault. fault ≡ LoadFault.NoMemory) }
{
    let spool = new_spool(alloc)?;
    let ids = Ids::new(alloc, spool.run(), 0);
    Ok(Alone::new(Desk { spool, ids }))
}

// Whether the connection ended as it should.
fn judge_served(served: &Served) -> Result<(), LoadFault>
    requires read { served.now.talk ≢ Talk.ReadFault }
    requires disk { served.now.talk ≢ Talk.DiskFault }
    requires starved { served.now.talk ≡ Talk.WriteFault → IsTrue served.now.starved }
    ensures well { OnOk result (IsWell served.now.talk) }
    ensures ill { IfErr result (λ fault. (fault ≡ LoadFault.NoMemory) ⊎ ((fault ≡ LoadFault.Replayed served.now.talk) × IsIll served.now.talk)) }
{
    if served.starved {
        return Err(LoadFault::NoMemory);
    }
    match served.talk {
        Talk::Ended | Talk::Closed => Ok(()),
        Talk::NoMemory => Err(LoadFault::NoMemory),
        talk => Err(LoadFault::Replayed { talk }),
    }
}

// Whether all was sent and confirmed.
fn judge_forwarded(forwarded: &Forwarded) -> Result<(), LoadFault>
    requires read { forwarded.now.sent ≢ Sent.ReadFault }
    requires disk { forwarded.now.sent ≢ Sent.DiskFault }
    requires starved { forwarded.now.sent ≡ Sent.WriteFault → IsTrue forwarded.now.starved }
    ensures well { OnOk result (forwarded.now.sent ≡ Sent.Drained) }
    ensures ill { IfErr result (λ fault. (fault ≡ LoadFault.NoMemory) ⊎ ((fault ≡ LoadFault.Drained forwarded.now.sent) × IsStopped forwarded.now.sent)) }
{
    if forwarded.starved {
        return Err(LoadFault::NoMemory);
    }
    match forwarded.sent {
        Sent::Drained => Ok(()),
        Sent::NoMemory => Err(LoadFault::NoMemory),
        sent => Err(LoadFault::Drained { sent }),
    }
}

// Drains the desk, where there is an event.
fn drain_all(
    alloc: Global,
    proto: Proto,
    count: u32,
    access: &mut Alone<SureDisk>,
) -> Result<(), LoadFault>
    requires few { count ≤ 100000 }
    ensures drained { (x : DeskState) → IsAt x (alone_at access.old)
        → MatchResult result (λ _. (after : DeskState) × IsDrainedOf proto count x after × IsAt after (alone_at access.new)) (IsUndrained proto count x) }
{
    if count == 0 {
        return Ok(());
    }
    let peer = peer(alloc, proto, count)?;
    judge_forwarded(&drain(alloc, proto, peer, access))
}

// The numbers of a load, of which the drain left the desk so.
fn counted(access: &Alone<SureDisk>, taken: u64, bytes_in: u64, bytes_out: u64) -> Loaded
    requires { (standing_in access.now.desk.spool.memory).cursor ≤ (standing_in access.now.desk.spool.memory).end }
    ensures replay { (result.events ≡ taken) × (result.bytes_in ≡ bytes_in) × (result.bytes_out ≡ bytes_out) }
    ensures confirmed { result.confirmed ≡ (standing_in access.now.desk.spool.memory).cursor }
    ensures left { result.confirmed + result.left ≡ (standing_in access.now.desk.spool.memory).end }
{
    let standing = access.standing();
    Loaded {
        events: taken,
        bytes_in,
        bytes_out,
        confirmed: standing.cursor,
        left: standing.end - standing.cursor,
    }
}

// How many bytes these are.
fn length_of(bytes: &[u8]) -> u64
    ensures { result ≡ length bytes.now }
{
    bytes.len() as u64
}

/// Runs a load: makes the stream of `count` events after this number, replays it by the protocol into a new spool in memory,
/// and drains that to a peer that confirms all. `count` is at most 100,000. Where there is no event nothing is drained.
///
/// The spool has 8 slots of 4 MiB. The connection has the first number of its run, and the collector's token has no
/// acknowledgements. `Replayed` and `Drained` tell how the connection or the session ended, where it didn't end as it
/// should. `NoMemory` may come at any time: also where a write in memory found none.
pub fn load(alloc: Global, proto: Proto, number: u32, count: u32) -> Result<Loaded, LoadFault>
    requires few { count ≤ 100000 }
    ensures loaded { IfOk result (IsLoaded proto number count) }
    ensures failed { IfErr result (IsFailed proto number count) }
{
    let stream = stream(alloc, proto, number, count)?;
    let bytes_in = length_of(&stream);
    let mut access = new_desk(alloc)?;
    let served = replay(alloc, proto, stream, &mut access);
    judge_served(&served)?;
    drain_all(alloc, proto, count, &mut access)?;
    Ok(counted(&access, served.taken, bytes_in, served.written))
}

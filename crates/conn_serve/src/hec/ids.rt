//! Events that are stored under an acknowledgement id.
ghost use Rattle.std.specs.Prelude.{◌≡◌, ◌≢◌, ◌+◌, ◌<◌, ◌^◌, Bool, [], ◌∷◌, length, All, Some, Ok, Err, OnOk, OnErr, IfErr, IsErrOf};
ghost use Rattle.event_form.specs.Entry.{IsEntry};
ghost use Rattle.event_form.specs.declared.talk.Talk.TheVariants.{WriteFault};
ghost use Rattle.edge_io.specs.Told.{MayFollow};
ghost use Rattle.hec_session.specs.Acts.{AreWithinLimits};
ghost use Rattle.hec_session.specs.declared.act.HecAct.TheVariants.{SayThenStore};
ghost use Rattle.spool_answers.specs.declared.receipt.Receipt.{Receipt};
ghost use Rattle.spool_faults.specs.declared.fault.TakeFault.{TakeFault as Fault};
ghost use Rattle.conn_serve.specs.Relp.{talk_of};
ghost use Rattle.desk_access.specs.Batch.{AreNext, AreOfUnit};
ghost use Rattle.desk_access.specs.Call.{takes, settles};
ghost use Rattle.desk_access.specs.Endings.{IsAtMove};
ghost use Rattle.conn_serve.specs.Done.{Done};
ghost use Rattle.conn_serve.specs.Endings.{CountsFaults};
ghost use Rattle.conn_serve.specs.Hec.{IsDone, success};
ghost use Rattle.conn_serve.specs.HecServing.{HaltsAtAct, IsSayable, StoresUnder, FailsUnder};
ghost use Rattle.conn_serve.specs.Says.{MaySay};

use super::last::refuse_id;
use super::replies::make_success;
use crate::connection::{Connection, entries_of, take_under};
use crate::talk::{say, talk_of};
use desk_access::Access;
use edge_io::Link;
use event_form::{Entry, Event, Talk};
use std::alloc::Global;

// Takes the entries under an id that was issued, and settles it. The error is the ending of the connection: they were
// not taken.
fn take_and_settle<A: Access>(
    access: &mut A,
    connection: &mut Connection,
    channel: u128,
    id: u64,
    entries: &[Entry],
) -> Result<(), Talk>
    requires some { 0 < length entries.now }
    requires few { length entries.now < 2 ^ 32 }
    requires limits { All IsEntry entries.now }
    requires next { AreNext connection.old.number connection.old.taken entries.now }
    requires unit { AreOfUnit id entries.now }
    requires early { connection.old.taken + length entries.now < 2 ^ 63 }
    requires may { A.may_take access.old connection.old.number connection.old.taken }
    requires issued { A.may_use access.old id }

    ensures stored { OnOk result ((receipt : Receipt) × (unsettled : Bool)
        × A.ran access.old (takes entries.now (Ok receipt) ∷ settles channel id unsettled ∷ []) access.new) }
    ensures refused { IfErr result (λ talk. (fault : Fault) × (talk ≡ talk_of fault) × A.ran access.old (takes entries.now (Err fault) ∷ []) access.new) }
    ensures only { IfErr result IsAtMove }
    ensures unwritten { IfErr result (λ talk. talk ≢ WriteFault) }
    ensures next { OnOk result (connection.new ≡ record connection.old { taken = connection.old.taken + length entries.now }) }
    ensures stays { OnErr result (connection.new ≡ connection.old) }
    ensures may { OnOk result (A.may_take access.new connection.old.number connection.new.taken) }
{
    match take_under(access, connection, id, entries) {
        Ok(_) => {
            access.settle(channel, id);
            Ok(())
        }
        Err(fault) => Err(talk_of(fault)),
    }
}

// Says an id that was issued, takes its events, and settles it: in this order, so that it is never told before
// they are durable. That an id was issued promises nothing yet, so it may be said before. The error is the ending
// of the connection; the id is to be forgotten then.
fn store_under<L: Link, A: Access>(
    alloc: Global,
    link: &mut L,
    access: &mut A,
    connection: &mut Connection,
    text: &mut Vec<u8>,
    channel: u128,
    id: u64,
    events: Vec<Event>,
    closing: bool,
) -> Result<(), Talk>
    requires within { AreWithinLimits events.items }
    requires early { connection.old.taken + 10000 < 2 ^ 63 }
    requires may { A.may_take access.old connection.old.number connection.old.taken }
    requires issued { A.may_use access.old id }
    requires permitted { MayFollow (L.permits link.old) (L.taken link.old) (success (Some id) closing) }

    ensures goes { OnOk result (Done (λ calls. A.ran access.old calls access.new) (L.taken link.old) (L.taken link.new)
        connection.old.taken connection.new.taken (StoresUnder connection.old.number connection.old.taken channel id events.items closing)) }
    ensures halts { IfErr result (λ talk. Done (λ calls. A.ran access.old calls access.new) (L.taken link.old) (L.taken link.new)
        connection.old.taken connection.new.taken (FailsUnder connection.old.number connection.old.taken id events.items closing talk)) }
    ensures only { IfErr result IsAtMove }
    ensures number { connection.new.number ≡ connection.old.number }
    ensures may { OnOk result (A.may_take access.new connection.old.number connection.new.taken) }
    ensures writes { CountsFaults (IsErrOf result WriteFault) (L.write_faults link.old) (L.write_faults link.new) }
    ensures same { L.same link.old link.new }
    ensures apart { L.write_apart link.old link.new }
{
    let Ok(entries) = entries_of(alloc, connection, id, events) else {
        return Err(Talk::NoMemory);
    };
    if let Err(talk) = make_success(alloc, text, Some(id), closing) {
        return Err(talk);
    }
    match say(link, text.as_slice()) {
        Ok(()) => take_and_settle(access, connection, channel, id, &entries),
        Err(talk) => Err(talk),
    }
}

/// Issues an id, says it, and stores the events under it. Where that fails the id is forgotten. The error is the
/// ending of the connection.
pub fn say_then_store<L: Link, A: Access>(
    alloc: Global,
    link: &mut L,
    access: &mut A,
    connection: &mut Connection,
    text: &mut Vec<u8>,
    channel: u128,
    events: Vec<Event>,
    closing: bool,
) -> Result<(), Talk>
    requires within { AreWithinLimits events.items }
    requires early { connection.old.taken + 10000 < 2 ^ 63 }
    requires may { A.may_take access.old connection.old.number connection.old.taken }
    requires says { MaySay (A.ran access.old) (L.permits link.old) (L.taken link.old)
        (IsSayable connection.old.number connection.old.taken (SayThenStore channel events) closing) }

    ensures goes { OnOk result (Done (λ calls. A.ran access.old calls access.new) (L.taken link.old) (L.taken link.new)
        connection.old.taken connection.new.taken (IsDone connection.old.number connection.old.taken (SayThenStore channel events) closing)) }
    ensures halts { IfErr result (λ talk. Done (λ calls. A.ran access.old calls access.new) (L.taken link.old) (L.taken link.new)
        connection.old.taken connection.new.taken (HaltsAtAct connection.old.number connection.old.taken (SayThenStore channel events) closing talk)) }
    ensures only { IfErr result IsAtMove }
    ensures number { connection.new.number ≡ connection.old.number }
    ensures may { OnOk result (A.may_take access.new connection.old.number connection.new.taken) }
    ensures writes { CountsFaults (IsErrOf result WriteFault) (L.write_faults link.old) (L.write_faults link.new) }
    ensures same { L.same link.old link.new }
    ensures apart { L.write_apart link.old link.new }
{
    let id = match access.issue(channel) {
        Ok(id) => id,
        Err(fault) => return Err(refuse_id(link, fault)),
    };
    match store_under(
        alloc, link, access, connection, text, channel, id, events, closing,
    ) {
        Ok(()) => Ok(()),
        Err(talk) => {
            access.forget(channel, id);
            Err(talk)
        }
    }
}

//! What is done for one item of the stream.
ghost use Rattle.std.specs.Prelude.{◌≡◌, ◌+◌, ◌<◌, ◌≤◌, ◌^◌, ℕ, List, [], ◌∷◌, length, nat_eq, IfOk, OnOk, IfErr, OnErr, IsErrOf, true};
ghost use Rattle.std.specs.List.{IsDistinct};
ghost use Rattle.event_form.specs.declared.talk.Talk.TheVariants.{WriteFault};
ghost use Rattle.hec_session.specs.Acts.{AreWithinLimits, AreAsked, IsSound};
ghost use Rattle.hec_session.specs.Codes.{IsReply};
ghost use Rattle.hec_session.specs.declared.act.HecAct.TheVariants.{StoreThenSay, Ask, Say};
ghost use Rattle.desk_access.specs.Call.{asks};
ghost use Rattle.desk_access.specs.Endings.{IsAtMove};
ghost use Rattle.conn_serve.specs.Done.{Done};
ghost use Rattle.conn_serve.specs.Endings.{CountsFaults};
ghost use Rattle.conn_serve.specs.Hec.{IsDone};
ghost use Rattle.conn_serve.specs.Says.{MaySay};
ghost use Rattle.conn_serve.specs.HecServing.{Carries, Halts, HaltsAtAct, IsSayable, IsSayableFor, IsSoundAsked};

use super::asked::Asked;
use super::ids::say_then_store;
use super::last::refuse;
use super::replies::{CONTINUED, make_answers, make_say, make_success};
use crate::connection::{Connection, entries_of, take_group};
use crate::talk::say;
use desk_access::Access;
use edge_io::Link;
use event_form::{Event, Talk};
use hec_session::{HecAct, HecSay};
use std::alloc::{AllocError, Global};

// Stores the events, and says Success once they are durable. The reply is made first, so that no memory is sought
// after the take.
fn store_then_say<L: Link, A: Access>(
    alloc: Global,
    link: &mut L,
    access: &mut A,
    connection: &mut Connection,
    text: &mut Vec<u8>,
    events: Vec<Event>,
    closing: bool,
) -> Result<(), Talk>
    requires within { AreWithinLimits events.items }
    requires early { connection.old.taken + 10000 < 2 ^ 63 }
    requires may { A.may_take access.old connection.old.number connection.old.taken }
    requires says { MaySay (A.ran access.old) (L.permits link.old) (L.taken link.old)
        (IsSayable connection.old.number connection.old.taken (StoreThenSay events) closing) }

    ensures goes { OnOk result (Done (λ calls. A.ran access.old calls access.new) (L.taken link.old) (L.taken link.new)
        connection.old.taken connection.new.taken (IsDone connection.old.number connection.old.taken (StoreThenSay events) closing)) }
    ensures halts { IfErr result (λ talk. Done (λ calls. A.ran access.old calls access.new) (L.taken link.old) (L.taken link.new)
        connection.old.taken connection.new.taken (HaltsAtAct connection.old.number connection.old.taken (StoreThenSay events) closing talk)) }
    ensures only { IfErr result IsAtMove }
    ensures number { connection.new.number ≡ connection.old.number }
    ensures may { OnOk result (A.may_take access.new connection.old.number connection.new.taken) }
    ensures writes { CountsFaults (IsErrOf result WriteFault) (L.write_faults link.old) (L.write_faults link.new) }
    ensures same { L.same link.old link.new }
    ensures apart { L.write_apart link.old link.new }
{
    let Ok(entries) = entries_of(alloc, connection, 0, events) else {
        return Err(Talk::NoMemory);
    };
    if let Err(talk) = make_success(alloc, text, None, closing) {
        return Err(talk);
    }
    match take_group(access, connection, &entries) {
        Ok(_) => say(link, text.as_slice()),
        Err(fault) => Err(refuse(link, fault)),
    }
}

// Asks of each id whether it is held settled. The only error is want of memory.
fn ask_each<A: Access>(
    alloc: Global,
    access: &mut A,
    channel: u128,
    ids: &[u64],
) -> Result<Vec<bool>, AllocError>
    requires distinct { IsDistinct nat_eq ids.now }

    ensures asked { IfOk result (λ known. A.ran access.old (asks channel ids.now known.items ∷ []) access.new) }
    ensures each { IfOk result (λ known. length ids.now ≡ length known.items) }
    ensures none { OnErr result (A.ran access.old [] access.new) }
{
    let mut known = vec![in alloc; false; ids.len()]?;
    access.ask(channel, ids, &mut known);
    Ok(known)
}

// Answers a query: of each id whether it is held settled.
fn answer<L: Link, A: Access>(
    alloc: Global,
    link: &mut L,
    access: &mut A,
    connection: &Connection,
    text: &mut Vec<u8>,
    channel: u128,
    ids: Vec<u64>,
    closing: bool,
) -> Result<(), Talk>
    requires asked { AreAsked ids.items }
    requires may { A.may_take access.old connection.now.number connection.now.taken }
    requires says { MaySay (A.ran access.old) (L.permits link.old) (L.taken link.old)
        (IsSayable connection.now.number connection.now.taken (Ask channel ids) closing) }

    ensures goes { OnOk result (Done (λ calls. A.ran access.old calls access.new) (L.taken link.old) (L.taken link.new)
        connection.now.taken connection.now.taken (IsDone connection.now.number connection.now.taken (Ask channel ids) closing)) }
    ensures halts { IfErr result (λ talk. Done (λ calls. A.ran access.old calls access.new) (L.taken link.old) (L.taken link.new)
        connection.now.taken connection.now.taken (HaltsAtAct connection.now.number connection.now.taken (Ask channel ids) closing talk)) }
    ensures only { IfErr result IsAtMove }
    ensures may { OnOk result (A.may_take access.new connection.now.number connection.now.taken) }
    ensures writes { CountsFaults (IsErrOf result WriteFault) (L.write_faults link.old) (L.write_faults link.new) }
    ensures same { L.same link.old link.new }
    ensures apart { L.write_apart link.old link.new }
{
    let Ok(known) = ask_each(alloc, access, channel, &ids) else {
        return Err(Talk::NoMemory);
    };
    match make_answers(alloc, text, &ids, &known, closing) {
        Ok(()) => say(link, text.as_slice()),
        Err(talk) => Err(talk),
    }
}

// Says a reply with a code.
fn say_code<L: Link, A: Access>(
    alloc: Global,
    link: &mut L,
    access: &A,
    connection: &Connection,
    text: &mut Vec<u8>,
    reply: HecSay,
    closing: bool,
) -> Result<(), Talk>
    requires reply { IsReply reply }
    requires says { MaySay (A.ran access.now) (L.permits link.old) (L.taken link.old)
        (IsSayable connection.now.number connection.now.taken (Say reply) closing) }

    ensures goes { OnOk result (Done (λ calls. A.ran access.now calls access.now) (L.taken link.old) (L.taken link.new)
        connection.now.taken connection.now.taken (IsDone connection.now.number connection.now.taken (Say reply) closing)) }
    ensures halts { IfErr result (λ talk. Done (λ calls. A.ran access.now calls access.now) (L.taken link.old) (L.taken link.new)
        connection.now.taken connection.now.taken (HaltsAtAct connection.now.number connection.now.taken (Say reply) closing talk)) }
    ensures only { IfErr result IsAtMove }
    ensures writes { CountsFaults (IsErrOf result WriteFault) (L.write_faults link.old) (L.write_faults link.new) }
    ensures same { L.same link.old link.new }
    ensures apart { L.write_apart link.old link.new }
{
    match make_say(alloc, text, reply, closing) {
        Ok(()) => say(link, text.as_slice()),
        Err(talk) => Err(talk),
    }
}

// Does what a request asks for, and says its answer, as a closing one or not.
fn carry_out<L: Link, A: Access>(
    alloc: Global,
    link: &mut L,
    access: &mut A,
    connection: &mut Connection,
    text: &mut Vec<u8>,
    act: HecAct,
    closing: bool,
) -> Result<(), Talk>
    requires sound { IsSound act }
    requires early { connection.old.taken + 10000 < 2 ^ 63 }
    requires may { A.may_take access.old connection.old.number connection.old.taken }
    requires says { MaySay (A.ran access.old) (L.permits link.old) (L.taken link.old)
        (IsSayable connection.old.number connection.old.taken act closing) }

    ensures goes { OnOk result (Done (λ calls. A.ran access.old calls access.new) (L.taken link.old) (L.taken link.new)
        connection.old.taken connection.new.taken (IsDone connection.old.number connection.old.taken act closing)) }
    ensures halts { IfErr result (λ talk. Done (λ calls. A.ran access.old calls access.new) (L.taken link.old) (L.taken link.new)
        connection.old.taken connection.new.taken (HaltsAtAct connection.old.number connection.old.taken act closing talk)) }
    ensures only { IfErr result IsAtMove }
    ensures number { connection.new.number ≡ connection.old.number }
    ensures may { OnOk result (A.may_take access.new connection.old.number connection.new.taken) }
    ensures writes { CountsFaults (IsErrOf result WriteFault) (L.write_faults link.old) (L.write_faults link.new) }
    ensures same { L.same link.old link.new }
    ensures apart { L.write_apart link.old link.new }
{
    match act {
        HecAct::StoreThenSay { events } => {
            store_then_say(alloc, link, access, connection, text, events, closing)
        }
        HecAct::SayThenStore { channel, events } => {
            say_then_store(
                alloc, link, access, connection, text, channel, events, closing,
            )
        }
        HecAct::Ask { channel, ids } => {
            answer(alloc, link, access, connection, text, channel, ids, closing)
        }
        HecAct::Say(reply) => say_code(alloc, link, access, connection, text, reply, closing),
    }
}

/// Does what an item asks for. The error is the ending of the connection at it, which is `Closed` where all was
/// done for a request that closes.
pub fn serve_item<L: Link, A: Access>(
    alloc: Global,
    link: &mut L,
    access: &mut A,
    connection: &mut Connection,
    text: &mut Vec<u8>,
    asked: Asked,
) -> Result<(), Talk>
    requires sound { IsSoundAsked asked }
    requires early { connection.old.taken + 10000 < 2 ^ 63 }
    requires may { A.may_take access.old connection.old.number connection.old.taken }
    requires says { MaySay (A.ran access.old) (L.permits link.old) (L.taken link.old)
        (IsSayableFor connection.old.number connection.old.taken asked) }

    ensures goes { OnOk result (Done (λ calls. A.ran access.old calls access.new) (L.taken link.old) (L.taken link.new)
        connection.old.taken connection.new.taken (Carries connection.old.number connection.old.taken asked)) }
    ensures halts { IfErr result (λ talk. Done (λ calls. A.ran access.old calls access.new) (L.taken link.old) (L.taken link.new)
        connection.old.taken connection.new.taken (Halts connection.old.number connection.old.taken asked talk)) }
    ensures only { IfErr result IsAtMove }
    ensures number { connection.new.number ≡ connection.old.number }
    ensures may { OnOk result (A.may_take access.new connection.old.number connection.new.taken) }
    ensures writes { CountsFaults (IsErrOf result WriteFault) (L.write_faults link.old) (L.write_faults link.new) }
    ensures same { L.same link.old link.new }
    ensures apart { L.write_apart link.old link.new }
{
    match asked {
        Asked::Leave => say(link, CONTINUED),
        Asked::Act { act, closing } => {
            match carry_out(alloc, link, access, connection, text, act, closing) {
                Ok(()) if closing => Err(Talk::Closed),
                Ok(()) => Ok(()),
                Err(talk) => Err(talk),
            }
        }
    }
}

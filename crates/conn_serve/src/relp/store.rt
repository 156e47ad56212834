//! How the events of a run are stored and answered.
ghost use Rattle.std.specs.Prelude.{◌≡◌, ◌+◌, ◌<◌, ◌≤◌, ◌^◌, ℕ, List, [], length, OnOk, IfErr, IsErrOf, IsTrue, ◌↔◌};
ghost use Rattle.std.specs.Io.KnownBytes.{Appends};
ghost use Rattle.event_form.specs.Event.{IsEvent};
ghost use Rattle.event_form.specs.declared.event.Origin.TheVariants.{Relp};
ghost use Rattle.event_form.specs.declared.talk.Talk.TheVariants.{WriteFault};
ghost use Rattle.relp_session.specs.Answer.{hint};
ghost use Rattle.spool_answers.specs.Take.{IsRefusal};
ghost use Rattle.edge_io.specs.Told.{MayFollow};
ghost use Rattle.desk_access.specs.Batch.{AreNext};
ghost use Rattle.desk_access.specs.Endings.{IsAtMove};
ghost use Rattle.conn_serve.specs.Done.{Done, LeadsBy};
ghost use Rattle.conn_serve.specs.Endings.{CountsFaults};
ghost use Rattle.conn_serve.specs.Says.{MaySay};
ghost use Rattle.conn_serve.specs.Terms.{most_of};
ghost use Rattle.conn_serve.specs.RelpServing.{Course, CouldEndOf, CouldEndWithin, EndsAtFront, EndsByFault, EndsOf, EndsWithin, HasRoom, Holds, HoldsNext, HoldsOf, IsDueForFront, IsStaged, StoresFront};

use super::run::Run;
use super::texts::Texts;
use crate::connection::Connection;
use crate::talk::{say, talk_of};
use desk_access::Access;
use edge_io::Link;
use event_form::Talk;
use spool_answers::TakeFault;

// Whether the event was refused, for want of room or of numbers.
fn is_refusal(fault: TakeFault) -> bool
    ensures { IsTrue result ↔ IsRefusal fault }
{
    match fault {
        TakeFault::TooLarge { .. } | TakeFault::Spent { .. } | TakeFault::Full { .. } => true,
        TakeFault::NotSpool { .. } | TakeFault::NoMemory | TakeFault::DiskFault => false,
    }
}

// Ends the connection by a take that wasn't answered Ok: after a refusal the hint is written first.
fn end_by<L: Link>(link: &mut L, texts: &mut Texts, fault: TakeFault) -> Talk
    requires permitted { IsRefusal fault → MayFollow (L.permits link.old) (L.taken link.old) hint }

    ensures ends { (part : List ℕ) × Appends (L.taken link.old) (L.taken link.new) part × EndsByFault fault part result }
    ensures only { IsAtMove result }
    ensures writes { CountsFaults (result ≡ WriteFault) (L.write_faults link.old) (L.write_faults link.new) }
    ensures same { L.same link.old link.new }
    ensures apart { L.write_apart link.old link.new }
{
    if !is_refusal(fault) {
        return talk_of(fault);
    }
    if texts.spell_hint().is_err() {
        return Talk::NoMemory;
    }
    match say(link, &texts.answer) {
        Ok(()) => talk_of(fault),
        Err(talk) => talk,
    }
}

// Stores the first of the events as one group, and answers them once they are durable, by one text. The answers were spelled
// before, so that no memory is sought after the take. The error is the ending of the connection.
fn store_front<L: Link, A: Access>(
    link: &mut L,
    access: &mut A,
    connection: &mut Connection,
    texts: &mut Texts,
    run: &mut Run,
) -> Result<(), Talk>
    requires some { 0 < length run.old }
    requires few { length run.old < 2 ^ 32 }
    requires next { AreNext connection.old.number connection.old.taken run.old }
    requires early { connection.old.taken + length run.old < 2 ^ 63 }
    requires may { A.may_take access.old connection.old.number connection.old.taken }
    requires says { MaySay (A.ran access.old) (L.permits link.old) (L.taken link.old) (IsDueForFront run.old) }

    ensures goes { OnOk result (Done (λ calls. A.ran access.old calls access.new) (L.taken link.old) (L.taken link.new)
        connection.old.taken connection.new.taken (StoresFront run.old run.new)) }
    ensures halts { IfErr result (λ talk. Done (λ calls. A.ran access.old calls access.new) (L.taken link.old) (L.taken link.new)
        connection.old.taken connection.new.taken (EndsAtFront run.old talk)) }
    ensures next { OnOk result (AreNext connection.old.number connection.new.taken run.new) }
    ensures fewer { OnOk result (length run.new < length run.old) }
    ensures sum { OnOk result (connection.new.taken + length run.new ≡ connection.old.taken + length run.old) }
    ensures only { IfErr result IsAtMove }
    ensures number { connection.new.number ≡ connection.old.number }
    ensures may { OnOk result (A.may_take access.new connection.old.number connection.new.taken) }
    ensures writes { CountsFaults (IsErrOf result Talk.WriteFault) (L.write_faults link.old) (L.write_faults link.new) }
    ensures same { L.same link.old link.new }
    ensures apart { L.write_apart link.old link.new }
{
    match run.take(access, connection) {
        Ok(count) => {
            let said = say(link, run.answers(count));
            run.drop_front(count);
            said
        }
        Err(fault) => Err(end_by(link, texts, fault)),
    }
}

/// Stores and answers all that is staged. The error is the ending of the connection.
pub fn store_all<L: Link, A: Access>(
    link: &mut L,
    access: &mut A,
    connection: &mut Connection,
    texts: &mut Texts,
    run: &mut Run,
) -> Result<(), Talk>
    requires few { length run.old < 2 ^ 32 }
    requires next { AreNext connection.old.number connection.old.taken run.old }
    requires early { connection.old.taken + length run.old < 2 ^ 63 }
    requires may { A.may_take access.old connection.old.number connection.old.taken }
    requires says { MaySay (A.ran access.old) (L.permits link.old) (L.taken link.old)
        (LeadsBy connection.old.taken (HoldsOf connection.old.number run.old) (CouldEndOf connection.old.number)) }

    ensures goes { OnOk result (Done (λ calls. A.ran access.old calls access.new) (L.taken link.old) (L.taken link.new)
        connection.old.taken connection.new.taken (LeadsBy connection.old.taken
        (HoldsOf connection.old.number run.old) (HoldsOf connection.old.number []))) }
    ensures halts { IfErr result (λ talk. Done (λ calls. A.ran access.old calls access.new) (L.taken link.old) (L.taken link.new)
        connection.old.taken connection.new.taken (LeadsBy connection.old.taken
        (HoldsOf connection.old.number run.old) (EndsOf connection.old.number talk))) }
    ensures empty { OnOk result (run.new ≡ []) }
    ensures sum { OnOk result (connection.new.taken ≡ connection.old.taken + length run.old) }
    ensures only { IfErr result IsAtMove }
    ensures number { connection.new.number ≡ connection.old.number }
    ensures may { OnOk result (A.may_take access.new connection.old.number connection.new.taken) }
    ensures writes { CountsFaults (IsErrOf result Talk.WriteFault) (L.write_faults link.old) (L.write_faults link.new) }
    ensures same { L.same link.old link.new }
    ensures apart { L.write_apart link.old link.new }
{
    'fronts: while run.len() > 0 {
        store_front(link, access, connection, texts, run)?;
    }
    Ok(())
}

// How many events a run has at most.
const MOST: usize = 512;

// How many events are stored as one group at most.
fn most_of(group: bool) -> usize
    ensures { result ≡ most_of group }
{
    if group { MOST } else { 1 }
}

// Makes room for an event whose text has so many bytes: where the run has none for it, it is stored first.
fn make_room<L: Link, A: Access>(
    link: &mut L,
    access: &mut A,
    connection: &mut Connection,
    texts: &mut Texts,
    run: &mut Run,
    group: bool,
    size: usize,
) -> Result<(), Talk>
    requires staged { IsStaged (most_of group) connection.old.number connection.old.taken run.old }
    requires early { connection.old.taken + length run.old < 2 ^ 62 }
    requires may { A.may_take access.old connection.old.number connection.old.taken }
    requires says { MaySay (A.ran access.old) (L.permits link.old) (L.taken link.old) (LeadsBy connection.old.taken
        (Holds (most_of group) connection.old.number run.old) (CouldEndWithin (most_of group) connection.old.number)) }

    ensures goes { OnOk result (Done (λ calls. A.ran access.old calls access.new) (L.taken link.old) (L.taken link.new)
        connection.old.taken connection.new.taken (LeadsBy connection.old.taken
        (Holds (most_of group) connection.old.number run.old) (Holds (most_of group) connection.old.number run.new))) }
    ensures halts { IfErr result (λ talk. Done (λ calls. A.ran access.old calls access.new) (L.taken link.old) (L.taken link.new)
        connection.old.taken connection.new.taken (LeadsBy connection.old.taken
        (Holds (most_of group) connection.old.number run.old) (EndsWithin (most_of group) connection.old.number talk))) }
    ensures room { OnOk result (HasRoom (most_of group) run.new size) }
    ensures staged { OnOk result (IsStaged (most_of group) connection.old.number connection.new.taken run.new) }
    ensures sum { OnOk result (connection.new.taken + length run.new ≡ connection.old.taken + length run.old) }
    ensures only { IfErr result IsAtMove }
    ensures number { connection.new.number ≡ connection.old.number }
    ensures may { OnOk result (A.may_take access.new connection.old.number connection.new.taken) }
    ensures writes { CountsFaults (IsErrOf result Talk.WriteFault) (L.write_faults link.old) (L.write_faults link.new) }
    ensures same { L.same link.old link.new }
    ensures apart { L.write_apart link.old link.new }
{
    if run.has_room(most_of(group), size) {
        return Ok(());
    }
    store_all(link, access, connection, texts, run)
}

/// Stages the event of a `syslog`. Where the run has no room for it, or there is no memory, what is staged is stored first.
/// The error is the ending of the connection.
pub fn stage<L: Link, A: Access>(
    link: &mut L,
    access: &mut A,
    connection: &mut Connection,
    texts: &mut Texts,
    run: &mut Run,
    group: bool,
    text: &[u8],
    txnr: u32,
) -> Result<(), Talk>
    requires event { IsEvent (record { origin = Relp; text = text.now }) }
    requires staged { IsStaged (most_of group) connection.old.number connection.old.taken run.old }
    requires early { connection.old.taken + length run.old < 2 ^ 62 }
    requires may { A.may_take access.old connection.old.number connection.old.taken }
    requires says { MaySay (A.ran access.old) (L.permits link.old) (L.taken link.old) (LeadsBy connection.old.taken
        (Holds (most_of group) connection.old.number run.old) (CouldEndWithin (most_of group) connection.old.number)) }

    ensures goes { OnOk result (Done (λ calls. A.ran access.old calls access.new) (L.taken link.old) (L.taken link.new)
        connection.old.taken connection.new.taken (LeadsBy connection.old.taken
        (Holds (most_of group) connection.old.number run.old) (HoldsNext (most_of group) connection.old.number run.new (record { origin = Relp; text = text.now }) txnr))) }
    ensures halts { IfErr result (λ talk. Done (λ calls. A.ran access.old calls access.new) (L.taken link.old) (L.taken link.new)
        connection.old.taken connection.new.taken (LeadsBy connection.old.taken
        (Holds (most_of group) connection.old.number run.old) (EndsWithin (most_of group) connection.old.number talk))) }
    ensures staged { OnOk result (IsStaged (most_of group) connection.old.number connection.new.taken run.new) }
    ensures only { IfErr result IsAtMove }
    ensures number { connection.new.number ≡ connection.old.number }
    ensures may { OnOk result (A.may_take access.new connection.old.number connection.new.taken) }
    ensures writes { CountsFaults (IsErrOf result Talk.WriteFault) (L.write_faults link.old) (L.write_faults link.new) }
    ensures same { L.same link.old link.new }
    ensures apart { L.write_apart link.old link.new }
{
    make_room(link, access, connection, texts, run, group, text.len())?;
    if run.push(connection, text, txnr) {
        return Ok(());
    }
    store_all(link, access, connection, texts, run)?;
    Err(Talk::NoMemory)
}

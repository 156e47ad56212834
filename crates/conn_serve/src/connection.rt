//! A connection's entries.
ghost use Rattle.std.specs.Prelude.{◌≡◌, ◌+◌, ◌<◌, ◌≤◌, ◌^◌, [], ◌∷◌, length, take, All, IfErr, IfOk, OnOk, OnErr};
ghost use Rattle.event_form.specs.Event.{IsEvent};
ghost use Rattle.event_form.specs.Entry.{IsEntry};
ghost use Rattle.spool_answers.specs.Take.{IsRefusal};
ghost use Rattle.desk_access.specs.Batch.{AreNext, AreOfUnit};
ghost use Rattle.desk_access.specs.Call.{takes};
ghost use Rattle.conn_serve.specs.Relp.{entry_of};
ghost use Rattle.conn_serve.specs.Groups.{IsFrameEntry};
ghost use Rattle.conn_serve.specs.Hec.{entries_of};

use desk_access::{Access, Front};
use event_form::{Entry, Event};
use spool_answers::{Receipt, TakeFault};
use std::alloc::{AllocError, Global};

/// A connection, as the entries of the spool know it.
#[derive(Clone, Copy)]
pub struct Connection {
    /// Its number.
    pub number: u64,
    /// How many entries were taken from it.
    pub taken: u64,
}

/// The entry of an event of the connection of that number, which has so many entries before it. The unit
/// is the number of the event's frame, in which its sender counts.
pub fn entry_of(conn: u64, index: u64, unit: u64, event: Event) -> Entry
    requires event { IsEvent event }
    requires plain { unit < 2 ^ 32 }
    ensures entry { result ≡ entry_of conn index unit event }
    ensures limits { IsFrameEntry result }
{
    Entry {
        conn,
        index,
        unit,
        event,
    }
}

/// Takes entries into the spool as one group: they are the connection's next ones. The answers are those
/// of the desk's `take`.
pub fn take_group<A: Access>(
    access: &mut A,
    connection: &mut Connection,
    entries: &[Entry],
) -> Result<Receipt, TakeFault>
    requires few { length entries.now < 2 ^ 32 }
    requires limits { All IsFrameEntry entries.now }
    requires next { AreNext connection.old.number connection.old.taken entries.now }
    requires early { connection.old.taken + length entries.now < 2 ^ 63 }
    requires may { A.may_take access.old connection.old.number connection.old.taken }

    ensures ran { A.ran access.old (takes entries.now result ∷ []) access.new }
    ensures next { OnOk result (connection.new ≡ record connection.old { taken = connection.old.taken + length entries.now }) }
    ensures stays { OnErr result (connection.new ≡ connection.old) }
    ensures may { OnOk result (A.may_take access.new connection.old.number connection.new.taken) }
{
    let receipt = access.take(entries)?;
    connection.taken += entries.len() as u64;
    Ok(receipt)
}

/// Takes the first of the entries into the spool as one group: they are the connection's next ones. What comes of it is as
/// the desk's `take_front` says.
pub fn take_front<A: Access>(
    access: &mut A,
    connection: &mut Connection,
    entries: Vec<Entry>,
) -> Front
    requires some { 0 < length entries.items }
    requires few { length entries.items < 2 ^ 32 }
    requires limits { All IsFrameEntry entries.items }
    requires next { AreNext connection.old.number connection.old.taken entries.items }
    requires early { connection.old.taken + length entries.items < 2 ^ 63 }
    requires may { A.may_take access.old connection.old.number connection.old.taken }

    ensures same { result.entries.items ≡ entries.items }
    ensures front { (0 < result.count) × (result.count ≤ length entries.items) }
    ensures ran { A.ran access.old (takes (take result.count entries.items) result.answer ∷ []) access.new }
    ensures alone { IfErr result.answer (λ fault. IsRefusal fault → result.count ≡ 1) }
    ensures next { OnOk result.answer (connection.new ≡ record connection.old { taken = connection.old.taken + result.count }) }
    ensures stays { OnErr result.answer (connection.new ≡ connection.old) }
    ensures may { OnOk result.answer (A.may_take access.new connection.old.number connection.new.taken) }
{
    let front = access.take_front(entries);
    if front.answer.is_err() {
        return front;
    }
    connection.taken += front.count as u64;
    front
}

/// The events as the connection's next entries, all with this unit. The error is want of memory.
pub fn entries_of(
    alloc: Global,
    connection: &Connection,
    unit: u64,
    events: Vec<Event>,
) -> Result<Vec<Entry>, AllocError>
    requires early { connection.now.taken + length events.items < 2 ^ 63 }
    requires each { All IsEvent events.items }
    ensures entries { IfOk result (λ entries. entries.items ≡ entries_of connection.now.number connection.now.taken unit events.items) }
    ensures limits { IfOk result (λ entries. All IsEntry entries.items) }
{
    let mut entries = Vec::with_capacity(alloc, events.len())?;
    for event in events {
        entries.push(Entry {
            conn: connection.number,
            index: connection.taken + entries.len() as u64,
            unit,
            event,
        })?;
    }
    Ok(entries)
}

/// Takes entries into the spool as one group under an id that was issued: they are the connection's next ones, and
/// the id is their unit. The answers are those of the desk's `take`. After `Ok` the id may be settled.
pub fn take_under<A: Access>(
    access: &mut A,
    connection: &mut Connection,
    id: u64,
    entries: &[Entry],
) -> Result<Receipt, TakeFault>
    requires some { 0 < length entries.now }
    requires few { length entries.now < 2 ^ 32 }
    requires limits { All IsEntry entries.now }
    requires next { AreNext connection.old.number connection.old.taken entries.now }
    requires unit { AreOfUnit id entries.now }
    requires early { connection.old.taken + length entries.now < 2 ^ 63 }
    requires may { A.may_take access.old connection.old.number connection.old.taken }
    requires issued { A.may_use access.old id }

    ensures ran { A.ran access.old (takes entries.now result ∷ []) access.new }
    ensures next { OnOk result (connection.new ≡ record connection.old { taken = connection.old.taken + length entries.now }) }
    ensures stays { OnErr result (connection.new ≡ connection.old) }
    ensures may { OnOk result (A.may_take access.new connection.old.number connection.new.taken) }
    ensures stored { OnOk result (A.may_settle access.new id) }
{
    let count = entries.len() as u64;
    let receipt = access.take(entries)?;
    connection.taken += count;
    Ok(receipt)
}

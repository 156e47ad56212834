//! The run of events that is stored next.
ghost use Rattle.std.specs.Prelude.{◌≡◌, ℕ, ◌+◌, ◌<◌, ◌≤◌, ◌^◌, [], ◌∷◌, ◌++◌, Ok, Err, length, take, drop, All, IfErr, IfOk, OnOk, OnErr, IsTrue};
ghost use Rattle.event_form.specs.Event.{IsEvent};
ghost use Rattle.event_form.specs.declared.event.Entry.{Entry as TheEntry};
ghost use Rattle.event_form.specs.declared.event.Origin.TheVariants.{Relp};
ghost use Rattle.relp_session.specs.Answer.{stored};
ghost use Rattle.spool_answers.specs.declared.receipt.Receipt.{Receipt as TheReceipt};
ghost use Rattle.spool_answers.specs.Take.{IsRefusal};
ghost use Rattle.desk_access.specs.Batch.{AreNext};
ghost use Rattle.desk_access.specs.Call.{takes};
ghost use Rattle.conn_serve.specs.Groups.{IsFrameEntry};
ghost use Rattle.conn_serve.specs.Relp.{entry_of};
ghost use Rattle.conn_serve.specs.Runs.{answers_of, size_of};
ghost use Rattle.conn_serve.specs.RelpServing.{HasRoom};

use crate::connection::{Connection, entry_of, take_front};
use crate::staged::Staged;
use desk_access::{Access, Front};
use event_form::{Entry, Event, Origin};
use itoa::Buffer;
use relp_session::{RelpActRef, write_answer};
use spool_answers::TakeFault;
use std::alloc::{AllocError, Global};
use std::marker::Model;
use std::mem;

/// How many bytes the texts of several events have at most that are stored as one group: as many as a frame has.
const MOST_BYTES: usize = 131_136;

// How many bytes of answers keep their memory.
const MOST_KEPT: usize = 1_024;

/// The run of events that is stored next as one group, with the answers that are due then. Contracts see the
/// entries.
#[derive(Drop)]
pub struct Run {
    staged: Staged,
    // The answers to the frames of these entries, one after another.
    answers: Vec<u8>,
    // How many bytes the texts have, or more.
    size: usize,
}

impl Model for Run {
    ghost use Rattle.std.specs.Prelude.{List};
    ghost use Rattle.event_form.specs.declared.event.Entry.{Entry};

    ghost Value = { List Entry };

    ghost use Rattle.conn_serve.specs.RelpServing.{IsReady};

    ghost view = { λ r. r.staged.entries.items };

    ghost invariant = { λ r. IsReady r.staged.entries.items r.answers.items r.size };
}

// How many bytes the answers of these entries have.
fn answers_len(entries: &[Entry]) -> usize
    requires few { length entries.now < 2 ^ 32 }
    ensures { result ≡ length (answers_of entries.now) }
{
    let mut len = 0;
    let mut at = 0;
    while at < entries.len() {
        let mut number = Buffer::new();
        len += number.format(entries[at].unit).len() + b" rsp 6 200 OK\n".len();
        at += 1;
    }
    len
}

// Takes the first bytes off.
fn cut_front(bytes: &mut Vec<u8>, from: usize)
    requires { from ≤ length bytes.old.items }
    ensures { bytes.new.items ≡ drop from bytes.old.items }
{
    let len = bytes.len();
    bytes.as_mut_slice().copy_within(from..len, 0);
    bytes.truncate(len - from);
}

// Takes the first entries off.
fn drop_entries(entries: &mut Vec<Entry>, count: usize)
    requires { count ≤ length entries.old.items }
    ensures { entries.new.items ≡ drop count entries.old.items }
{
    let mut left = count;
    while left > 0 {
        let _ = entries.remove(0);
        left -= 1;
    }
}

// Stages the event of a `syslog` with its answer, and says whether there was memory for it.
fn stage(
    staged: &mut Staged,
    answers: &mut Vec<u8>,
    connection: &Connection,
    text: &[u8],
    txnr: u32,
) -> bool
    requires event { IsEvent (record { origin = Relp; text = text.now }) }
    requires early { connection.now.taken + length staged.old.entries.items < 2 ^ 62 }
    requires limits { All IsFrameEntry staged.old.entries.items }

    ensures entries { IsTrue result → staged.new.entries.items ≡ staged.old.entries.items
        ++ entry_of connection.now.number (connection.now.taken + length staged.old.entries.items) txnr (record { origin = Relp; text = text.now }) ∷ [] }
    ensures limits { All IsFrameEntry staged.new.entries.items }
    ensures answers { IsTrue result → answers.new.items ≡ answers.old.items ++ stored txnr }
    ensures same { (IsTrue result → ⊥) → staged.new.entries.items ≡ staged.old.entries.items }
    ensures front { (IsTrue result → ⊥) → take (length answers.old.items) answers.new.items ≡ answers.old.items }
{
    let Ok(copy) = staged.copy(text) else {
        return false;
    };
    if write_answer(RelpActRef::Store { text, txnr }, answers).is_err() {
        return false;
    }
    let event = Event {
        origin: Origin::Relp,
        text: copy,
    };
    let index = connection.taken + staged.entries.len() as u64;
    let entry = entry_of(connection.number, index, u64::from(txnr), event);
    staged.entries.push(entry).is_ok()
}

impl Run {
    /// No event. It takes no memory.
    pub fn new(alloc: Global) -> Run
        ensures { result ≡ [] }
    {
        Run {
            staged: Staged::new(alloc),
            answers: Vec::new(alloc),
            size: 0,
        }
    }

    /// How many events it has.
    pub fn len(&self) -> usize
        ensures { result ≡ length self.now }
    {
        self.staged.entries.len()
    }

    /// Whether an event whose text has so many bytes may go on with it: the run has fewer than `most` events then, and where
    /// it has one, the texts of all have at most 131,136 bytes.
    pub fn has_room(&self, most: usize, size: usize) -> bool
        ensures { IsTrue result → HasRoom most self.now size }
    {
        if self.staged.entries.len() >= most {
            return false;
        }
        if self.staged.entries.is_empty() {
            return true;
        }
        self.size <= MOST_BYTES && size <= MOST_BYTES - self.size
    }

    /// Nothing is to be stored any more. Memory is kept for the next run, as much as a short one needs.
    pub fn clear(&mut self)
        ensures { self.new ≡ [] }
    {
        self.staged.stored();
        self.answers.clear();
        self.answers.shrink_to(MOST_KEPT);
        self.size = 0;
    }

    /// Adds the event of a `syslog` with that transaction number, as the connection's next entry, and spells its answer, so
    /// that no memory is sought once it is stored. It answers whether there was memory for that.
    pub fn push(&mut self, connection: &Connection, text: &[u8], txnr: u32) -> bool
        requires event { IsEvent (record { origin = Relp; text = text.now }) }
        requires early { connection.now.taken + length self.old < 2 ^ 62 }
        requires short { size_of self.old ≤ 131136 }

        ensures pushed { IsTrue result → self.new ≡ self.old
            ++ entry_of connection.now.number (connection.now.taken + length self.old) txnr (record { origin = Relp; text = text.now }) ∷ [] }
        ensures same { (IsTrue result → ⊥) → self.new ≡ self.old }
    {
        let spelled = self.answers.len();
        if stage(&mut self.staged, &mut self.answers, connection, text, txnr) {
            self.size = self.size.saturating_add(text.len());
            return true;
        }
        self.answers.truncate(spelled);
        false
    }

    /// Takes the first of the events into the spool as one group, as many as there is room for, and answers how many. They
    /// stay in the run.
    pub fn take<A: Access>(
        &mut self,
        access: &mut A,
        connection: &mut Connection,
    ) -> Result<usize, TakeFault>
        requires some { 0 < length self.old }
        requires few { length self.old < 2 ^ 32 }
        requires next { AreNext connection.old.number connection.old.taken self.old }
        requires early { connection.old.taken + length self.old < 2 ^ 63 }
        requires may { A.may_take access.old connection.old.number connection.old.taken }

        ensures same { self.new ≡ self.old }
        ensures taken { IfOk result (λ many. (0 < many) × (many ≤ length self.old)
            × ((receipt : TheReceipt) × A.ran access.old (takes (take many self.old) (Ok receipt) ∷ []) access.new)) }
        ensures fault { IfErr result (λ fault. (many : ℕ) × (0 < many) × (many ≤ length self.old) × (IsRefusal fault → many ≡ 1)
            × A.ran access.old (takes (take many self.old) (Err fault) ∷ []) access.new) }
        ensures next { IfOk result (λ many. connection.new ≡ record connection.old { taken = connection.old.taken + many }) }
        ensures stays { OnErr result (connection.new ≡ connection.old) }
        ensures may { OnOk result (A.may_take access.new connection.old.number connection.new.taken) }
    {
        let alloc = *self.staged.entries.allocator();
        let entries = mem::replace(&mut self.staged.entries, Vec::new(alloc));
        let Front {
            entries,
            count,
            answer,
        } = take_front(access, connection, entries);
        self.staged.entries = entries;
        match answer {
            Ok(_) => Ok(count),
            Err(fault) => Err(fault),
        }
    }

    /// The answers of the first `count` events, one after another.
    pub fn answers(&self, count: usize) -> &[u8]
        requires inside { count ≤ length self.now }
        requires few { length self.now < 2 ^ 32 }
        ensures { result.now ≡ answers_of (take count self.now) }
    {
        let len = answers_len(&self.staged.entries[..count]);
        &self.answers[..len]
    }

    /// Takes the first `count` events off, with their answers. What is left is the run then.
    pub fn drop_front(&mut self, count: usize)
        requires inside { count ≤ length self.old }
        requires few { length self.old < 2 ^ 32 }
        ensures { self.new ≡ drop count self.old }
    {
        if count == self.staged.entries.len() {
            self.clear();
            return;
        }
        let len = answers_len(&self.staged.entries[..count]);
        cut_front(&mut self.answers, len);
        drop_entries(&mut self.staged.entries, count);
    }
}

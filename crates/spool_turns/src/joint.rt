//! Letters of several passes that are stored as one group.
ghost use Rattle.std.specs.Prelude.{◌≡◌, ◌+◌, ◌-◌, ◌^◌, ◌<◌, ◌≤◌, List, true, false, [], ◌∷◌, ◌++◌, length, take, drop, reverse, None, IfSome, IfOk, IfErr};
ghost use Rattle.std.specs.Vec.{vec_len, vec_capacity};
ghost use Rattle.event_form.specs.declared.event.Entry.{Entry};
ghost use Rattle.spool_state.specs.Segment.{entries_text};
ghost use Rattle.spool_log.specs.Memory.{room_of, most_of, end_of};
ghost use Rattle.spool_desk.specs.Alone.{alone_at, RunsTo};
ghost use Rattle.spool_desk.specs.Standing.{standing_in};
ghost use Rattle.spool_desk.specs.Fitting.{FitsInRoom};
ghost use Rattle.desk_access.specs.JointRecords.{Part, joined, ArePartsOf, joint_of};
ghost use Rattle.desk_access.specs.Legal.{Met};
ghost use Rattle.spool_turns.specs.Rules.{facts};
ghost use Rattle.spool_turns.specs.Passes.{IsTurn, IsLocked, locked_of, facts_in};
ghost use Rattle.spool_turns.specs.Replays.{Replays};
ghost use Rattle.spool_turns.specs.Twins.{of_spool};
ghost use Rattle.spool_turns.specs.Stands.{with_ids, IsTold, AreMade, IsStoredAll};
ghost use Rattle.spool_turns.specs.Joining.{parts_of, numbers_of, AreRising, AreBehind, AreJoint, part_answer, records_behind, LeadOn};

use crate::joining::{Entered, Joined, Room, catch_up, enter, join};
use crate::journal::Journal;
use crate::letter::{Answer, Letter};
use crate::level::Level;
use crate::naming::Naming;
use crate::rule::{PassSeat, Steps};
use crate::steps::write_words;
use crate::twin::{TwinSeat, TwinSteps, apart, meet};
use desk_access::Standing;
use edge_disk::Disk;
use event_form::Entry;
use hec_ids::Ids;
use spool_answers::{Receipt, TakeFault};
use spool_desk::Alone;

/// Numbers of entries end here.
const LAST_NUMBER: u64 = 1 << 63;

/// How many bytes a group has beside its entries.
const GROUP_HEAD: u64 = 9;

/// Letters that are to be stored as one group, all their entries in order, and room for as many letters once their takes are entered.
#[derive(Drop)]
pub(crate) struct Group<D: Disk, J: Naming> {
    letters: Vec<Joined<J>>,
    entries: Vec<Entry>,
    entered: Vec<Entered<D, J>>,
}

// What may go into a group in the active slot, where the desk isn't in doubt.
fn room_in<D: Disk>(alone: &Alone<D>) -> Option<Room>
    ensures { IfSome result (λ room. (alone.now.desk.spool.doubt ≡ false)
        × (room.bytes + 9 ≤ room_of alone.now.desk.spool.memory) × (room.bytes + 9 ≤ most_of alone.now.desk.spool.memory)
        × (end_of alone.now.desk.spool.memory + room.count ≤ 2 ^ 63) × (room.count < 2 ^ 32) × (room.least ≡ 0)) }
{
    let spool = &alone.desk.spool;
    if spool.doubt() {
        return None;
    }
    let bytes = spool.room().min(spool.most()).checked_sub(GROUP_HEAD)?;
    let count = (LAST_NUMBER - spool.end()).min(u64::from(u32::MAX));
    Some(Room {
        bytes,
        count,
        least: 0,
    })
}

// Takes letters, one after another from the last on, as long as there is room for their entries.
fn join_some<J: Naming>(
    letters: &mut Vec<Letter<J>>,
    group: &mut Vec<Joined<J>>,
    entries: &mut Vec<Entry>,
    room: &mut Room,
)
    requires none { (group.old.items ≡ []) × (entries.old.items ≡ []) × (room.old.least ≡ 0) }
    requires room { vec_len letters.old ≤ vec_capacity group.old }

    ensures letters { letters.old.items ≡ letters.new.items ++ reverse (numbers_of group.new.items) }
    ensures parts { ArePartsOf (parts_of group.new.items) × AreRising 0 (parts_of group.new.items) }
    ensures entries { entries.new.items ≡ joined (parts_of group.new.items) }
    ensures bytes { length (entries_text entries.new.items) ≤ room.old.bytes }
    ensures count { length entries.new.items ≤ room.old.count }
    ensures lengths { vec_len letters.new + vec_len group.new ≡ vec_len letters.old }
    ensures capacity { vec_capacity letters.new ≡ vec_capacity letters.old }
{
    while let Some(letter) = letters.pop() {
        match join(letter, entries, room) {
            Ok(one) => group.push_reserved(one),
            Err(letter) => {
                letters.push_reserved(letter);
                return;
            }
        }
    }
}

/// Takes the last letters, one after another from the last on, whose entries have room as one group in the active slot. The numbers of
/// their passes rise. Where there is none, or no memory was found, all letters stay.
pub(crate) fn gather<D: Disk, J: Naming>(
    alone: &Alone<D>,
    letters: &mut Vec<Letter<J>>,
) -> Option<Group<D, J>>
    ensures group { IfSome result (λ group. (letters.old.items ≡ letters.new.items ++ reverse (numbers_of group.letters.items))
        × (0 < length group.letters.items)
        × ArePartsOf (parts_of group.letters.items) × AreRising 0 (parts_of group.letters.items)
        × (group.entries.items ≡ joined (parts_of group.letters.items))
        × (length group.entries.items < 2 ^ 32)
        × FitsInRoom alone.now.desk.spool.doubt alone.now.desk.spool.memory group.entries.items
        × (group.entered.items ≡ []) × (vec_len group.letters ≤ vec_capacity group.entered)
        × (vec_len letters.new + vec_len group.letters ≡ vec_len letters.old)) }
    ensures none { result ≡ None → letters.new.items ≡ letters.old.items }
    ensures capacity { vec_capacity letters.new ≡ vec_capacity letters.old }
{
    let mut room = room_in(alone)?;
    let alloc = *letters.allocator();
    let mut group = Vec::with_capacity(alloc, letters.len()).ok()?;
    let entered = Vec::with_capacity(alloc, letters.len()).ok()?;
    let mut entries = Vec::new(alloc);
    join_some(letters, &mut group, &mut entries, &mut room);
    if group.is_empty() {
        return None;
    }
    Some(Group {
        letters: group,
        entries,
        entered,
    })
}

// The answer of the take of a part that stands behind those entries, in a group that was stored where the numbers ended so, or in which
// the disk failed.
fn answer_of(stored: bool, end: u64, first: &[Entry], part: &[Entry]) -> Result<Receipt, TakeFault>
    requires numbers { end + (length first.now + length part.now) ≤ 2 ^ 63 }

    ensures is { result ≡ part_answer stored end first.now part.now }
    ensures receipt { IfOk result (λ receipt. (receipt.count ≡ length part.now) × (receipt.first + receipt.count ≤ 2 ^ 63)) }
    ensures only { IfErr result (λ fault. fault ≡ TakeFault.DiskFault) }
{
    if !stored {
        return Err(TakeFault::DiskFault);
    }
    Ok(Receipt {
        first: end + first.len() as u64,
        count: part.len() as u64,
    })
}

// So many entries of a group from that place on.
fn part_at(group: &[Entry], from: usize, count: usize) -> &[Entry]
    requires { from + count ≤ length group.now }

    ensures part { result.now ≡ take count (drop from group.now) }
    ensures count { length result.now ≡ count }
{
    let (_, rest) = group.split_at(from);
    let (part, _) = rest.split_at(count);
    part
}

// Enters the takes of the letters in the journal, in their order. The group was stored where the numbers `before` stood, or the disk
// failed. The desk is for the proof alone.
fn enter_all<D: Disk, J: Naming>(
    steps: &Steps,
    locked: &mut PassSeat,
    alone: &Alone<D>,
    before: Standing,
    stored: bool,
    letters: Vec<Joined<J>>,
    group: &[Entry],
    entered: &mut Vec<Entered<D, J>>,
)
    requires tables { (locked.old.table_id ≡ J.table.seats) × (steps.now.table_id ≡ J.table.seats) × (steps.now.table_id.words ≡ 4) }
    requires view { IsLocked locked.old.me }
    requires met { Met J.run (J.seats - 1) [] (facts_in locked.old.me.0).log }
    requires group { group.now ≡ joined (parts_of letters.items) }
    requires numbers { before.end + length group.now ≤ 2 ^ 63 }
    requires leads { LeadOn J.start (facts_in locked.old.me.0).end (facts_in locked.old.me.0).cursor (facts_in locked.old.me.0).log
        (records_behind stored before (D.moment alone.now.desk.spool.disk).clock [] (parts_of letters.items)) }
    requires room { (entered.old.items ≡ []) × (vec_len letters ≤ vec_capacity entered.old) }

    ensures table { locked.new.table_id ≡ J.table.seats }
    ensures locked { locked.new.me ≡ locked_of (facts (facts_in locked.old.me.0).made
        ((facts_in locked.old.me.0).log ++ records_behind stored before (D.moment alone.now.desk.spool.disk).clock [] (parts_of letters.items))
        (facts_in locked.old.me.0).end (facts_in locked.old.me.0).cursor) }
    ensures met { Met J.run (J.seats - 1) [] (facts_in locked.new.me.0).log }
    ensures parts { parts_of entered.new.items ≡ parts_of letters.items }
    ensures behind { AreBehind (length (facts_in locked.old.me.0).log) entered.new.items }
{
    let mut from = 0;
    let mut left = letters.into_iter();
    while let Some(letter) = left.next() {
        let count = letter.count();
        let first = &group[..from];
        let part = part_at(group, from, count);
        let answer = answer_of(stored, before.end, first, part);
        let one = enter(steps, locked, alone, before, first, part, answer, letter);
        entered.push_reserved(one);
        from += count;
    }
}

impl<D: Disk, J: Naming> Group<D, J> {
    /// Stores the entries, in one change of the disk. The numbers of the spool before that come with the answer.
    pub(crate) fn store(&self, alone: &mut Alone<D>) -> (Standing, Result<Receipt, TakeFault>)
        requires some { 0 < length self.now.letters.items }
        requires parts { ArePartsOf (parts_of self.now.letters.items) }
        requires entries { self.now.entries.items ≡ joined (parts_of self.now.letters.items) }
        requires few { length self.now.entries.items < 2 ^ 32 }
        requires fits { FitsInRoom alone.old.desk.spool.doubt alone.old.desk.spool.memory self.now.entries.items }

        ensures standing { result.0 ≡ standing_in alone.old.desk.spool.memory }
        ensures made { (part : Part) (parts : List Part) → joined (part ∷ parts) ≡ self.now.entries.items → ArePartsOf (part ∷ parts)
            → RunsTo D.tells (alone_at alone.old) (joint_of result.1 (D.moment alone.new.desk.spool.disk).clock result.0 (part ∷ parts)) (alone_at alone.new) }
        ensures only { IfErr result.1 (λ fault. fault ≡ TakeFault.DiskFault) }
        ensures numbers { result.0.end + length self.now.entries.items ≤ 2 ^ 63 }
        ensures ids { alone.new.desk.ids ≡ alone.old.desk.ids }
    {
        let before = alone.standing();
        let all: &[Entry] = &self.entries;
        let result = alone.take_jointly(all);
        (before, result)
    }
}

// Answers letters whose takes were entered, and the words tell where the desk is. The desk and its ids are for the proof alone.
fn answer_entered<D: Disk, J: Naming>(
    steps: &Steps,
    locked: &mut PassSeat,
    alone: &Alone<D>,
    ids: &Ids,
    letters: Vec<Entered<D, J>>,
    group: Vec<Entry>,
    answers: &mut Vec<Answer<D, J>>,
)
    requires tables { (locked.old.table_id ≡ J.table.seats) × (steps.now.table_id ≡ J.table.seats) × (steps.now.table_id.words ≡ 4) }
    requires turn { IsTurn J.seats locked.old.me (with_ids ids.now None (alone_at alone.now)) }
    requires replays { Replays D.tells J.start J.run J.began (facts_in locked.old.me.0).log (with_ids ids.now None (alone_at alone.now)) }
    requires met { Met J.run (J.seats - 1) [] (facts_in locked.old.me.0).log }
    requires told { IsTold (alone_at alone.now) }
    requires joins { AreJoint (facts_in locked.old.me.0).log letters.items }
    requires group { group.items ≡ joined (parts_of letters.items) }
    requires room { vec_len answers.old + vec_len letters ≤ vec_capacity answers.old }

    ensures same { (locked.new.table_id ≡ locked.old.table_id) × (locked.new.me ≡ locked.old.me) }
    ensures answers { answers.new.items ≡ answers.old.items ++ numbers_of letters.items }
    ensures capacity { vec_capacity answers.new ≡ vec_capacity answers.old }
{
    let mut group = group.into_iter();
    let mut left = letters.into_iter();
    while let Some(letter) = left.next() {
        let answer = catch_up(steps, locked, alone, ids, letter, &mut group);
        answers.push_reserved(answer);
    }
}

// Enters the takes of letters that were stored as one group where the numbers `before` stood, or in which the disk failed, and puts an
// answer for each. The ids are for the proof alone.
fn enter_group<D: Disk, J: Naming>(
    steps: &Steps,
    locked: &mut PassSeat,
    alone: &mut Alone<D>,
    ids: &Ids,
    before: Standing,
    answer: Result<Receipt, TakeFault>,
    group: Group<D, J>,
    answers: &mut Vec<Answer<D, J>>,
)
    requires tables { (locked.old.table_id ≡ J.table.seats) × (steps.now.table_id ≡ J.table.seats) × (steps.now.table_id.words ≡ 4) }
    requires grouped { J.began.grouped ≡ true }
    requires stored { IsStoredAll ⟦<D as Disk>⟧ J.start J.run J.seats J.began ids.now locked.old.me group.entries.items before answer alone.old }
    requires numbers { before.end + length group.entries.items ≤ 2 ^ 63 }
    requires some { 0 < length group.letters.items }
    requires parts { ArePartsOf (parts_of group.letters.items) × AreRising 0 (parts_of group.letters.items) }
    requires entries { group.entries.items ≡ joined (parts_of group.letters.items) }
    requires room { (group.entered.items ≡ []) × (vec_len group.letters ≤ vec_capacity group.entered)
        × (vec_len answers.old + vec_len group.letters ≤ vec_capacity answers.old) }

    ensures table { locked.new.table_id ≡ J.table.seats }
    ensures turn { IsTurn J.seats locked.new.me (with_ids ids.now None (alone_at alone.new)) }
    ensures replays { Replays D.tells J.start J.run J.began (facts_in locked.new.me.0).log (with_ids ids.now None (alone_at alone.new)) }
    ensures met { Met J.run (J.seats - 1) [] (facts_in locked.new.me.0).log }
    ensures told { IsTold (alone_at alone.new) }
    ensures ids { alone.new.desk.ids ≡ alone.old.desk.ids }
    ensures answers { answers.new.items ≡ answers.old.items ++ numbers_of group.letters.items }
    ensures capacity { vec_capacity answers.new ≡ vec_capacity answers.old }
{
    let Group {
        letters,
        entries,
        mut entered,
    } = group;
    let stored = answer.is_ok();
    let all: &[Entry] = &entries;
    enter_all(
        steps,
        locked,
        alone,
        before,
        stored,
        letters,
        all,
        &mut entered,
    );
    write_words(steps, locked, alone);
    answer_entered(steps, locked, alone, ids, entered, entries, answers);
}

impl<D: Disk, J: Naming> Journal<D, J> {
    /// Enters the takes of letters that were stored as one group, and puts an answer for each.
    pub(crate) fn answer_group(
        &mut self,
        steps: &Steps,
        twins: &TwinSteps<D>,
        alone: &mut Alone<D>,
        twin: &mut TwinSeat<D>,
        before: Standing,
        answer: Result<Receipt, TakeFault>,
        group: Group<D, J>,
        answers: &mut Vec<Answer<D, J>>,
    )
        requires tables { (steps.now.table_id ≡ J.table.seats) × (steps.now.table_id.words ≡ 4) × (twins.now.table_id ≡ J.table.twins) × (0 < twins.now.table_id.words) }
        requires seat { twin.old.table_id ≡ J.table.twins }
        requires grouped { J.began.grouped ≡ true }
        requires made { AreMade ⟦<D as Disk>⟧ group.entries.items before answer twin.old.me alone.old }
        requires numbers { before.end + length group.entries.items ≤ 2 ^ 63 }
        requires some { 0 < length group.letters.items }
        requires parts { ArePartsOf (parts_of group.letters.items) × AreRising 0 (parts_of group.letters.items) }
        requires entries { group.entries.items ≡ joined (parts_of group.letters.items) }
        requires room { (group.entered.items ≡ []) × (vec_len group.letters ≤ vec_capacity group.entered)
            × (vec_len answers.old + vec_len group.letters ≤ vec_capacity answers.old) }

        ensures seat { twin.new.table_id ≡ J.table.twins }
        ensures twin { twin.new.me ≡ of_spool alone.new }
        ensures answers { answers.new.items ≡ answers.old.items ++ numbers_of group.letters.items }
        ensures capacity { vec_capacity answers.new ≡ vec_capacity answers.old }
    {
        meet(twins, &mut self.twin, twin);
        enter_group(
            steps,
            &mut self.locked,
            alone,
            &self.ids,
            before,
            answer,
            group,
            answers,
        );
        *twin = apart(twins, &mut self.twin, alone);
        self.level = Level::of(alone);
    }
}

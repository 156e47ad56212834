//! A letter whose entries stand in a group of several letters.
ghost use Rattle.std.specs.Prelude.{◌≡◌, ◌+◌, ◌-◌, ◌^◌, ◌<◌, ◌≤◌, List, [], ◌∷◌, ◌++◌, length, None, All, IfOk, IfErr};
ghost use Rattle.std.specs.Vec.{vec_capacity};
ghost use Rattle.std.specs.Vec.Iter.{into_iter_items};
ghost use Rattle.event_form.specs.declared.event.Entry.{Entry};
ghost use Rattle.event_form.specs.Entry.{IsEntry};
ghost use Rattle.spool_state.specs.Segment.{entries_text};
ghost use Rattle.spool_desk.specs.Alone.{alone_at};
ghost use Rattle.desk_access.specs.Call.{Record};
ghost use Rattle.desk_access.specs.Desk.{DeskState};
ghost use Rattle.desk_access.specs.Legal.{Met};
ghost use Rattle.spool_turns.specs.Rules.{made_by, after_call, with_record};
ghost use Rattle.desk_seats.specs.Passes.{LeadsAbove, AllJoin};
ghost use Rattle.spool_turns.specs.Passes.{IsTurn, IsLocked, locked_of, facts_in};
ghost use Rattle.spool_turns.specs.Replays.{Replays};
ghost use Rattle.spool_turns.specs.Stands.{with_ids, IsTold};
ghost use Rattle.spool_turns.specs.Joining.{entries_out, joint_record};

use crate::letter::{Answer, Letter};
use crate::naming::Naming;
use crate::rule::{PassSeat, Steps};
use crate::steps::{add_record, admit, see_all};
use desk_access::Standing;
use edge_disk::Disk;
use event_form::Entry;
use hec_ids::Ids;
use spool_answers::{Receipt, TakeFault};
use spool_desk::Alone;
use spool_slots::group_need;
use std::marker::{Brand, Model, PhantomData};
use std::vec::IntoIter;

/// How many bytes a group has beside its entries.
const GROUP_HEAD: u64 = 9;

/// What may come into a group: so many bytes of entries, so many entries, of a pass with this number or one above.
#[derive(Clone, Copy)]
pub(crate) struct Room {
    pub(crate) bytes: u64,
    pub(crate) count: u64,
    pub(crate) least: u64,
}

/// A letter whose entries stand in a group.
#[derive(Drop)]
pub(crate) struct Joined<J: Naming> {
    seat: PassSeat,
    number: u32,
    count: usize,
    front: bool,
    // where the entries were, and come back to
    place: Vec<Entry>,
    of: PhantomData<J>,
}

impl<J: Naming> Model for Joined<J> {
    ghost use Rattle.std.specs.Prelude.{◌≡◌, []};
    ghost use Rattle.std.specs.Vec.{vec_capacity};
    ghost use Rattle.spool_turns.specs.Rules.{PassView};
    ghost use Rattle.spool_turns.specs.Passes.{pass_in};
    ghost use Rattle.spool_turns.specs.Joining.{IsJoined};

    ghost Value = { PassView };

    ghost view = { λ l. pass_in l.seat.me.0 };

    ghost invariant = { λ l. (l.seat.table_id ≡ J.table.seats) × IsJoined J.run J.seats l.number l.count (vec_capacity l.place) l.front l.seat.me
        × (l.place.items ≡ []) };
}

impl<J: Naming> Joined<J> {
    /// How many entries it has in the group.
    pub(crate) fn count(&self) -> usize
        ensures { (result ≡ length (entries_out self.now.out)) × (0 < result) }
    {
        self.count
    }
}

/// Moves the entries of a letter to the end of a group that has room for them. Where it has none, the number is too small, or no memory
/// was found, the letter is given back.
pub(crate) fn join<J: Naming>(
    letter: Letter<J>,
    group: &mut Vec<Entry>,
    room: &mut Room,
) -> Result<Joined<J>, Letter<J>>
    ensures joined { IfOk result (λ one. (one.number ≡ letter) × (group.new.items ≡ group.old.items ++ entries_out one.out)
        × (1 ≤ length (entries_out one.out)) × All IsEntry (entries_out one.out)
        × (room.new.bytes + length (entries_text (entries_out one.out)) ≡ room.old.bytes)
        × (room.new.count + length (entries_out one.out) ≡ room.old.count)
        × (room.old.least ≤ one.number) × (room.new.least ≡ one.number + 1)) }
    ensures back { IfErr result (λ same. (same ≡ letter) × (group.new.items ≡ group.old.items) × (room.new ≡ room.old)) }
{
    let Letter {
        seat,
        number,
        mut entries,
        front,
        of,
    } = letter;
    let count = entries.len();
    let bytes = group_need(&entries) - GROUP_HEAD;
    if bytes > room.bytes
        || count as u64 > room.count
        || u64::from(number) < room.least
        || group.append(&mut entries).is_err()
    {
        return Err(Letter {
            seat,
            number,
            entries,
            front,
            of,
        });
    }
    room.bytes -= bytes;
    room.count -= count as u64;
    room.least = u64::from(number) + 1;
    Ok(Joined {
        seat,
        number,
        count,
        front,
        place: entries,
        of,
    })
}

/// A letter whose take stands in the journal. Its pass hasn't seen what was entered behind it.
#[derive(Drop)]
pub(crate) struct Entered<D: Disk, J: Naming> {
    seat: PassSeat,
    number: u32,
    count: usize,
    place: Vec<Entry>,
    answer: Result<Receipt, TakeFault>,
    of: PhantomData<J>,
    over: PhantomData<D>,
}

impl<D: Disk, J: Naming> Model for Entered<D, J> {
    ghost use Rattle.std.specs.Prelude.{◌≡◌, []};
    ghost use Rattle.std.specs.Vec.{vec_capacity};
    ghost use Rattle.spool_turns.specs.Rules.{PassView};
    ghost use Rattle.spool_turns.specs.Passes.{pass_in};
    ghost use Rattle.spool_turns.specs.Joining.{IsEntered};

    ghost Value = { PassView };

    ghost view = { λ l. pass_in l.seat.me.0 };

    ghost invariant = { λ l. (l.seat.table_id ≡ J.table.seats)
        × IsEntered J.start J.run J.seats l.number l.count (vec_capacity l.place) l.answer l.seat.me
        × (l.place.items ≡ []) };
}

/// Enters the take of a letter in the journal, with its answer. Its part stands behind `first` in the group, which was stored where the
/// numbers `before` stood. The desk is for the proof alone.
pub(crate) fn enter<D: Disk, J: Naming>(
    steps: &Steps,
    locked: &mut PassSeat,
    alone: &Alone<D>,
    before: Standing,
    first: &[Entry],
    part: &[Entry],
    answer: Result<Receipt, TakeFault>,
    letter: Joined<J>,
) -> Entered<D, J>
    requires tables { (locked.old.table_id ≡ J.table.seats) × (steps.now.table_id ≡ J.table.seats) × (steps.now.table_id.words ≡ 4) }
    requires view { IsLocked locked.old.me }
    requires met { Met J.run (J.seats - 1) [] (facts_in locked.old.me.0).log }
    requires part { part.now ≡ entries_out letter.out }
    requires receipt { IfOk answer (λ receipt. (receipt.count ≡ length part.now) × (receipt.first + receipt.count ≤ 2 ^ 63)) }
    requires only { IfErr answer (λ fault. fault ≡ TakeFault.DiskFault) }
    requires leads { (x : DeskState) → J.start x → LeadsAbove x ((facts_in locked.old.me.0).log
        ++ made_by letter.number (joint_record before (D.moment alone.now.desk.spool.disk).clock first.now part.now answer) ∷ [])
        (facts_in locked.old.me.0).end (facts_in locked.old.me.0).cursor }

    ensures table { locked.new.table_id ≡ J.table.seats }
    ensures locked { locked.new.me ≡ locked_of (with_record (facts_in locked.old.me.0)
        (made_by letter.number (joint_record before (D.moment alone.now.desk.spool.disk).clock first.now part.now answer))) }
    ensures met { Met J.run (J.seats - 1) [] (facts_in locked.new.me.0).log }
    ensures pass { result ≡ after_call (facts_in locked.old.me.0) letter
        (joint_record before (D.moment alone.now.desk.spool.disk).clock first.now part.now answer) }
{
    let Joined {
        mut seat,
        number,
        count,
        place,
        of,
        ..
    } = letter;
    admit(steps, locked, &mut seat);
    let seat = add_record::<
        Brand,
        Alone<D>,
        (Standing, &[Entry], &[Entry]),
        Result<Receipt, TakeFault>,
    >(steps, locked, alone, &(before, first, part), &answer);
    Entered {
        seat,
        number,
        count,
        place,
        answer,
        of,
        over: PhantomData,
    }
}

/// Moves so many entries from the front of a group to the place that has room for them.
fn bring_back(group: &mut IntoIter<Entry>, place: &mut Vec<Entry>, count: usize)
    requires none { place.old.items ≡ [] }
    requires room { count ≤ vec_capacity place.old }
    requires some { count ≤ length (into_iter_items group.old) }

    ensures items { into_iter_items group.old ≡ place.new.items ++ into_iter_items group.new }
    ensures count { length place.new.items ≡ count }
{
    while place.len() < count {
        let Some(entry) = group.next() else {
            unreachable!();
        };
        place.push_reserved(entry);
    }
}

/// Answers a letter whose take was entered: its pass sees the whole journal, which led to where the desk is, and its entries come back
/// from the front of the group. The desk and its ids are for the proof alone.
pub(crate) fn catch_up<D: Disk, J: Naming>(
    steps: &Steps,
    locked: &mut PassSeat,
    _alone: &Alone<D>,
    _ids: &Ids,
    letter: Entered<D, J>,
    group: &mut IntoIter<Entry>,
) -> Answer<D, J>
    requires tables { (locked.old.table_id ≡ J.table.seats) × (steps.now.table_id ≡ J.table.seats) × (steps.now.table_id.words ≡ 4) }
    requires turn { IsTurn J.seats locked.old.me (with_ids _ids.now None (alone_at _alone.now)) }
    requires replays { Replays D.tells J.start J.run J.began (facts_in locked.old.me.0).log (with_ids _ids.now None (alone_at _alone.now)) }
    requires met { Met J.run (J.seats - 1) [] (facts_in locked.old.me.0).log }
    requires told { IsTold (alone_at _alone.now) }
    requires joins { (behind : List Record) → letter.seen ++ behind ≡ (facts_in locked.old.me.0).log → AllJoin behind }
    requires entries { (rest : List Entry) × (into_iter_items group.old ≡ entries_out letter.out ++ rest) }

    ensures same { (locked.new.table_id ≡ locked.old.table_id) × (locked.new.me ≡ locked.old.me) }
    ensures number { result ≡ letter.number }
    ensures entries { into_iter_items group.old ≡ entries_out letter.out ++ into_iter_items group.new }
{
    let Entered {
        seat,
        number,
        count,
        mut place,
        answer,
        of,
        over,
    } = letter;
    let seat = see_all(steps, locked, seat);
    bring_back(group, &mut place, count);
    Answer {
        seat,
        number,
        entries: place,
        count,
        answer,
        of,
        over,
    }
}

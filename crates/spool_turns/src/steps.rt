//! What a call does to the seat under the lock and to the caller's.
ghost use Rattle.std.specs.Prelude.{◌≡◌, ◌+◌, ◌^◌, ◌<◌, ◌≤◌, [], None, Some};
ghost use mathlib.Core.List.{IsPrefix};
ghost use Rattle.desk_access.specs.Call.{Call, own_of};
ghost use Rattle.spool_desk.specs.Alone.{alone_at, record_of, RunsTo};
ghost use Rattle.spool_turns.specs.Rules.{Knows, Fresh, made_by, after_call, with_record, one_pass_more, new_pass};
ghost use Rattle.spool_turns.specs.Rules.{handed_by, sent_out, back_again};
ghost use Rattle.spool_turns.specs.Passes.{claim_at, IsClaim, number_in, handed_in};
ghost use Rattle.spool_turns.specs.Rules.{end_at, cursor_at, caught_up, merged, compared_pass, knowing_end, knowing_cursor};
ghost use Rattle.spool_turns.specs.Passes.{IsLocked, IsHosting, IsCalling, IsPass, locked_of, hosting_of, calling_of, pass_of, facts_in, hosted_in, caller_in, pass_in};
ghost use Rattle.spool_turns.specs.Stands.{IsTold};

use crate::rule::{
    Admits, Compares, HandedIn, HandsOver, Learns, LoadsCursor, LoadsEnd, MakesPass, Merges,
    PassSeat, Recorded, Records, SeesAll, SendsOut, SettlesClaim, Steps, TakesBack, WritesCursor,
    WritesEnd,
};
use desk_access::Access;
use edge_disk::Disk;
use event_form::Entry;
use spool_desk::Alone;

/// Makes a new pass, with this number.
pub(crate) fn make_pass(steps: &Steps, locked: &mut PassSeat, number: u64) -> PassSeat
    requires tables { (locked.old.table_id ≡ steps.now.table_id) × (steps.now.table_id.words ≡ 4) }
    requires view { IsLocked locked.old.me }
    requires number { (number ≡ (facts_in locked.old.me.0).made) × (number + 1 < 2 ^ 64) }

    ensures tables { (locked.new.table_id ≡ locked.old.table_id) × (result.table_id ≡ locked.old.table_id) }
    ensures locked { locked.new.me ≡ locked_of (one_pass_more (facts_in locked.old.me.0)) }
    ensures pass { result.me ≡ pass_of (new_pass (facts_in locked.old.me.0)) }
{
    steps.store::<MakesPass>(locked, 3, number + 1);
    steps.split_seat::<Admits>(locked)
}

/// The pass comes under the lock, and what it knows is right.
pub(crate) fn admit(steps: &Steps, locked: &mut PassSeat, seat: &mut PassSeat)
    requires tables { (locked.old.table_id ≡ steps.now.table_id) × (seat.old.table_id ≡ steps.now.table_id) × (steps.now.table_id.words ≡ 4) }
    requires views { IsLocked locked.old.me × IsPass seat.old.me }

    ensures tables { (locked.new.table_id ≡ locked.old.table_id) × (seat.new.table_id ≡ seat.old.table_id) }
    ensures locked { locked.new.me ≡ calling_of (facts_in locked.old.me.0) (pass_in seat.old.me.0) }
    ensures knew { Knows (facts_in locked.old.me.0) (pass_in seat.old.me.0) }
{
    let whole = steps.split_seat::<HandsOver>(seat);
    steps.join_seat::<Admits>(locked, whole);
    steps.load::<Learns>(locked, 0);
}

/// What a pass knows is right.
pub(crate) fn learn(steps: &Steps, locked: &mut PassSeat, seat: &mut PassSeat)
    requires tables { (locked.old.table_id ≡ steps.now.table_id) × (seat.old.table_id ≡ steps.now.table_id) × (steps.now.table_id.words ≡ 4) }
    requires views { IsLocked locked.old.me × IsPass seat.old.me }

    ensures same { (locked.new.table_id ≡ locked.old.table_id) × (locked.new.me ≡ locked.old.me) }
    ensures pass { (seat.new.table_id ≡ seat.old.table_id) × (seat.new.me ≡ seat.old.me) }
    ensures knew { Knows (facts_in locked.old.me.0) (pass_in seat.old.me.0) }
{
    admit(steps, locked, seat);
    *seat = steps.split_seat::<Admits>(locked);
}

/// The pass comes under the lock, sees the whole journal and the words as they are, and leaves it.
pub(crate) fn see_all(steps: &Steps, locked: &mut PassSeat, mut seat: PassSeat) -> PassSeat
    requires tables { (locked.old.table_id ≡ steps.now.table_id) × (seat.table_id ≡ steps.now.table_id) × (steps.now.table_id.words ≡ 4) }
    requires views { IsLocked locked.old.me × IsPass seat.me }

    ensures same { (locked.new.table_id ≡ locked.old.table_id) × (locked.new.me ≡ locked.old.me) }
    ensures table { result.table_id ≡ seat.table_id }
    ensures pass { result.me ≡ pass_of (caught_up (facts_in locked.old.me.0) (pass_in seat.me.0)) }
    ensures knew { Knows (facts_in locked.old.me.0) (pass_in seat.me.0) }
{
    admit(steps, locked, &mut seat);
    steps.load::<SeesAll>(locked, 0);
    steps.split_seat::<Admits>(locked)
}

/// Writes the words of the end and the cursor, as the desk answers them. A pass may be under the lock.
pub(crate) fn write_words<D: Disk>(steps: &Steps, locked: &mut PassSeat, alone: &mut Alone<D>)
    requires tables { (locked.old.table_id ≡ steps.now.table_id) × (steps.now.table_id.words ≡ 4) }
    requires view { IsHosting locked.old.me }
    requires words { ((facts_in locked.old.me.0).end ≤ alone.old.end_told) × ((facts_in locked.old.me.0).cursor ≤ alone.old.cursor_told) }

    ensures run { RunsTo D.tells (alone_at alone.old) [] (alone_at alone.new) }
    ensures kept { (call : Call) → record_of call (alone_at alone.new) ≡ record_of call (alone_at alone.old) }
    ensures told { IsTold (alone_at alone.new) }
    ensures ids { alone.new.desk.ids ≡ alone.old.desk.ids }
    ensures table { locked.new.table_id ≡ locked.old.table_id }
    ensures locked { locked.new.me
        ≡ hosting_of (cursor_at alone.new.cursor_told (end_at alone.new.end_told (facts_in locked.old.me.0))) (hosted_in locked.old.me.0) }
{
    let end = alone.end();
    let cursor = alone.cursor();
    steps.store::<WritesEnd>(locked, 1, end);
    steps.store::<WritesCursor>(locked, 2, cursor);
}

/// Writes the words of the end and the cursor during the call of a pass.
pub(crate) fn publish<D: Disk>(steps: &Steps, locked: &mut PassSeat, alone: &mut Alone<D>)
    requires tables { (locked.old.table_id ≡ steps.now.table_id) × (steps.now.table_id.words ≡ 4) }
    requires view { IsCalling locked.old.me }
    requires words { ((facts_in locked.old.me.0).end ≤ alone.old.end_told) × ((facts_in locked.old.me.0).cursor ≤ alone.old.cursor_told) }

    ensures run { RunsTo D.tells (alone_at alone.old) [] (alone_at alone.new) }
    ensures kept { (call : Call) → record_of call (alone_at alone.new) ≡ record_of call (alone_at alone.old) }
    ensures told { IsTold (alone_at alone.new) }
    ensures ids { alone.new.desk.ids ≡ alone.old.desk.ids }
    ensures table { locked.new.table_id ≡ locked.old.table_id }
    ensures locked { locked.new.me
        ≡ calling_of (cursor_at alone.new.cursor_told (end_at alone.new.end_told (facts_in locked.old.me.0))) (caller_in locked.old.me.0) }
{
    write_words(steps, locked, alone);
}

/// Adds a record of the call to the journal and to what the caller knows, and lets the caller go. What is passed
/// beside the seat is for the proof alone.
pub(crate) fn add_record<C: Recorded, A, X, Y>(
    steps: &Steps,
    locked: &mut PassSeat,
    _desk: &A,
    _call: &X,
    _answer: &Y,
) -> PassSeat
    requires tables { (locked.old.table_id ≡ steps.now.table_id) × (steps.now.table_id.words ≡ 4) }
    requires view { IsCalling locked.old.me }

    ensures tables { (locked.new.table_id ≡ locked.old.table_id) × (result.table_id ≡ locked.old.table_id) }
    ensures locked { locked.new.me ≡ locked_of (with_record (facts_in locked.old.me.0) (made_by (caller_in locked.old.me.0).number C.one)) }
    ensures pass { result.me ≡ pass_of (after_call (facts_in locked.old.me.0) (caller_in locked.old.me.0) C.one) }
{
    steps.load::<Records<C>>(locked, 0);
    steps.split_seat::<Admits>(locked)
}

/// The journal has no record of a number that no pass has.
pub(crate) fn check_numbers(steps: &Steps, locked: &mut PassSeat)
    requires tables { (locked.old.table_id ≡ steps.now.table_id) × (steps.now.table_id.words ≡ 4) }
    requires view { IsLocked locked.old.me }

    ensures same { (locked.new.table_id ≡ locked.old.table_id) × (locked.new.me ≡ locked.old.me) }
    ensures none { Fresh (facts_in locked.old.me.0) }
{
    steps.load::<Learns>(locked, 0);
}

/// What a pass knows is right. The pass is used up.
pub(crate) fn check_pass(steps: &Steps, locked: &mut PassSeat, seat: PassSeat)
    requires tables { (locked.old.table_id ≡ steps.now.table_id) × (seat.table_id ≡ steps.now.table_id) × (steps.now.table_id.words ≡ 4) }
    requires views { IsLocked locked.old.me × IsPass seat.me }

    ensures same { (locked.new.table_id ≡ locked.old.table_id) × (locked.new.me ≡ locked.old.me) }
    ensures knew { Knows (facts_in locked.old.me.0) (pass_in seat.me.0) }
{
    steps.join_seat::<Admits>(locked, seat);
    steps.load::<Learns>(locked, 0);
    let _seat = steps.split_seat::<Admits>(locked);
}

/// Lets one pass know what another has seen.
pub(crate) fn merge(steps: &Steps, seat: &mut PassSeat, other: &mut PassSeat)
    requires tables { (seat.old.table_id ≡ steps.now.table_id) × (other.old.table_id ≡ steps.now.table_id) × (steps.now.table_id.words ≡ 4) }
    requires views { IsPass seat.old.me × IsPass other.old.me }

    ensures same { (other.new.table_id ≡ other.old.table_id) × (other.new.me ≡ other.old.me) × (seat.new.table_id ≡ seat.old.table_id) }
    ensures merged { seat.new.me ≡ pass_of (compared_pass (merged (pass_in seat.old.me.0) (pass_in other.old.me.0))) }
    ensures first { IsPrefix (pass_in seat.old.me.0).seen (pass_in seat.new.me.0).seen }
    ensures second { IsPrefix (pass_in other.old.me.0).seen (pass_in seat.new.me.0).seen }
    ensures own { own_of (pass_in seat.old.me.0).number (pass_in seat.new.me.0).seen ≡ (pass_in seat.old.me.0).own }
{
    let copy = steps.split_seat::<Merges>(other);
    steps.join_seat::<Merges>(seat, copy);
    steps.load::<Compares>(seat, 0);
}

/// A pass goes out with these entries: its seat keeps the claim.
pub(crate) fn send_out<E: HandedIn>(
    steps: &Steps,
    seat: &mut PassSeat,
    _entries: &[Entry],
    _front: bool,
) -> PassSeat
    requires tables { (seat.old.table_id ≡ steps.now.table_id) × (steps.now.table_id.words ≡ 4) }
    requires view { IsPass seat.old.me }
    requires stays { (pass_in seat.old.me.0).out ≡ None }

    ensures tables { (seat.new.table_id ≡ seat.old.table_id) × (result.table_id ≡ seat.old.table_id) }
    ensures claim { seat.new.me ≡ claim_at (pass_in seat.old.me.0).number (handed_by (pass_in seat.old.me.0) E.entries E.front) }
    ensures out { result.me ≡ pass_of (sent_out (pass_in seat.old.me.0) E.entries E.front) }
{
    steps.split_seat::<SendsOut<E>>(seat)
}

/// The pass of the claim's number comes back to it, and was out with what the claim says.
pub(crate) fn take_back(steps: &Steps, seat: &mut PassSeat, out: PassSeat)
    requires tables { (seat.old.table_id ≡ steps.now.table_id) × (out.table_id ≡ steps.now.table_id) × (steps.now.table_id.words ≡ 4) }
    requires views { IsClaim seat.old.me × IsPass out.me }
    requires number { (pass_in out.me.0).number ≡ number_in seat.old.me.0 }

    ensures table { seat.new.table_id ≡ seat.old.table_id }
    ensures back { seat.new.me ≡ pass_of (back_again (pass_in out.me.0)) }
    ensures was { (pass_in out.me.0).out ≡ Some (handed_in seat.old.me.0) }
{
    steps.join_seat::<TakesBack>(seat, out);
    steps.load::<SettlesClaim>(seat, 0);
}

/// Loads the word of the end.
pub(crate) fn load_end(steps: &Steps, seat: &mut PassSeat) -> u64
    requires tables { (seat.old.table_id ≡ steps.now.table_id) × (steps.now.table_id.words ≡ 4) }
    requires view { IsPass seat.old.me }

    ensures same { seat.new.table_id ≡ seat.old.table_id }
    ensures end { seat.new.me ≡ pass_of (knowing_end result (pass_in seat.old.me.0)) }
    ensures grown { ((pass_in seat.old.me.0).end_known ≤ result) × (result ≤ 2 ^ 63) }
{
    steps.load::<LoadsEnd>(seat, 1)
}

/// Loads the word of the cursor.
pub(crate) fn load_cursor(steps: &Steps, seat: &mut PassSeat) -> u64
    requires tables { (seat.old.table_id ≡ steps.now.table_id) × (steps.now.table_id.words ≡ 4) }
    requires view { IsPass seat.old.me }

    ensures same { seat.new.table_id ≡ seat.old.table_id }
    ensures cursor { seat.new.me ≡ pass_of (knowing_cursor result (pass_in seat.old.me.0)) }
    ensures grown { (pass_in seat.old.me.0).cursor_known ≤ result }
{
    steps.load::<LoadsCursor>(seat, 2)
}

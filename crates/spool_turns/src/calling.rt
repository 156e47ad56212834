//! A call that the desk has answered is entered in the journal.
ghost use Rattle.std.specs.Prelude.{◌≡◌, ◌≤◌, []};
ghost use Rattle.desk_access.specs.Call.{Call};
ghost use Rattle.spool_desk.specs.Alone.{alone_at, record_of, RunsTo};
ghost use Rattle.spool_turns.specs.Rules.{Knows, made_by, after_call, with_record, end_at, cursor_at};
ghost use Rattle.spool_turns.specs.Passes.{IsLocked, IsPass, locked_of, pass_of, facts_in, pass_in};
ghost use Rattle.spool_turns.specs.Stands.{IsTold};

use crate::rule::{PassSeat, Recorded, Steps};
use crate::steps::{add_record, admit, publish};
use crate::twin::TwinSeat;
use edge_disk::Disk;
use spool_desk::Alone;

/// Enters a call of the pass that the desk has answered: the pass comes under the lock, the words of the end and the cursor are written,
/// and the record is added to the journal, of which the pass has then seen the whole. The call and its answer are for the proof alone.
pub(crate) fn enter_call<C: Recorded, D: Disk, X, Y>(
    steps: &Steps,
    locked: &mut PassSeat,
    alone: &mut Alone<D>,
    seat: &mut PassSeat,
    call: &X,
    answer: &Y,
)
    requires tables { (locked.old.table_id ≡ steps.now.table_id) × (seat.old.table_id ≡ steps.now.table_id) × (steps.now.table_id.words ≡ 4) }
    requires views { IsLocked locked.old.me × IsPass seat.old.me }
    requires words { ((facts_in locked.old.me.0).end ≤ alone.old.end_told) × ((facts_in locked.old.me.0).cursor ≤ alone.old.cursor_told) }

    ensures run { RunsTo D.tells (alone_at alone.old) [] (alone_at alone.new) }
    ensures kept { (call : Call) → record_of call (alone_at alone.new) ≡ record_of call (alone_at alone.old) }
    ensures told { IsTold (alone_at alone.new) }
    ensures ids { alone.new.desk.ids ≡ alone.old.desk.ids }
    ensures tables { (locked.new.table_id ≡ locked.old.table_id) × (seat.new.table_id ≡ seat.old.table_id) }
    ensures knew { Knows (facts_in locked.old.me.0) (pass_in seat.old.me.0) }
    ensures locked { locked.new.me ≡ locked_of (with_record (cursor_at alone.new.cursor_told (end_at alone.new.end_told (facts_in locked.old.me.0)))
        (made_by (pass_in seat.old.me.0).number C.one)) }
    ensures pass { seat.new.me ≡ pass_of (after_call (cursor_at alone.new.cursor_told (end_at alone.new.end_told (facts_in locked.old.me.0)))
        (pass_in seat.old.me.0) C.one) }
{
    admit(steps, locked, seat);
    publish(steps, locked, alone);
    *seat = add_record::<C, Alone<D>, X, Y>(steps, locked, alone, call, answer);
}

/// Enters a call of the ids that they have answered: the pass comes under the lock, and the record is added to the journal, of which the
/// pass has then seen the whole. The words stay. The twin, the call and its answer are for the proof alone.
pub(crate) fn enter_idle<C: Recorded, D: Disk, X, Y>(
    steps: &Steps,
    locked: &mut PassSeat,
    twin: &TwinSeat<D>,
    seat: &mut PassSeat,
    call: &X,
    answer: &Y,
)
    requires tables { (locked.old.table_id ≡ steps.now.table_id) × (seat.old.table_id ≡ steps.now.table_id) × (steps.now.table_id.words ≡ 4) }
    requires views { IsLocked locked.old.me × IsPass seat.old.me }

    ensures tables { (locked.new.table_id ≡ locked.old.table_id) × (seat.new.table_id ≡ seat.old.table_id) }
    ensures knew { Knows (facts_in locked.old.me.0) (pass_in seat.old.me.0) }
    ensures locked { locked.new.me ≡ locked_of (with_record (facts_in locked.old.me.0) (made_by (pass_in seat.old.me.0).number C.one)) }
    ensures pass { seat.new.me ≡ pass_of (after_call (facts_in locked.old.me.0) (pass_in seat.old.me.0) C.one) }
{
    admit(steps, locked, seat);
    *seat = add_record::<C, TwinSeat<D>, X, Y>(steps, locked, twin, call, answer);
}

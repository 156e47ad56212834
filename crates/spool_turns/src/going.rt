//! A pass goes out with entries, and comes back with the answer.
ghost use Rattle.std.specs.Prelude.{◌≡◌, ◌+◌, ◌^◌, ◌<◌, ◌≤◌, None, false, true, length, take, All, IfOk, IfErr};
ghost use Rattle.event_form.specs.Entry.{IsEntry};
ghost use Rattle.spool_answers.specs.Take.{IsRefusal};
ghost use Rattle.desk_access.specs.Call.{takes};
ghost use Rattle.desk_access.specs.Batch.{MayTake, MayUse, IsPlain};
ghost use Rattle.desk_access.specs.Legal.{IsNext, IsUnused};
ghost use Rattle.spool_turns.specs.Rules.{handed_by};
ghost use Rattle.desk_seats.specs.Passes.{Calls};
ghost use Rattle.spool_turns.specs.Passes.{IsClaim, IsPass, Sound, claim_at, number_in, handed_in, pass_in, known_of};
ghost use Rattle.spool_turns.specs.Replays.{IsReal};
ghost use Rattle.spool_turns.specs.Letters.{claimed};

use crate::letter::{Answer, Letter};
use crate::naming::Naming;
use crate::rule::{PassSeat, Steps};
use crate::steps::{send_out, take_back};
use desk_access::Front;
use edge_disk::Disk;
use event_form::Entry;
use std::marker::{Brand, PhantomData};

/// The pass goes out with a letter, and its seat keeps the claim.
pub(crate) fn send<J: Naming>(
    steps: &Steps,
    seat: &mut PassSeat,
    number: u32,
    entries: Vec<Entry>,
    front: bool,
) -> Letter<J>
    requires tables { (seat.old.table_id ≡ steps.now.table_id) × (steps.now.table_id ≡ J.table.seats) × (steps.now.table_id.words ≡ 4) }
    requires pass { IsPass seat.old.me × ((pass_in seat.old.me.0).out ≡ None) }
    requires number { ((pass_in seat.old.me.0).number ≡ number) × (number < J.seats) }
    requires some { 0 < length entries.items }
    requires few { length entries.items < 2 ^ 32 }
    requires limits { All IsEntry entries.items }
    requires next { MayTake (IsNext J.run number (pass_in seat.old.me.0).own) entries.items }
    requires units { MayUse (IsUnused (pass_in seat.old.me.0).own) entries.items }
    requires plain { front ≡ true → All IsPlain entries.items }

    ensures table { seat.new.table_id ≡ seat.old.table_id }
    ensures claim { seat.new.me ≡ claim_at number (handed_by (pass_in seat.old.me.0) entries.items front) }
{
    let all: &[Entry] = &entries;
    let out = send_out::<Brand>(steps, seat, all, front);
    Letter {
        seat: out,
        number,
        entries,
        front,
        of: PhantomData,
    }
}

/// The pass comes back to its claim: it is as after a call like any other.
pub(crate) fn collect<D: Disk, J: Naming>(
    steps: &Steps,
    seat: &mut PassSeat,
    answer: Answer<D, J>,
) -> Front
    requires tables { (seat.old.table_id ≡ steps.now.table_id) × (steps.now.table_id ≡ J.table.seats) × (steps.now.table_id.words ≡ 4) }
    requires claim { IsClaim seat.old.me }
    requires number { answer ≡ number_in seat.old.me.0 }

    ensures table { seat.new.table_id ≡ seat.old.table_id }
    ensures pass { IsPass seat.new.me × Sound J.start (pass_in seat.new.me.0) × ((pass_in seat.new.me.0).number ≡ number_in seat.old.me.0)
        × ((pass_in seat.new.me.0).out ≡ None) }
    ensures call { Calls J.start J.run J.seats (claimed (number_in seat.old.me.0) (handed_in seat.old.me.0))
        (takes (take result.count (handed_in seat.old.me.0).entries) result.answer) (known_of (pass_in seat.new.me.0)) }
    ensures real { IsReal ⟦<D as Disk>⟧ J.start J.run J.seats J.began (pass_in seat.new.me.0).seen }
    ensures same { result.entries.items ≡ (handed_in seat.old.me.0).entries }
    ensures front { (0 < result.count) × (result.count ≤ length (handed_in seat.old.me.0).entries) }
    ensures whole { (handed_in seat.old.me.0).front ≡ false → result.count ≡ length (handed_in seat.old.me.0).entries }
    ensures receipt { IfOk result.answer (λ receipt. (receipt.count ≡ result.count) × (receipt.first + receipt.count ≤ 2 ^ 63)) }
    ensures alone { (handed_in seat.old.me.0).front ≡ true → IfErr result.answer (λ fault. IsRefusal fault → result.count ≡ 1) }
{
    let Answer {
        seat: out,
        entries,
        count,
        answer,
        ..
    } = answer;
    take_back(steps, seat, out);
    Front {
        entries,
        count,
        answer,
    }
}

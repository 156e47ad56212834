//! The walk page by page.
ghost use Rattle.std.specs.Prelude.{◌≡◌, ◌↔◌, ◌^◌, ◌<◌, ◌≤◌, ℕ, [], ◌∷◌, true, IfErr, IsErrOf};
ghost use Rattle.event_form.specs.declared.event.Entry.{Entry as TheEntry};
ghost use Rattle.edge_disk.specs.Calls.{Calls};
ghost use Rattle.spool_state.specs.SpoolState.{SpoolState};
ghost use Rattle.spool_answers.specs.Take.{IsRefusal};
ghost use Rattle.spool_log.specs.Changing.Take.{RefusedBy};
ghost use Rattle.spool_log.specs.Memory.{end_of};
ghost use Rattle.spool_log.specs.declared.memory.Memory.{Memory};
ghost use Rattle.spool_log.specs.State.{view, IsIn};
ghost use Rattle.spool_move.specs.Leave.{MayMove};
ghost use Rattle.spool_move.specs.Moves.{Moves};
ghost use Rattle.spool_move.specs.Said.{IsSaidBy};
ghost use Rattle.spool_move.specs.Stands.{IsMoving};
ghost use Rattle.spool_move.specs.Turns.{LeavesBoth};
ghost use Rattle.spool_move.specs.Walking.{AnswersFault, GivesFirst, IsOnCourse, IsUnderWay, IsWanting, WalksPage};

use crate::MoveFault;
use crate::walking::course::Course;
use crate::walking::giving::give_up;
use crate::walking::taking::take_page;
use edge_disk::Disk;
use spool_log::{Spool, TakeFault};
use std::collections::BTreeSet;

/// How many entries are walked before they are given up.
const PAGE: u32 = 128;

/// The source gives up all numbers below this one, and that is the answer; but where it fails, its fault is.
fn give_up_first<D: Disk>(source: &mut Spool<D>, upto: u64, answer: MoveFault) -> MoveFault
    requires within { upto ≤ end_of source.old.memory }
    requires earned { (n : ℕ) → n < upto → D.may_release n }
    requires refusal { IsWanting answer }

    ensures source_calls { Calls (result ≡ MoveFault.SourceFault) (D.moment source.old.disk) (D.moment source.new.disk) }
    ensures other { result ≡ MoveFault.TargetFault → ⊥ }
    ensures told { (target : Memory) → IsSaidBy source.new.memory target answer → IsSaidBy source.new.memory target result }
    ensures gives { (s : SpoolState) → D.tells → IsIn s [] (view source.old.memory source.old.doubt (D.moment source.old.disk))
        → GivesFirst s upto answer result (view source.old.memory source.old.doubt (D.moment source.old.disk))
        (view source.new.memory source.new.doubt (D.moment source.new.disk)) }
{
    match give_up(source, upto) {
        Ok(()) => answer,
        Err(fault) => fault,
    }
}

/// The answer where the target refused an entry. Where that was for want of room or of numbers, the source first gives up what was
/// walked, and where that fails, its fault is the answer.
fn refuse<D: Disk>(source: &mut Spool<D>, upto: u64, fault: TakeFault) -> MoveFault
    requires within { upto ≤ end_of source.old.memory }
    requires earned { IsRefusal fault → (n : ℕ) → n < upto → D.may_release n }

    ensures source_calls { Calls (result ≡ MoveFault.SourceFault) (D.moment source.old.disk) (D.moment source.new.disk) }
    ensures target_fault { (result ≡ MoveFault.TargetFault) ↔ (fault ≡ TakeFault.DiskFault) }
    ensures still { fault ≡ TakeFault.DiskFault → source.new ≡ source.old }
    ensures told { (target : Memory) (e : TheEntry) → RefusedBy target (e ∷ []) fault → IsSaidBy source.new.memory target result }
    ensures answers { (s : SpoolState) → D.tells → IsIn s [] (view source.old.memory source.old.doubt (D.moment source.old.disk))
        → AnswersFault s upto fault result (view source.old.memory source.old.doubt (D.moment source.old.disk))
        (view source.new.memory source.new.doubt (D.moment source.new.disk)) }
{
    match fault {
        TakeFault::TooLarge { need, most } => {
            give_up_first(source, upto, MoveFault::TooLarge { need, most })
        }
        TakeFault::Spent { end } => give_up_first(source, upto, MoveFault::Spent { end }),
        TakeFault::Full { need, room } => {
            give_up_first(source, upto, MoveFault::Full { need, room })
        }
        TakeFault::NotSpool { at } => MoveFault::NotSpool { at },
        TakeFault::NoMemory => MoveFault::NoMemory,
        TakeFault::DiskFault => MoveFault::TargetFault,
    }
}

/// Walks the next entries of the source, at most 128: those whose numbers the set hasn't are taken by the target, and then all are
/// given up. Whether there was one.
fn move_page<D: Disk, E: Disk>(
    source: &mut Spool<D>,
    target: &mut Spool<E>,
    tag: u32,
    present: &BTreeSet<u64>,
    course: &mut Course,
) -> Result<bool, MoveFault>
    requires earned { MayMove D.tells D.moment E.tells E.moment tag D.may_release }
    requires few { course.old.taken ≤ course.old.upto }
    requires under_way { D.tells → E.tells → IsUnderWay tag present.now course.old
        (view source.old.memory source.old.doubt (D.moment source.old.disk)) (view target.old.memory target.old.doubt (E.moment target.old.disk)) }

    ensures few { course.new.taken ≤ course.new.upto }
    ensures rises { result ≡ Ok true → (course.old.upto < course.new.upto) × (course.new.upto ≤ 2 ^ 63) }
    ensures source_calls { Calls (IsErrOf result MoveFault.SourceFault) (D.moment source.old.disk) (D.moment source.new.disk) }
    ensures target_calls { Calls (IsErrOf result MoveFault.TargetFault) (E.moment target.old.disk) (E.moment target.new.disk) }
    ensures told { IfErr result (λ fault. IsSaidBy source.new.memory target.new.memory fault) }
    ensures walks { (m u : SpoolState) → D.tells → E.tells → IsOnCourse tag m u present.now course.old
        (view source.old.memory source.old.doubt (D.moment source.old.disk)) (view target.old.memory target.old.doubt (E.moment target.old.disk))
        → WalksPage tag m u present.now course.new result
        (view source.new.memory source.new.doubt (D.moment source.new.disk)) (view target.new.memory target.new.doubt (E.moment target.new.disk))
        × LeavesBoth D.moment E.moment (IsMoving tag m u) source.old.disk target.old.disk source.new.disk target.new.disk }
{
    if source.end() <= course.upto {
        return Ok(false);
    }
    let page = match source.pending(course.upto, PAGE) {
        Ok(page) => page,
        Err(fault) => return Err(MoveFault::of_source(fault)),
    };
    if page.is_empty() {
        return Ok(false);
    }
    match take_page(target, tag, present, page, course) {
        Ok(()) => {
            give_up(source, course.upto)?;
            Ok(true)
        }
        Err(fault) => Err(refuse(source, course.upto, fault)),
    }
}

/// Walks all entries that the source has left, page by page. How many the target took.
pub(crate) fn move_all<D: Disk, E: Disk>(
    source: &mut Spool<D>,
    target: &mut Spool<E>,
    tag: u32,
    present: &BTreeSet<u64>,
) -> Result<u64, MoveFault>
    requires earned { MayMove D.tells D.moment E.tells E.moment tag D.may_release }
    requires under_way { D.tells → E.tells → IsUnderWay tag present.now (record { upto = 0; taken = 0 })
        (view source.old.memory source.old.doubt (D.moment source.old.disk)) (view target.old.memory target.old.doubt (E.moment target.old.disk)) }

    ensures source_calls { Calls (IsErrOf result MoveFault.SourceFault) (D.moment source.old.disk) (D.moment source.new.disk) }
    ensures target_calls { Calls (IsErrOf result MoveFault.TargetFault) (E.moment target.old.disk) (E.moment target.new.disk) }
    ensures told { IfErr result (λ fault. IsSaidBy source.new.memory target.new.memory fault) }
    ensures moves { (m u : SpoolState) → D.tells → E.tells → IsOnCourse tag m u present.now (record { upto = 0; taken = 0 })
        (view source.old.memory source.old.doubt (D.moment source.old.disk)) (view target.old.memory target.old.doubt (E.moment target.old.disk))
        → Moves tag m u result
        (view source.new.memory source.new.doubt (D.moment source.new.disk)) (view target.new.memory target.new.doubt (E.moment target.new.disk))
        × LeavesBoth D.moment E.moment (IsMoving tag m u) source.old.disk target.old.disk source.new.disk target.new.disk }
{
    let mut course = Course { upto: 0, taken: 0 };
    loop {
        if !move_page(source, target, tag, present, &mut course)? {
            return Ok(course.taken);
        }
    }
}

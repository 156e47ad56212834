//! Entries taken by the target.
ghost use Rattle.std.specs.Prelude.{◌≡◌, ◌+◌, ◌<◌, ◌≤◌, ◌^◌, ℕ, List, [], ◌∷◌, length, OnErr, OnOk, IfErr, IsErrOf};
ghost use Rattle.event_form.specs.Entry.{IsEntry};
ghost use Rattle.event_form.specs.declared.event.Entry.{Entry as TheEntry};
ghost use Rattle.edge_disk.specs.Calls.{Calls};
ghost use Rattle.spool_state.specs.SpoolState.{SpoolState};
ghost use Rattle.spool_answers.specs.Pend.{AreNumbered, given_entries};
ghost use Rattle.spool_log.specs.Changing.Take.{RefusedBy};
ghost use Rattle.spool_log.specs.State.{view, IsIn};
ghost use Rattle.spool_move.specs.Moved.{moved};
ghost use Rattle.spool_move.specs.Reading.{as_entry};
ghost use Rattle.spool_move.specs.Walking.{absent, TakesOne, TakesPage, WalksOne};

use crate::entry::moved_entry;
use crate::walking::course::Course;
use edge_disk::Disk;
use spool_log::{Numbered, Spool, TakeFault};
use std::collections::BTreeSet;

/// The target takes the entry as it is moved with this tag, as a group of its own.
pub fn take_one<E: Disk>(target: &mut Spool<E>, tag: u32, one: Numbered) -> Result<(), TakeFault>
    requires limits { IsEntry one.entry }

    ensures calls { Calls (IsErrOf result TakeFault.DiskFault) (E.moment target.old.disk) (E.moment target.new.disk) }
    ensures refused { IfErr result (λ fault. RefusedBy target.new.memory (moved tag (as_entry one) ∷ []) fault) }
    ensures taken { (t : SpoolState) → E.tells → IsIn t [] (view target.old.memory target.old.doubt (E.moment target.old.disk))
        → TakesOne t (moved tag (as_entry one)) result (view target.old.memory target.old.doubt (E.moment target.old.disk))
        (view target.new.memory target.new.doubt (E.moment target.new.disk)) }
{
    let group = [moved_entry(tag, one)];
    match target.take(&group) {
        Ok(_) => Ok(()),
        Err(fault) => Err(fault),
    }
}

/// Walks one entry: the target takes it, unless the set has its number. After an error the course is as it was.
fn walk_one<E: Disk>(
    target: &mut Spool<E>,
    tag: u32,
    present: &BTreeSet<u64>,
    one: Numbered,
    course: &mut Course,
) -> Result<(), TakeFault>
    requires limits { IsEntry one.entry }
    requires small { one.number < 2 ^ 63 }
    requires few { course.old.taken ≤ one.number }

    ensures counted { OnOk result ((course.new.upto ≡ one.number + 1)
        × (course.new.taken ≡ course.old.taken + length (absent present.now (as_entry one ∷ [])))) }
    ensures few { OnOk result (course.new.taken ≤ course.new.upto) }
    ensures still { OnErr result (course.new ≡ course.old) }
    ensures calls { Calls (IsErrOf result TakeFault.DiskFault) (E.moment target.old.disk) (E.moment target.new.disk) }
    ensures refused { IfErr result (λ fault. (e : TheEntry) × RefusedBy target.new.memory (e ∷ []) fault) }
    ensures walked { (t : SpoolState) → E.tells → IsIn t [] (view target.old.memory target.old.doubt (E.moment target.old.disk))
        → WalksOne tag present.now (as_entry one) t result
        (view target.old.memory target.old.doubt (E.moment target.old.disk)) (view target.new.memory target.new.doubt (E.moment target.new.disk)) }
{
    let upto = one.number + 1;
    if present.contains(&one.number) {
        course.upto = upto;
        return Ok(());
    }
    take_one(target, tag, one)?;
    course.upto = upto;
    course.taken += 1;
    Ok(())
}

/// The target takes those of the page's entries whose numbers the set hasn't, one after another, up to the first one that is refused.
/// The course says how far that came, and how many were taken.
pub(crate) fn take_page<E: Disk>(
    target: &mut Spool<E>,
    tag: u32,
    present: &BTreeSet<u64>,
    page: Vec<Numbered>,
    course: &mut Course,
) -> Result<(), TakeFault>
    requires numbered { AreNumbered course.old.upto (2 ^ 63) page.items }
    requires few { course.old.taken ≤ course.old.upto }

    ensures few { course.new.taken ≤ course.new.upto }
    ensures within { (end : ℕ) → course.old.upto ≤ end → AreNumbered course.old.upto end page.items → course.new.upto ≤ end }
    ensures rises { OnOk result (0 < length page.items → course.old.upto < course.new.upto) }
    ensures calls { Calls (IsErrOf result TakeFault.DiskFault) (E.moment target.old.disk) (E.moment target.new.disk) }
    ensures refused { IfErr result (λ fault. (e : TheEntry) × RefusedBy target.new.memory (e ∷ []) fault) }
    ensures taken { (t : SpoolState) → E.tells → IsIn t [] (view target.old.memory target.old.doubt (E.moment target.old.disk))
        → TakesPage tag present.now (given_entries page.items) t result course.old course.new
        (view target.old.memory target.old.doubt (E.moment target.old.disk)) (view target.new.memory target.new.doubt (E.moment target.new.disk)) }
{
    for one in page {
        walk_one(target, tag, present, one, course)?;
    }
    Ok(())
}

//! Which entries of the source the target has already.
ghost use Rattle.std.specs.Prelude.{◌≡◌, ◌++◌, ◌∷◌, ◌≤◌, List, [], IfOk, IfErr, IsErrOf, MatchResult};
ghost use Rattle.edge_disk.specs.Calls.{Calls};
ghost use Rattle.edge_disk.specs.Disk.{LeavesOnly};
ghost use Rattle.spool_state.specs.SpoolState.{SpoolState};
ghost use Rattle.spool_state.specs.Left.{NumberedEntry, left};
ghost use Rattle.spool_answers.specs.Pend.{given_entries};
ghost use Rattle.spool_log.specs.Memory.{end_of};
ghost use Rattle.spool_log.specs.State.{view, IsIn};
ghost use Rattle.spool_move.specs.Strange.{IsStrange, NoneIsStrange};
ghost use Rattle.spool_move.specs.Reading.{as_entry, IsOfLook, IsOwn, IsReading, IsUnread, IsSearched, FindsFault};

use crate::MoveFault;
use crate::entry::{connection, is_same};
use edge_disk::Disk;
use event_form::Entry;
use spool_log::{Numbered, Spool};
use std::alloc::Global;
use std::collections::BTreeSet;

/// How many entries are read at a time.
const PAGE: u32 = 128;

/// How an entry of the target stands to the source's entry of its index.
#[derive(Clone, Copy, PartialEq, Eq)]
enum Own {
    /// No entry of that number is left.
    NotLeft,
    /// One is left, with the same event.
    Same,
    /// One is left, with another origin or text.
    Other,
}

/// Compares an entry of the target with the source's entry of its index. The errors are those of a reading of the source.
fn compare<D: Disk>(source: &mut Spool<D>, entry: &Entry) -> Result<Own, MoveFault>
    requires within { entry.now.index ≤ end_of source.old.memory }

    ensures calls { Calls (IsErrOf result MoveFault.SourceFault) (D.moment source.old.disk) (D.moment source.new.disk) }
    ensures unread { IfErr result (λ fault. IsUnread fault) }
    ensures other { IsErrOf result MoveFault.TargetFault → ⊥ }
    ensures found { (m : SpoolState) → D.tells → IsIn m [] (view source.old.memory source.old.doubt (D.moment source.old.disk))
        → MatchResult result (λ own. IsOwn m entry.now own) (λ fault. IsReading fault) }
    ensures kept { (m : SpoolState) → D.tells → IsIn m [] (view source.old.memory source.old.doubt (D.moment source.old.disk))
        → IsIn m [] (view source.new.memory source.new.doubt (D.moment source.new.disk))
        × LeavesOnly (D.moment source.old.disk).image (D.moment source.old.disk) (D.moment source.new.disk) }
{
    let given = match source.pending(entry.index, 1) {
        Ok(given) => given,
        Err(fault) => return Err(MoveFault::of_source(fault)),
    };
    match given.first() {
        Some(own) if own.number == entry.index => {
            if is_same(&own.entry.event, &entry.event) {
                Ok(Own::Same)
            } else {
                Ok(Own::Other)
            }
        }
        _ => Ok(Own::NotLeft),
    }
}

/// Looks at an entry of the target. Where it has the tag, and the source's entry of its index is left, the set gets the index.
/// `Strange` comes exactly where the entry is strange; the other errors are those of a reading of the source.
fn look_at<D: Disk>(
    source: &mut Spool<D>,
    tag: u32,
    one: &Numbered,
    present: &mut BTreeSet<u64>,
) -> Result<(), MoveFault>
    ensures calls { Calls (IsErrOf result MoveFault.SourceFault) (D.moment source.old.disk) (D.moment source.new.disk) }
    ensures other { IsErrOf result MoveFault.TargetFault → ⊥ }
    ensures known { IfErr result (λ fault. IsOfLook fault) }
    ensures looked { (m : SpoolState) (before : List NumberedEntry) → D.tells
        → IsIn m [] (view source.old.memory source.old.doubt (D.moment source.old.disk)) → IsSearched tag m before present.old
        → MatchResult result (λ _. IsSearched tag m (before ++ as_entry one.now ∷ []) present.new)
        (λ fault. FindsFault tag m (before ++ as_entry one.now ∷ []) fault) }
    ensures kept { (m : SpoolState) → D.tells → IsIn m [] (view source.old.memory source.old.doubt (D.moment source.old.disk))
        → IsIn m [] (view source.new.memory source.new.doubt (D.moment source.new.disk))
        × LeavesOnly (D.moment source.old.disk).image (D.moment source.old.disk) (D.moment source.new.disk) }
{
    let entry = &one.entry;
    if entry.conn != connection(tag) {
        return Ok(());
    }
    if source.end() <= entry.index {
        return Err(MoveFault::Strange {
            number: entry.index,
        });
    }
    // Numbers below the cursor aren't left: nothing has to be read.
    if entry.index < source.cursor() {
        return Ok(());
    }
    match compare(source, entry)? {
        Own::NotLeft => Ok(()),
        Own::Other => Err(MoveFault::Strange {
            number: entry.index,
        }),
        Own::Same => match present.insert(entry.index) {
            Ok(_) => Ok(()),
            Err(_) => Err(MoveFault::NoMemory),
        },
    }
}

/// Looks at some entries of the target, one after another.
fn look_at_page<D: Disk>(
    source: &mut Spool<D>,
    tag: u32,
    page: &[Numbered],
    present: &mut BTreeSet<u64>,
) -> Result<(), MoveFault>
    ensures calls { Calls (IsErrOf result MoveFault.SourceFault) (D.moment source.old.disk) (D.moment source.new.disk) }
    ensures other { IsErrOf result MoveFault.TargetFault → ⊥ }
    ensures known { IfErr result (λ fault. IsOfLook fault) }
    ensures looked { (m : SpoolState) (before : List NumberedEntry) → D.tells
        → IsIn m [] (view source.old.memory source.old.doubt (D.moment source.old.disk)) → IsSearched tag m before present.old
        → MatchResult result (λ _. IsSearched tag m (before ++ given_entries page.now) present.new)
        (λ fault. FindsFault tag m (before ++ given_entries page.now) fault) }
    ensures kept { (m : SpoolState) → D.tells → IsIn m [] (view source.old.memory source.old.doubt (D.moment source.old.disk))
        → IsIn m [] (view source.new.memory source.new.doubt (D.moment source.new.disk))
        × LeavesOnly (D.moment source.old.disk).image (D.moment source.old.disk) (D.moment source.new.disk) }
{
    for one in page {
        look_at(source, tag, one, present)?;
    }
    Ok(())
}

/// The numbers of the source's entries that are left, and of which the target has a copy that isn't known as confirmed: of this tag,
/// with the number as its index.
///
/// `Strange` comes exactly where an entry of this tag isn't the source's: its index is at or above the source's end, or that of an
/// entry that is left there with another origin or text. `number` is the index of the first such entry. The other errors are those
/// of readings. Nothing is written.
pub(crate) fn read_present<D: Disk, E: Disk>(
    alloc: Global,
    source: &mut Spool<D>,
    target: &mut Spool<E>,
    tag: u32,
) -> Result<BTreeSet<u64>, MoveFault>
    ensures source_calls { Calls (IsErrOf result MoveFault.SourceFault) (D.moment source.old.disk) (D.moment source.new.disk) }
    ensures target_calls { Calls (IsErrOf result MoveFault.TargetFault) (E.moment target.old.disk) (E.moment target.new.disk) }
    ensures known { IfErr result (λ fault. IsOfLook fault) }
    ensures searched { (m u : SpoolState) → D.tells → E.tells
        → IsIn m [] (view source.old.memory source.old.doubt (D.moment source.old.disk))
        → IsIn u [] (view target.old.memory target.old.doubt (E.moment target.old.disk))
        → MatchResult result (λ present. IsSearched tag m (left u) present) (λ fault. FindsFault tag m (left u) fault) }
    ensures source_kept { (m : SpoolState) → D.tells → IsIn m [] (view source.old.memory source.old.doubt (D.moment source.old.disk))
        → IsIn m [] (view source.new.memory source.new.doubt (D.moment source.new.disk))
        × LeavesOnly (D.moment source.old.disk).image (D.moment source.old.disk) (D.moment source.new.disk) }
    ensures target_kept { (u : SpoolState) → E.tells → IsIn u [] (view target.old.memory target.old.doubt (E.moment target.old.disk))
        → IsIn u [] (view target.new.memory target.new.doubt (E.moment target.new.disk))
        × LeavesOnly (E.moment target.old.disk).image (E.moment target.old.disk) (E.moment target.new.disk) }
{
    let mut present = BTreeSet::new(alloc);
    let mut from = 0;
    loop {
        let page = match target.pending(from, PAGE) {
            Ok(page) => page,
            Err(fault) => return Err(MoveFault::of_target(fault)),
        };
        look_at_page(source, tag, &page, &mut present)?;
        match page.last() {
            Some(last) => from = last.number + 1,
            None => return Ok(present),
        }
    }
}

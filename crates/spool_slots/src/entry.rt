//! The entries of a slot, found by their heads.
ghost use Rattle.std.specs.Prelude.{◌≡◌, ℕ, ◌+◌, ◌-◌, ◌<◌, ◌≤◌, List, IsErr, OnOk, IfOk, IfSome, MatchOption};
ghost use Rattle.foundation.specs.Bytes.{part};
ghost use Rattle.event_form.specs.declared.event.Entry.{Entry};
ghost use Rattle.event_form.specs.Entry.{size_of};
ghost use Rattle.event_form.specs.Reading.{Begins, BeginsNoEntry};
ghost use Rattle.edge_disk.specs.Calls.{Calls};
ghost use Rattle.edge_disk.specs.Disk.{IsUntouched};
ghost use Rattle.spool_slots.specs.Groups.{HasSize};
ghost use Rattle.spool_slots.specs.Window.{IsWindow};

use crate::window::Window;
use edge_disk::{Disk, DiskFault};
use event_form::{HEAD_BYTES, entry_length, peek_entry};

/// How many bytes the entry has whose text begins at offset `from` of the slot and ends at `end` or before,
/// as its head says, whose text isn't looked at. Nothing where no entry's head stands there.
pub(crate) fn length_at<D: Disk>(
    window: &mut Window,
    disk: &mut D,
    at: u64,
    size: u64,
    from: u64,
    end: u64,
) -> Result<Option<usize>, DiskFault>
    requires place { at + size ≤ (D.moment disk.old).size }
    requires ends { end ≤ size }
    requires window { D.tells → IsWindow at window.old (D.moment disk.old).reads }

    ensures calls { Calls (IsErr result) (D.moment disk.old) (D.moment disk.new) }
    ensures told { D.tells → IsUntouched (D.moment disk.old) (D.moment disk.new) }
    ensures window { OnOk result (D.tells → IsWindow at window.new (D.moment disk.new).reads) }
    ensures inside { IfOk result (λ found. IfSome found (λ n. (29 ≤ n) × (n ≤ 131101) × (from + n ≤ end))) }
    ensures found { IfOk result
        (λ found. D.tells
        → MatchOption found (BeginsNoEntry (part (at + from) (end - from) (D.moment disk.old).reads))
        (HasSize (part (at + from) (end - from) (D.moment disk.old).reads))) }
{
    let rest = end.saturating_sub(from);
    if rest < HEAD_BYTES as u64 {
        return Ok(None);
    }
    window.cover(disk, at, size, from, HEAD_BYTES)?;
    let Some(length) = entry_length(window.bytes(from, HEAD_BYTES)) else {
        return Ok(None);
    };
    if length as u64 > rest {
        return Ok(None);
    }
    Ok(Some(length))
}

/// How many bytes the entry has whose text begins at offset `from` of the slot and ends at `end` or before.
/// Nothing where no entry does.
pub(crate) fn entry_at<D: Disk>(
    window: &mut Window,
    disk: &mut D,
    at: u64,
    size: u64,
    from: u64,
    end: u64,
) -> Result<Option<usize>, DiskFault>
    requires place { at + size ≤ (D.moment disk.old).size }
    requires ends { end ≤ size }
    requires window { D.tells → IsWindow at window.old (D.moment disk.old).reads }

    ensures calls { Calls (IsErr result) (D.moment disk.old) (D.moment disk.new) }
    ensures told { D.tells → IsUntouched (D.moment disk.old) (D.moment disk.new) }
    ensures window { OnOk result (D.tells → IsWindow at window.new (D.moment disk.new).reads) }
    ensures inside { IfOk result (λ found. IfSome found (λ n. (29 ≤ n) × (n ≤ 131101) × (from + n ≤ end))) }
    ensures found { IfOk result (λ found. D.tells → MatchOption found (BeginsNoEntry (part (at + from) (end - from) (D.moment disk.old).reads))
        (λ n. (e : Entry) × (rest : List ℕ) × Begins e (part (at + from) (end - from) (D.moment disk.old).reads) rest × (n ≡ size_of e))) }
{
    let Some(n) = length_at(window, disk, at, size, from, end)? else {
        return Ok(None);
    };
    window.cover(disk, at, size, from, n)?;
    match peek_entry(window.bytes(from, n)) {
        Some(_) => Ok(Some(n)),
        None => Ok(None),
    }
}

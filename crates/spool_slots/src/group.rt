//! The groups of a slot, one at a time.
ghost use Rattle.std.specs.Prelude.{◌≡◌, ◌≢◌, ℕ, ◌+◌, ◌-◌, ◌*◌, ◌^◌, ◌<◌, ◌≤◌, ◌↔◌, IsErr, OnOk, IfOk, IfSome, IsTrue, MatchOption};
ghost use Rattle.foundation.specs.Bytes.{part};
ghost use Rattle.spool_state.specs.Layout.{group_head, most_size};
ghost use Rattle.edge_disk.specs.Calls.{Calls};
ghost use Rattle.edge_disk.specs.Disk.{IsUntouched};
ghost use Rattle.spool_slots.specs.Groups.{AreEntries, BeginsNoGroup, HasHead, IsStep, IsInside};
ghost use Rattle.spool_slots.specs.Window.{IsWindow};

use crate::entry::entry_at;
use crate::layout::GROUP_HEAD;
use crate::seen::group_in;
use crate::window::Window;
use edge_disk::{Disk, DiskFault};
use foundation::u32_at;

/// What the head of a group says.
#[derive(Clone, Copy)]
pub(crate) struct GroupHead {
    /// How many bytes its entries have.
    pub size: u32,
    /// How many entries it has.
    pub count: u32,
}

/// What stands at a gate.
pub(crate) enum Step {
    /// A gate that isn't open.
    End,
    /// An open gate with no group after it.
    Broken,
    /// A group.
    Group(GroupHead),
}

/// The head of the group at a gate of the slot. Nothing where the gate isn't open, or its head is that of no
/// group that ends in the slot.
pub(crate) fn head_at<D: Disk>(
    window: &mut Window,
    disk: &mut D,
    at: u64,
    size: u64,
    gate: u64,
) -> Result<Option<GroupHead>, DiskFault>
    requires place { at + size ≤ (D.moment disk.old).size }
    requires small { size ≤ most_size }
    requires window { D.tells → IsWindow at window.old (D.moment disk.old).reads }

    ensures calls { Calls (IsErr result) (D.moment disk.old) (D.moment disk.new) }
    ensures told { D.tells → IsUntouched (D.moment disk.old) (D.moment disk.new) }
    ensures window { OnOk result (D.tells → IsWindow at window.new (D.moment disk.new).reads) }
    ensures inside { IfOk result (λ found. IfSome found (λ head. (0 < head.count) × (gate + group_head + head.size < size))) }
    ensures found { IfOk result
        (λ found. D.tells
        → MatchOption found (BeginsNoGroup (part (at + gate) (size - gate) (D.moment disk.old).reads))
        (HasHead (part (at + gate) (size - gate) (D.moment disk.old).reads))) }
{
    if size <= GROUP_HEAD as u64 || gate >= size - GROUP_HEAD as u64 {
        return Ok(None);
    }
    window.cover(disk, at, size, gate, GROUP_HEAD)?;
    let text = window.bytes(gate, GROUP_HEAD);
    let head = GroupHead {
        size: u32_at(text, 1),
        count: u32_at(text, 5),
    };
    if text[0] != 1 || head.count == 0 || u64::from(head.size) >= size - gate - GROUP_HEAD as u64 {
        return Ok(None);
    }
    Ok(Some(head))
}

/// Whether the bytes from offset `from` of the slot to `end` are exactly `count` entries.
fn are_entries<D: Disk>(
    window: &mut Window,
    disk: &mut D,
    at: u64,
    size: u64,
    from: u64,
    end: u64,
    count: u32,
) -> Result<bool, DiskFault>
    requires place { at + size ≤ (D.moment disk.old).size }
    requires begins { from ≤ end }
    requires ends { end ≤ size }
    requires window { D.tells → IsWindow at window.old (D.moment disk.old).reads }

    ensures calls { Calls (IsErr result) (D.moment disk.old) (D.moment disk.new) }
    ensures told { D.tells → IsUntouched (D.moment disk.old) (D.moment disk.new) }
    ensures window { OnOk result (D.tells → IsWindow at window.new (D.moment disk.new).reads) }
    ensures long { IfOk result (λ found. IsTrue found → from + 29 * count ≤ end) }
    ensures exact { IfOk result (λ found. D.tells → (IsTrue found ↔ AreEntries count (part (at + from) (end - from) (D.moment disk.old).reads))) }
{
    let mut place = from;
    for i in 0..count {
        match entry_at(window, disk, at, size, place, end)? {
            Some(n) => place += n as u64,
            None => return Ok(false),
        }
    }
    Ok(place == end)
}

/// What stands at a gate of the slot.
pub(crate) fn look_at<D: Disk>(
    window: &mut Window,
    disk: &mut D,
    at: u64,
    size: u64,
    gate: u64,
) -> Result<Step, DiskFault>
    requires place { at + size ≤ (D.moment disk.old).size }
    requires small { size ≤ most_size }
    requires gate { gate < size }
    requires window { D.tells → IsWindow at window.old (D.moment disk.old).reads }

    ensures calls { Calls (IsErr result) (D.moment disk.old) (D.moment disk.new) }
    ensures told { D.tells → IsUntouched (D.moment disk.old) (D.moment disk.new) }
    ensures window { OnOk result (D.tells → IsWindow at window.new (D.moment disk.new).reads) }
    ensures inside { IfOk result (IsInside size gate) }
    ensures seen { IfOk result (λ step. D.tells → IsStep (part (at + gate) (size - gate) (D.moment disk.old).reads) step) }
{
    window.cover(disk, at, size, gate, 1)?;
    if window.bytes(gate, 1)[0] != 1 {
        return Ok(Step::End);
    }
    let Some(head) = head_at(window, disk, at, size, gate)? else {
        return Ok(Step::Broken);
    };
    let first = gate + GROUP_HEAD as u64;
    let end = first + u64::from(head.size);
    if are_entries(window, disk, at, size, first, end, head.count)? {
        Ok(Step::Group(head))
    } else {
        Ok(Step::Broken)
    }
}

/// The same. A group that the window has whole is judged there at once.
pub(crate) fn step_at<D: Disk>(
    window: &mut Window,
    disk: &mut D,
    at: u64,
    size: u64,
    gate: u64,
) -> Result<Step, DiskFault>
    requires place { at + size ≤ (D.moment disk.old).size }
    requires small { size ≤ most_size }
    requires gate { gate < size }
    requires window { D.tells → IsWindow at window.old (D.moment disk.old).reads }

    ensures calls { Calls (IsErr result) (D.moment disk.old) (D.moment disk.new) }
    ensures told { D.tells → IsUntouched (D.moment disk.old) (D.moment disk.new) }
    ensures window { OnOk result (D.tells → IsWindow at window.new (D.moment disk.new).reads) }
    ensures inside { IfOk result (IsInside size gate) }
    ensures seen { IfOk result (λ step. D.tells → IsStep (part (at + gate) (size - gate) (D.moment disk.old).reads) step) }
{
    match group_in(window.seen(gate, size - gate)) {
        Some(whole) => Ok(Step::Group(whole)),
        None => look_at(window, disk, at, size, gate),
    }
}

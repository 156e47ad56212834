//! A group whose bytes are in memory.
ghost use Rattle.std.specs.Prelude.{◌≡◌, ◌≤◌, ◌↔◌, length, IsTrue, IfSome};
ghost use Rattle.spool_state.specs.Layout.{most_size};
ghost use Rattle.spool_slots.specs.Groups.{AreEntries, IsGroupIn};

use crate::group::GroupHead;
use crate::layout::GROUP_HEAD;
use event_form::peek_entry;
use foundation::u32_at;

/// Whether the bytes are exactly `count` entries. Of a text that needn't be pairs no byte is looked
/// at.
fn are_whole(bytes: &[u8], count: u32) -> bool
    ensures { IsTrue result ↔ AreEntries count bytes.now }
{
    let mut rest = bytes;
    for i in 0..count {
        match peek_entry(rest) {
            Some(n) => {
                let (_, after) = rest.split_at(n);
                rest = after;
            }
            None => return false,
        }
    }
    rest.is_empty()
}

/// The head of the group with which the bytes begin, where they have all of it and the gate after
/// it. Where they don't, nothing is said of the slot.
pub(crate) fn group_in(bytes: &[u8]) -> Option<GroupHead>
    requires { length bytes.now ≤ most_size }
    ensures { IfSome result (IsGroupIn bytes.now) }
{
    if bytes.len() <= GROUP_HEAD || bytes[0] != 1 {
        return None;
    }
    let head = GroupHead {
        size: u32_at(bytes, 1),
        count: u32_at(bytes, 5),
    };
    let end = GROUP_HEAD + head.size as usize;
    if head.count == 0 || end >= bytes.len() || !are_whole(&bytes[GROUP_HEAD..end], head.count) {
        return None;
    }
    Some(head)
}

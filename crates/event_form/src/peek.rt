//! Whether an entry begins some bytes, and how long it is.
ghost use Rattle.std.specs.Prelude.{◌≡◌, ℕ, List, length, IfSome, IfNone};
ghost use Rattle.event_form.specs.declared.event.Entry.{Entry};
ghost use Rattle.event_form.specs.Entry.{size_of};
ghost use Rattle.event_form.specs.Reading.{Begins, BeginsNoEntry, HasLength, BeginsNone};

use crate::reading::{origin_of, read_parts, text_length};
use crate::{HEAD_BYTES, MOST_TEXT};

/// How many bytes the entry has that the bytes begin with; other bytes may follow it. Nothing
/// where no entry begins them. It takes no memory.
pub fn peek_entry(bytes: &[u8]) -> Option<usize>
    ensures some { IfSome result (λ size. (e : Entry) × (rest : List ℕ) × Begins e bytes.now rest × (size ≡ size_of e)) }
    ensures none { IfNone result (BeginsNoEntry bytes.now) }
{
    match read_parts(bytes) {
        Ok((_, text)) => Some(HEAD_BYTES + text.len()),
        Err(_) => None,
    }
}

/// How many bytes the entry has whose text begins with this head of `HEAD_BYTES` bytes, as
/// `entry_head` writes it. Nothing where no entry's text begins with it. The text is not looked at: an
/// entry that stands on the disk is passed over by its head alone. It takes no memory.
pub fn entry_length(head: &[u8]) -> Option<usize>
    requires { length head.now ≡ HEAD_BYTES }
    ensures some { IfSome result (HasLength head.now) }
    ensures none { IfNone result (BeginsNone head.now) }
{
    let _ = origin_of(head[0])?;
    let length = text_length(head);
    if length > MOST_TEXT {
        return None;
    }
    Some(HEAD_BYTES + length)
}

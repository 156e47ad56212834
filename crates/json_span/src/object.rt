//! Objects and their members.
ghost use Rattle.std.specs.Prelude.{◌≡◌, ◌≤◌, ◌<◌, ℕ, List, length, IsTrue, ◌↔◌, IfOk};
ghost use Rattle.json_span.specs.Json.{AreSpaces, Items, IsMember, Json};
ghost use Rattle.json_span.specs.Spans.{Stretch};
ghost use Rattle.json_span.specs.Members.{HasObject, IsObjectText, IsMemberAt, AreFurther, HasMembers};
ghost use Rattle.json_span.specs.Walk.{IsFollowed, MembersLeft, IsLeft, AreAhead};

use crate::bytes::after_space;
use crate::scan::first_value;
use crate::span::Span;
use std::alloc::{AllocError, Global};

/// A member of an object (RFC 8259, section 4): the spans of its name, with the quotes round it, and of
/// its value, as offsets of the same bytes as the object's.
#[derive(Clone, Copy, PartialEq, Eq)]
pub struct Member {
    pub name: Span,
    pub value: Span,
}

/// Whether the bytes are one JSON object of at most 127 levels, with or without white space round it. It
/// takes no memory.
pub fn is_object(bytes: &[u8]) -> bool
    ensures { IsTrue result ↔ IsObjectText bytes.now }
{
    match first_value(bytes, 0) {
        Ok(span) => bytes[span.start] == b'{' && after_space(bytes, span.end) == bytes.len(),
        Err(_) => false,
    }
}

/// The value at a place where one is known to stand.
fn value_at(bytes: &[u8], at: usize) -> Span
    requires { at ≤ length bytes.now }
    ensures { (start end : ℕ) → Stretch AreSpaces bytes.now at start
        → Stretch (Json 127) bytes.now start end → IsFollowed bytes.now end
        → result ≡ record { start = start; end = end } }
{
    match first_value(bytes, at) {
        Ok(span) => span,
        Err(_) => Span { start: at, end: at },
    }
}

/// The member at a place where one is known to stand.
fn member_at(bytes: &[u8], at: usize) -> Member
    requires { (end : ℕ) × Stretch MembersLeft bytes.now at end }
    ensures { (end : ℕ) → Stretch MembersLeft bytes.now at end
        → (result.name.start ≡ at) × IsMemberAt bytes.now result
        × Stretch (Items (IsMember (Json 126)) 125) bytes.now result.value.end end }
{
    let name = value_at(bytes, at);
    let colon = after_space(bytes, name.end);
    let value = value_at(bytes, colon + 1);
    Member { name, value }
}

/// Where the next member begins, or else the closing brace stands, after a member.
fn after_member(bytes: &[u8], at: usize) -> usize
    requires { (end : ℕ) × Stretch (Items (IsMember (Json 126)) 125) bytes.now at end }
    ensures order { at ≤ result }
    ensures left { (end : ℕ) → Stretch (Items (IsMember (Json 126)) 125) bytes.now at end
        → Stretch IsLeft bytes.now result end }
    ensures ahead { (end : ℕ) → Stretch (Items (IsMember (Json 126)) 125) bytes.now at end
        → (rest : List Member) → AreAhead bytes.now result rest end
        → AreFurther bytes.now at rest end }
{
    let next = after_space(bytes, at);
    if bytes[next] == b',' {
        after_space(bytes, next + 1)
    } else {
        next
    }
}

/// The members of the object over the span `object`, in their order; where several have the same name, each
/// of them. The only error is want of memory.
pub fn members(alloc: Global, bytes: &[u8], object: Span) -> Result<Vec<Member>, AllocError>
    requires { HasObject bytes.now object }
    ensures { IfOk result (λ v. HasMembers bytes.now object v.items) }
{
    let mut members = Vec::new(alloc);
    let mut at = after_space(bytes, object.start + 1);
    while bytes[at] != b'}' {
        let member = member_at(bytes, at);
        members.push(member)?;
        at = after_member(bytes, member.value.end);
    }
    Ok(members)
}

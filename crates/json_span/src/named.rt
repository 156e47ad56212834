//! An object that is read once, member by member, and the value of its first member of a name.
ghost use Rattle.std.specs.Prelude.{◌≡◌, ℕ, ◌≤◌, length, IfSome, IfNone};
ghost use Rattle.json_span.specs.Strings.{IsString};
ghost use Rattle.json_span.specs.Json.{Items, IsMember, Json};
ghost use Rattle.json_span.specs.Spans.{Stretch, IsFirst};
ghost use Rattle.json_span.specs.Members.{IsMemberAt, HasNamed, IsObjectAt};
ghost use Rattle.json_span.specs.Walk.{MembersLeft, ComesFirst, ComesAfter, Chooses};
ghost use Rattle.json_span.specs.declared.span.Span.{Span};

use crate::bytes::{after_space, stands_at};
use crate::object::Member;
use crate::scan::{first_value, value_within};
use crate::span::Span;

/// An object, and the value of its first member of a name, if it has one. Both are offsets of the same bytes.
#[derive(Clone, Copy, PartialEq, Eq)]
pub struct Named {
    pub object: Span,
    pub value: Option<Span>,
}

/// What comes inside an object's braces: another member at a place, or nothing more, and the object ends before a place.
#[derive(Clone, Copy)]
pub(crate) enum Next {
    Another(usize),
    End(usize),
}

/// The end of the string that begins at a place.
fn string_end(bytes: &[u8], at: usize) -> Option<usize>
    requires { at ≤ length bytes.now }
    ensures some { IfSome result (λ end. Stretch IsString bytes.now at end) }
    ensures none { IfNone result ((end : ℕ) → Stretch IsString bytes.now at end → ⊥) }
{
    if !stands_at(bytes, at, b'"') {
        return None;
    }
    match first_value(bytes, at) {
        Ok(span) => Some(span.end),
        Err(_) => None,
    }
}

/// The member that begins at a place. Its value has at most 126 levels.
fn member_from(bytes: &[u8], at: usize) -> Option<Member>
    requires { at ≤ length bytes.now }
    ensures begins { IfSome result (λ m. m.name.start ≡ at) }
    ensures some { IfSome result (λ m. IsMemberAt bytes.now m) }
    ensures longest { IfSome result (λ m. IsFirst 126 bytes.now m.value.start m.value) }
    ensures none { IfNone result ((end : ℕ) → Stretch MembersLeft bytes.now at end → ⊥) }
{
    let end = string_end(bytes, at)?;
    let colon = after_space(bytes, end);
    if !stands_at(bytes, colon, b':') {
        return None;
    }
    let place = after_space(bytes, colon + 1);
    match value_within(bytes, place, 126) {
        Ok(value) => Some(Member {
            name: Span { start: at, end },
            value,
        }),
        Err(_) => None,
    }
}

/// What comes after the opening brace.
fn first_item(bytes: &[u8], at: usize) -> Next
    requires { at ≤ length bytes.now }
    ensures { ComesFirst bytes.now at result }
{
    let next = after_space(bytes, at);
    if stands_at(bytes, next, b'}') {
        Next::End(next + 1)
    } else {
        Next::Another(next)
    }
}

/// What comes after a member.
fn next_item(bytes: &[u8], at: usize) -> Option<Next>
    requires { at ≤ length bytes.now }
    ensures some { IfSome result (λ next. ComesAfter bytes.now at next) }
    ensures none { IfNone result ((end : ℕ) → Stretch (Items (IsMember (Json 126)) 125) bytes.now at end → ⊥) }
{
    let next = after_space(bytes, at);
    if stands_at(bytes, next, b',') {
        Some(Next::Another(after_space(bytes, next + 1)))
    } else if stands_at(bytes, next, b'}') {
        Some(Next::End(next + 1))
    } else {
        None
    }
}

/// The value of the first member of the name so far, where `chosen` was that before this member.
fn chosen_with(bytes: &[u8], name: &[u8], chosen: Option<Span>, member: Member) -> Option<Span>
    requires { IsMemberAt bytes.now member }
    ensures { Chooses bytes.now name.now chosen member result }
{
    match chosen {
        None if &bytes[member.name.start..member.name.end] == name => Some(member.value),
        other => other,
    }
}

/// The object that begins at `at` after white space, and the value of its first member that is spelt `name`, the quotes
/// too; escapes aren't read. `at` is an offset of the bytes, at most their length. What stands after the object is no
/// matter. The object is walked once, member by member. `None` where no JSON object of at most 127 levels begins there. It takes
/// no memory.
pub fn named_value(bytes: &[u8], at: usize, name: &[u8]) -> Option<Named>
    requires { at ≤ length bytes.now }
    ensures object { IfSome result (λ found. IsObjectAt bytes.now at found.object) }
    ensures value { IfSome result (λ found. HasNamed bytes.now found.object name.now found.value) }
    ensures none { IfNone result ((object : Span) → IsObjectAt bytes.now at object → ⊥) }
{
    let start = after_space(bytes, at);
    if !stands_at(bytes, start, b'{') {
        return None;
    }
    let mut value = None;
    let mut next = first_item(bytes, start + 1);
    loop {
        match next {
            Next::Another(place) => {
                let member = member_from(bytes, place)?;
                value = chosen_with(bytes, name, value, member);
                next = next_item(bytes, member.value.end)?;
            }
            Next::End(end) => {
                let object = Span { start, end };
                return Some(Named { object, value });
            }
        }
    }
}

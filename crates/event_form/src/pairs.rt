//! The pairs of a text.
ghost use Rattle.std.specs.Prelude.{◌≡◌, ℕ, List, ◌≤◌, ◌↔◌, length, IsTrue, IfSome, IfNone};
ghost use Rattle.event_form.specs.Event.{ArePairs};
ghost use Rattle.event_form.specs.Pairs.{BeginsString, BeginsPair};

use crate::{MOST_PAIRS, MOST_TEXT};

/// The key or value that the bytes begin with, and the bytes after it.
fn first_string(bytes: &[u8]) -> Option<(&[u8], &[u8])>
    ensures some { IfSome result (λ parts. BeginsString parts.0.now bytes.now parts.1.now) }
    ensures none { IfNone result ((string rest : List ℕ) → BeginsString string bytes.now rest → ⊥) }
{
    if bytes.len() < 4 {
        return None;
    }
    let (front, rest) = bytes.split_at(4);
    let length = u32::from_be_bytes([front[0], front[1], front[2], front[3]]) as usize;
    if rest.len() < length {
        return None;
    }
    let (string, behind) = rest.split_at(length);
    Some((string, behind))
}

/// The pair that the bytes begin with: its key, its value, and the bytes after it. Nothing where no
/// pair begins them. It takes no memory.
pub fn first_pair(bytes: &[u8]) -> Option<(&[u8], &[u8], &[u8])>
    ensures some { IfSome result (λ parts. BeginsPair (parts.0.now, parts.1.now) bytes.now parts.2.now) }
    ensures none { IfNone result ((pair : List ℕ × List ℕ) (rest : List ℕ) → BeginsPair pair bytes.now rest → ⊥) }
{
    let (key, middle) = first_string(bytes)?;
    let (value, rest) = first_string(middle)?;
    Some((key, value, rest))
}

/// Whether the bytes, no longer than an event's text may be, are whole pairs, and no more than a text
/// may have.
pub(crate) fn are_pairs(text: &[u8]) -> bool
    requires { length text.now ≤ MOST_TEXT }
    ensures { IsTrue result ↔ ArePairs text.now }
{
    let mut rest = text;
    for _ in 0..MOST_PAIRS {
        if rest.is_empty() {
            return true;
        }
        match first_pair(rest) {
            Some((_, _, behind)) => rest = behind,
            None => return false,
        }
    }
    rest.is_empty()
}

//! Where a session begins.
ghost use Rattle.std.specs.Prelude.{◌≡◌, ◌≤◌, ◌∷◌, [], ℕ, false, IfOk};
ghost use Rattle.forward_core.specs.Course.{IsNew};
ghost use Rattle.forward_core.specs.Forwarded.{Asked, until_by};

use crate::course::Course;
use desk_access::Access;
use known_numbers::Stretch;
use std::alloc::{AllocError, Global};
use std::collections::VecDeque;

// Where a session ends: at the desk's end, or at the number that was given, where that is less.
fn until(upto: Option<u64>, end: u64) -> u64
    ensures value { result ≡ until_by upto end }
    ensures within { result ≤ end }
{
    match upto {
        Some(number) => number.min(end),
        None => end,
    }
}

/// The entries from the desk's cursor to its end, as both stand, of which none was read yet; where a number is given, only those below
/// it. The only error is want of memory.
pub(crate) fn begin<A: Access>(
    alloc: Global,
    upto: Option<u64>,
    access: &mut A,
) -> Result<Course, AllocError>
    ensures new { (start : ℕ) × (end : ℕ) × Asked A.ran A.cursor_known A.end_known A.seen access.old start end access.new
        × IfOk result (IsNew start (until_by upto end)) }
    ensures within { IfOk result (λ course. course.end ≤ A.end_known access.new) }
{
    let next = access.cursor();
    let end = until(upto, access.end());
    let mut marks = Vec::new(alloc);
    marks.push(Stretch { from: 0, to: 0 })?;
    Ok(Course {
        next,
        end,
        over: false,
        given: 0,
        told: 0,
        numbers: VecDeque::new(alloc),
        marks,
    })
}

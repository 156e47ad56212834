//! How a stretch is joined to stretches that are apart.
ghost use Rattle.std.specs.Prelude.{◌≡◌, ◌<◌, ◌≤◌, leb, if◌then◌else◌, length, drop, vec_len, vec_capacity};
ghost use Rattle.std.specs.List.{remove_range};
ghost use Rattle.known_numbers.specs.Numbers.{AreApart, numbers_of, raised, added};
ghost use Rattle.known_numbers.specs.Passed.{IsPassed};

use crate::{MOST_STRETCHES, Stretch};

/// What a number reaches among stretches: those at the front, which begin at or below it or the end of
/// one before.
#[derive(Drop)]
struct Reach {
    /// How many are reached.
    count: usize,
    /// The number, or the greatest of their ends where that is greater.
    to: u64,
}

/// What `to` reaches.
fn reach_of(stretches: &[Stretch], to: u64) -> Reach
    ensures within { result.count ≤ length stretches.now }
    ensures raised { raised to stretches.now ≡ numbers_of result.to (drop result.count stretches.now) }
{
    let mut end = to;
    for (count, stretch) in stretches.iter().enumerate() {
        if end < stretch.from {
            return Reach { count, to: end };
        }
        end = end.max(stretch.to);
    }
    Reach {
        count: stretches.len(),
        to: end,
    }
}

/// How many stretches at the front end below `from`.
fn passed(stretches: &[Stretch], from: u64) -> usize
    ensures { IsPassed from stretches.now result }
{
    for (count, stretch) in stretches.iter().enumerate() {
        if stretch.to >= from {
            return count;
        }
    }
    stretches.len()
}

/// Removes the stretches from one index up to and without another.
fn take_out(stretches: &mut Vec<Stretch>, from: usize, to: usize)
    requires order { from ≤ to }
    requires within { to ≤ vec_len stretches.old }
    ensures items { stretches.new.items ≡ remove_range stretches.old.items from to }
    ensures room { vec_capacity stretches.new ≡ vec_capacity stretches.old }
{
    drop(stretches.drain(from..to));
}

/// Raises a cursor past the stretches that it reaches, which are removed. The answer is the new cursor.
pub(crate) fn raise(stretches: &mut Vec<Stretch>, cursor: u64) -> u64
    ensures raised { raised cursor stretches.old.items ≡ numbers_of result stretches.new.items }
    ensures room { vec_capacity stretches.new ≡ vec_capacity stretches.old }
{
    let reached = reach_of(stretches, cursor);
    take_out(stretches, 0, reached.count);
    reached.to
}

/// Adds a stretch to those above a cursor. It becomes one with those that it touches. Where it touches
/// none and there are as many as there may be, it isn't added.
pub(crate) fn add(stretches: &mut Vec<Stretch>, more: Stretch)
    requires some { more.from < more.to }
    requires apart { AreApart 0 stretches.old.items }
    requires few { vec_len stretches.old ≤ MOST_STRETCHES }
    requires room { MOST_STRETCHES ≤ vec_capacity stretches.old }
    ensures added { stretches.new.items ≡
        (if leb (length (added more stretches.old.items)) MOST_STRETCHES then added more stretches.old.items else stretches.old.items) }
    ensures room { vec_capacity stretches.old ≤ vec_capacity stretches.new }
{
    let first = passed(stretches, more.from);
    let reached = reach_of(&stretches[first..], more.to);
    if reached.count > 0 {
        let from = more.from.min(stretches[first].from);
        stretches[first] = Stretch {
            from,
            to: reached.to,
        };
        take_out(stretches, first + 1, first + reached.count);
    } else if stretches.len() < MOST_STRETCHES {
        let _ = stretches.insert(first, more);
    }
}

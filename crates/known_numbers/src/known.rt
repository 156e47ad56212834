//! The known numbers.
ghost use Rattle.std.specs.Prelude.{◌≡◌, ◌<◌, ◌≤◌, ◌↔◌, IsTrue, IfOk, []};
ghost use Rattle.known_numbers.specs.Numbers.{Numbers, numbers_of, IsInSome, IsKnown, IsSound, IsNextUnknown, count_of, joined, fitting, marked};

use crate::joins::{add, raise};
use crate::{MOST_STRETCHES, Stretch};
use std::alloc::{AllocError, Global};
use std::marker::Model;

/// Which numbers are known: all below a cursor, and those of at most 240 stretches above it. The stretches
/// are in order, none is empty, and none touches another or the cursor.
#[derive(Drop)]
pub struct KnownNumbers {
    cursor: u64,
    /// There is room for 240, so that no call but `reserve` takes memory.
    stretches: Vec<Stretch>,
}

impl Model for KnownNumbers {
    ghost use Rattle.std.specs.Prelude.{◌≤◌, vec_capacity};
    ghost use Rattle.known_numbers.specs.Numbers.{Numbers, numbers_of, IsSound};
    ghost use Rattle.known_numbers.specs.declared.stretch.TheConstants.{MOST_STRETCHES};

    ghost Value = { Numbers };

    ghost view = { λ a. numbers_of a.cursor a.stretches.items };

    ghost invariant = { λ a. IsSound (numbers_of a.cursor a.stretches.items) × (MOST_STRETCHES ≤ vec_capacity a.stretches) };
}

impl KnownNumbers {
    /// Nothing known, with room for all that it may ever hold. `AllocError` comes where there is no memory.
    pub fn reserve(alloc: Global) -> Result<KnownNumbers, AllocError>
        ensures { IfOk result (λ known. known ≡ numbers_of 0 []) }
    {
        let stretches = Vec::with_capacity(alloc, MOST_STRETCHES)?;
        Ok(KnownNumbers {
            cursor: 0,
            stretches,
        })
    }

    /// The least number that isn't known.
    pub fn cursor(&self) -> u64
        ensures cursor { result ≡ self.now.cursor }
        ensures sound { IsSound self.now }
    {
        self.cursor
    }

    /// The longest runs of known numbers above the cursor, in order: at most 240.
    pub fn stretches(&self) -> &[Stretch]
        ensures stretches { result.now ≡ self.now.stretches }
        ensures sound { IsSound self.now }
    {
        &self.stretches
    }

    /// How many numbers above the cursor are known.
    pub fn count(&self) -> u64
        ensures { result ≡ count_of self.now.stretches }
    {
        let mut count = 0;
        for stretch in &self.stretches {
            count += stretch.to - stretch.from;
        }
        count
    }

    /// Whether a number is known. It goes through the stretches once.
    pub fn contains(&self, number: u64) -> bool
        ensures { IsTrue result ↔ IsKnown self.now number }
    {
        number < self.cursor || is_in_some(&self.stretches, number)
    }

    /// The least number at or above `from` that isn't known. It goes through the stretches once.
    pub fn next_unknown(&self, from: u64) -> u64
        ensures { IsNextUnknown self.now from result }
    {
        let start = from.max(self.cursor);
        for stretch in &self.stretches {
            if start < stretch.from {
                return start;
            }
            if start < stretch.to {
                return stretch.to;
            }
        }
        start
    }

    /// Makes these the known numbers: all below the cursor, and those of the stretches, of which there are
    /// at most 240, apart above the cursor.
    pub fn set(&mut self, cursor: u64, stretches: &[Stretch])
        requires { IsSound (numbers_of cursor stretches.now) }
        ensures { self.new ≡ numbers_of cursor stretches.now }
    {
        self.cursor = cursor;
        self.stretches.clear();
        let _ = self.stretches.extend_from_slice(stretches);
    }

    /// Makes the known numbers those of another.
    pub fn copy_from(&mut self, other: &KnownNumbers)
        ensures { self.new ≡ other.now }
    {
        self.set(other.cursor, &other.stretches);
    }

    /// Adds stretches one after another. The numbers of each become known, and the cursor and the stretches
    /// are then the least number that isn't known and the longest runs above it. A stretch that would make
    /// more than 240 of these isn't added. Each is joined in one pass over the stretches that are there.
    pub fn mark(&mut self, more: &[Stretch])
        ensures { self.new ≡ marked self.old more.now }
    {
        for stretch in more {
            self.join(*stretch);
        }
    }

    /// Adds one stretch.
    fn join(&mut self, more: Stretch)
        ensures { self.new ≡ fitting (joined self.old more) self.old }
    {
        if more.from >= more.to {
            return;
        }
        if more.from <= self.cursor {
            self.cursor = raise(&mut self.stretches, self.cursor.max(more.to));
        } else {
            add(&mut self.stretches, more);
        }
    }
}

/// Whether a number is in some stretch.
fn is_in_some(stretches: &[Stretch], number: u64) -> bool
    ensures { IsTrue result ↔ IsInSome stretches.now number }
{
    for stretch in stretches {
        if stretch.from <= number && number < stretch.to {
            return true;
        }
    }
    false
}

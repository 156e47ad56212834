//! How far a session is with the entries.
ghost use Rattle.std.specs.Prelude.{◌≡◌, ℕ, ◌+◌, ◌-◌, ◌^◌, ◌<◌, ◌≤◌, All, OnOk, OnErr, vec_len};
ghost use Rattle.std.specs.VecDeque.{deque_len};
ghost use Rattle.known_numbers.specs.declared.stretch.Stretch.{Stretch as TheStretch};

use known_numbers::Stretch;
use std::alloc::AllocError;
use std::collections::VecDeque;

/// How far a session is with the entries: those below the end that aren't known as confirmed, as both stood at its
/// start. A place counts them from 0, in the order of their numbers.
#[derive(Drop)]
pub(crate) struct Course {
    /// The number from which the next entries are read.
    pub next: u64,
    /// The number after the last entry.
    pub end: u64,
    /// The sender was told that no more entries come.
    pub over: bool,
    /// How many entries were given to the sender.
    pub given: u64,
    /// How many of the first entries are acknowledged, as it told.
    pub told: u64,
    /// The numbers of the entries that were given, from the first on that isn't one of these.
    pub numbers: VecDeque<u64>,
    /// What is to be marked: all numbers up to that of the last of the first entries that are acknowledged, and
    /// the numbers of others that are, and weren't marked yet.
    pub marks: Vec<Stretch>,
    ghost some: { 0 < vec_len marks },
    ghost counted: { told + deque_len numbers ≡ given },
    ghost small: { All (λ n. n < end) numbers.items },
    ghost ordered: { All (λ (s : TheStretch). s.from ≤ s.to) marks.items },
    ghost within: { All (λ (s : TheStretch). s.to ≤ end) marks.items },
    ghost limit: { end ≤ 2 ^ 63 },
}

impl Course {
    ghost use Rattle.forward_core.specs.Course.{SameCourse, TellsNext, TellsFirst, TellsOne};

    /// One more of the first entries is acknowledged.
    fn tell_next(&mut self)
        requires { 0 < deque_len self.old.numbers }
        ensures { TellsNext self.old self.new }
    {
        let Some(number) = self.numbers.pop_front() else {
            unreachable!()
        };
        self.told += 1;
        self.marks[0] = Stretch {
            from: 0,
            to: number + 1,
        };
    }

    /// The first `told` entries are acknowledged.
    pub fn tell_first(&mut self, told: u64)
        requires more { self.old.told ≤ told }
        requires given { told - self.old.told ≤ deque_len self.old.numbers }
        ensures { TellsFirst told self.old self.new }
    {
        while self.told < told {
            self.tell_next();
        }
    }

    /// The entry at this place is acknowledged. After the error, that no memory was found, nothing changed.
    pub fn tell_one(&mut self, place: u64) -> Result<(), AllocError>
        requires after { self.old.told ≤ place }
        requires given { place - self.old.told < deque_len self.old.numbers }
        ensures ok { OnOk result (TellsOne place self.old self.new) }
        ensures err { OnErr result (SameCourse self.old self.new) }
    {
        let number = self.numbers[(place - self.told) as usize];
        self.marks.push(Stretch {
            from: number,
            to: number + 1,
        })?;
        Ok(())
    }
}

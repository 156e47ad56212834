//! A monitor at which those ask whom a test lets.

use crate::held::{Movable, are_set, set};
use edge_io::{Monitor, SpoolNumbers};
use std::sync::atomic::AtomicBool;

/// One who asks once these marks are set. What is to be told is known beforehand: where just that is told, this mark is set.
#[derive(Clone, Copy)]
pub(crate) struct Ask {
    pub(crate) after: &'static [usize],
    pub(crate) numbers: SpoolNumbers,
    pub(crate) mark: usize,
}

/// A monitor at which these ask, one after another.
#[derive(Drop)]
pub(crate) struct HeldMonitor<'a> {
    asks: &'static [Ask],
    marks: &'a [AtomicBool],
    /// How many of them were told something.
    told: usize,
}

impl<'a> HeldMonitor<'a> {
    /// One at which nobody was told anything yet.
    pub(crate) fn new(asks: &'static [Ask], marks: &'a [AtomicBool]) -> HeldMonitor<'a> {
        HeldMonitor {
            asks,
            marks,
            told: 0,
        }
    }
}

impl Monitor for HeldMonitor<'_> {
    ghost may_tell = { λ _. Unit {0} };

    /// It waits for nothing.
    fn is_asked(&mut self) -> bool {
        match self.asks.get(self.told) {
            Some(ask) => are_set(self.marks, ask.after),
            None => false,
        }
    }

    fn tell(&mut self, numbers: &SpoolNumbers) {
        if let Some(ask) = self.asks.get(self.told) {
            if *numbers == ask.numbers {
                set(self.marks, ask.mark);
            }
        }
        self.told = self.told.saturating_add(1);
    }
}

impl Movable for HeldMonitor<'_> {}

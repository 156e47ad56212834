//! How many events were stored, by protocol.
use event_form::{Entry, Origin};
use spool_answers::{Receipt, TakeFault};
use std::sync::atomic::{AtomicU64, Ordering};

/// How many events of each protocol the takes of a shared desk have stored.
#[derive(Clone, Copy, PartialEq, Eq)]
pub struct StoredCounts {
    /// By RELP.
    pub relp: u64,
    /// By Lumberjack.
    pub lumberjack: u64,
    /// By the collector's protocol.
    pub hec: u64,
}

/// The same, counted by many threads together.
#[derive(Drop)]
pub(crate) struct Tally {
    relp: AtomicU64,
    lumberjack: AtomicU64,
    hec: AtomicU64,
}

impl Tally {
    /// None was stored.
    pub(crate) fn new() -> Tally {
        Tally {
            relp: AtomicU64::new(0),
            lumberjack: AtomicU64::new(0),
            hec: AtomicU64::new(0),
        }
    }

    /// Counts a take of entries, all of one connection and so of one protocol, that was answered so.
    pub(crate) fn note(&self, entries: &[Entry], answer: &Result<Receipt, TakeFault>) {
        let (Some(first), Ok(receipt)) = (entries.first(), answer) else {
            return;
        };
        let count = match first.event.origin {
            Origin::Relp => &self.relp,
            Origin::LumberData | Origin::LumberJson => &self.lumberjack,
            Origin::HecEvent | Origin::HecRaw => &self.hec,
        };
        let _ = count.fetch_add(receipt.count, Ordering::SeqCst);
    }

    /// What was counted so far.
    pub(crate) fn stored(&self) -> StoredCounts {
        StoredCounts {
            relp: self.relp.load(Ordering::SeqCst),
            lumberjack: self.lumberjack.load(Ordering::SeqCst),
            hec: self.hec.load(Ordering::SeqCst),
        }
    }
}

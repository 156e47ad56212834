//! Telling those who ask how the spool stands, beside the workers.
ghost use Rattle.std.specs.Prelude.{◌≡◌};
ghost use Rattle.spool_turns.specs.Levels.{HasLevel};
ghost use Rattle.serve_desk.specs.Telling.{MayTell, numbers_of};

use edge_disk::Disk;
use edge_io::{EventCounts, Monitor, SpoolNumbers};
use serve_run::Task;
use spool_turns::{Level, Naming, Shared, StoredCounts};
use std::sync::Wait;
use std::sync::atomic::{AtomicBool, Ordering};

/// Answering those who ask at the monitor, as a task: until `ended` is set they are told where the spool stands. It has no pass, and
/// makes no call on the desk.
#[derive(Drop)]
pub(crate) struct Reporting<'a, M: Monitor, D: Disk, J: Naming, R: Wait> {
    pub(crate) monitor: &'a mut M,
    pub(crate) shared: &'a Shared<D, J>,
    pub(crate) rt: &'a R,
    pub(crate) ended: &'a AtomicBool,
}

// How many events were stored, as it is told.
fn counts_of(stored: StoredCounts) -> EventCounts
    ensures { result ≡ record { relp = stored.relp; lumberjack = stored.lumberjack; hec = stored.hec } }
{
    EventCounts {
        relp: stored.relp,
        lumberjack: stored.lumberjack,
        hec: stored.hec,
    }
}

// The numbers of a spool that stands at this level, in that run, which has stored these events.
fn numbers_at(run: u32, level: Level, stored: EventCounts) -> SpoolNumbers
    ensures { result ≡ numbers_of run level stored }
{
    SpoolNumbers {
        run,
        end: level.standing.end,
        cursor: level.standing.cursor,
        known_count: level.standing.known_count,
        room: level.standing.room,
        slots: level.slots,
        free_slots: level.free_slots,
        most: level.most,
        stored,
    }
}

impl<'a, M: Monitor, D: Disk, J: Naming, R: Wait> Task for Reporting<'a, M, D, J, R> {
    type Output = ();

    ghost can_run = { λ _. MayTell (HasLevel D.Disk J.start J.run J.seats J.began) J.run.number M.may_tell };

    ghost leaves = { λ _ _. Unit {0} };

    fn run(self) {
        let Reporting {
            monitor,
            shared,
            rt,
            ended,
        } = self;
        'askers: for _ in rt.forever() {
            if ended.load(Ordering::SeqCst) {
                break;
            }
            if monitor.is_asked() {
                let stored = counts_of(shared.stored());
                let numbers = numbers_at(shared.run(), shared.level(rt), stored);
                monitor.tell(&numbers);
            }
        }
    }
}

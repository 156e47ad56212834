//! What workers are given, and what they leave.
ghost use Rattle.std.specs.Prelude.{◌≡◌, ◌+◌, ◌<◌, ◌≤◌, map, IfOk, vec_len};
ghost use Rattle.std.specs.Vec.{vec_capacity};
ghost use Rattle.serve_workers.specs.Crews.{IsRoom};

use crate::worker::{Worker, WorkerReport};
use conn_serve::Rules;
use desk_seats::Seat;
use edge_io::Door;
use std::alloc::{AllocError, Global};

/// Where one worker serves, and how.
#[derive(Drop)]
pub struct Post<P: Door> {
    /// The door at which its links come in.
    pub door: P,
    /// The rules by which it serves each of them: the protocol, and the tokens of the collector.
    pub rules: Rules,
}

/// What workers leave. Each list has one item for each worker, in their order.
#[derive(Drop)]
pub struct Crew<P: Door, S: Seat> {
    /// The doors, to which the links that were finished are given back.
    pub doors: Vec<P>,
    /// The passes, which have seen all calls that their workers made.
    pub passes: Vec<S::Pass>,
    /// Why each worker ended, and how many links it finished.
    pub reports: Vec<WorkerReport>,
}

/// The error of [`crate::hire`]: no memory was found for the workers. None of them has begun, and all is given back.
#[derive(Drop)]
pub struct NoCrew<P: Door, S: Seat> {
    /// The doors and their rules, as they were given.
    pub posts: Vec<Post<P>>,
    /// The passes, as they were given.
    pub passes: Vec<S::Pass>,
}

/// Empty lists with room for a number of workers and for what they leave, and for one pass more.
#[derive(Drop)]
pub(crate) struct Room<P: Door, S: Seat> {
    pub(crate) workers: Vec<Worker<P, S>>,
    pub(crate) crew: Crew<P, S>,
}

/// Reserves room for `many` workers, at most 4,096, and for what they leave, with one pass more. The error is want of memory.
pub(crate) fn room_for<P: Door + Drop, S: Seat>(
    alloc: Global,
    many: usize,
) -> Result<Room<P, S>, AllocError>
    requires { many ≤ 4096 }

    ensures workers { IfOk result (λ room. IsRoom many room.workers) }
    ensures crew { IfOk result (λ room. IsRoom many room.crew.doors × IsRoom (many + 1) room.crew.passes × IsRoom many room.crew.reports) }
{
    Ok(Room {
        workers: Vec::with_capacity(alloc, many)?,
        crew: Crew {
            doors: Vec::with_capacity(alloc, many)?,
            passes: Vec::with_capacity(alloc, many + 1)?,
            reports: Vec::with_capacity(alloc, many)?,
        },
    })
}

/// Moves what the workers leave into the lists of `crew`, which are empty and have room for it and for one pass more.
pub(crate) fn dismissed<P: Door + Drop, S: Seat>(
    workers: Vec<Worker<P, S>>,
    crew: Crew<P, S>,
) -> Crew<P, S>
    requires doors { IsRoom (vec_len workers) crew.doors }
    requires passes { IsRoom (vec_len workers + 1) crew.passes }
    requires reports { IsRoom (vec_len workers) crew.reports }

    ensures doors { result.doors.items ≡ map (λ (worker : _). worker.door) workers.items }
    ensures passes { map S.pass_knows result.passes.items ≡ map (λ (worker : _). S.knows worker.seat) workers.items }
    ensures reports { result.reports.items ≡ map (λ (worker : _). worker.report) workers.items }
    ensures room { vec_len result.passes < vec_capacity result.passes }
{
    let Crew {
        mut doors,
        mut passes,
        mut reports,
    } = crew;
    for worker in workers {
        let Worker {
            door,
            seat,
            report,
            ..
        } = worker;
        doors.push_reserved(door);
        passes.push_reserved(seat.into_pass());
        reports.push_reserved(report);
    }
    Crew {
        doors,
        passes,
        reports,
    }
}

//! A desk that is to be shared.
ghost use Rattle.std.specs.Prelude.{◌≡◌, ◌<◌, [], false, IfOk, IfErr};
ghost use Rattle.hec_ids.specs.Table.{IsSound};
ghost use Rattle.spool_log.specs.Memory.{run_of};
ghost use Rattle.spool_desk.specs.Alone.{alone_at};
ghost use Rattle.spool_turns.specs.Rules.{first_view};
ghost use Rattle.spool_turns.specs.Twins.{of_both};
ghost use Rattle.spool_turns.specs.Stands.{IsTold};

use crate::hall::Hall;
use crate::journal::Journal;
use crate::level::Level;
use crate::naming::Naming;
use crate::pass::Pass;
use crate::rule::{PassSeat, SeatTable};
use crate::shared::Shared;
use crate::steps::make_pass;
use crate::tally::Tally;
use crate::turn::Turn;
use crate::twin::{TwinSeat, TwinTable, apart, free};
use desk_access::{Access, Division};
use edge_disk::Disk;
use hec_ids::Ids;
use spool_desk::{Alone, Desk};
use std::alloc::Global;
use std::marker::PhantomData;
use std::sync::Mutex;

/// There was no memory. The desk is given back.
#[derive(Drop)]
pub struct NoShare<D: Disk> {
    /// The desk, as it was given.
    pub desk: Desk<D>,
}

/// A shared desk and its passes, in the order of their numbers.
#[derive(Drop)]
pub struct Opened<D: Disk, J: Naming> {
    /// The desk that the passes share.
    pub shared: Shared<D, J>,
    /// One pass for each caller.
    pub passes: Vec<Pass<J>>,
}

/// A desk with a table of seats, which has no name yet.
///
/// The type of what lies under the lock has the desk's name, and a name can't stand in the types of the call that picks
/// it. So a desk is shared in two steps: [`Unnamed::new`], and [`Unnamed::named`] in a function that is generic in the
/// name.
#[derive(Drop)]
pub struct Unnamed<D: Disk> {
    /// The desk, as one that has a single caller yet.
    pub alone: Alone<D>,
    pub(crate) table: SeatTable,
    pub(crate) locked: PassSeat,
    pub(crate) twins: TwinTable<D>,
    pub(crate) twin: TwinSeat<D>,
    /// How often the spool was opened for storing.
    pub run: u32,
    pub ghost run_is: { run ≡ run_of alone.desk.spool.memory },
    pub ghost none_held: { alone.desk.ids.held ≡ [] },
    pub ghost ids_of_run: { alone.desk.ids.run ≡ run },
    pub ghost words: { table.shared.table_id.words ≡ 4 },
    pub ghost seated: { locked.table_id ≡ table.shared.table_id },
    pub ghost first: { locked.me ≡ (first_view (alone.end_told, alone.cursor_told), []) },
    pub ghost twin_words: { 0 < twins.shared.table_id.words },
    pub ghost twin_slots: { twins.shared.table_id.slots ≡ 0 },
    pub ghost twin_seated: { twin.table_id ≡ twins.shared.table_id },
    pub ghost both: { twin.me ≡ of_both alone alone },
    pub ghost told: { IsTold (alone_at alone) },
}

// Ids of the run, of which none is held.
fn unused_ids(alloc: Global, run: u32) -> Ids
    ensures sound { IsSound result }
    ensures run { result.run ≡ run }
{
    Ids::new(alloc, run, 0)
}

// The desk with other ids, and its own.
fn split<D: Disk>(alone: Alone<D>, unused: Ids) -> (Alone<D>, Ids)
    ensures ids { (result.1 ≡ alone.desk.ids) × (result.0.desk.ids ≡ unused) }
    ensures same { (result.0.desk.spool ≡ alone.desk.spool) × (result.0.met ≡ alone.met)
        × (result.0.end_told ≡ alone.end_told) × (result.0.cursor_told ≡ alone.cursor_told) }
{
    let Alone {
        desk: Desk { spool, ids },
        met,
        end_told,
        cursor_told,
    } = alone;
    let desk = Desk { spool, ids: unused };
    let alone = Alone {
        desk,
        met,
        end_told,
        cursor_told,
    };
    (alone, ids)
}

impl<D: Disk> Unnamed<D> {
    ghost use Rattle.spool_state.specs.SpoolState.{SpoolState};
    ghost use Rattle.spool_log.specs.State.{view, IsIn};
    ghost use Rattle.desk_access.specs.Desk.{desk_of};
    ghost use Rattle.spool_desk.specs.Alone.{HoldsNone, IsAt};
    ghost use Rattle.desk_seats.specs.Passes.{fresh};
    ghost use Rattle.spool_turns.specs.Named.{IsName};

    /// Tables of seats beside the desk. Its spool isn't in doubt, and its ids are of the spool's run and hold none. A
    /// state that the spool is in is the desk's. The error comes only for want of memory.
    pub fn new(alloc: Global, desk: Desk<D>) -> Result<Unnamed<D>, NoShare<D>>
        requires sure { desk.spool.doubt ≡ false }
        requires ids { HoldsNone (run_of desk.spool.memory) desk.ids }

        ensures desk { IfOk result (λ unnamed. unnamed.alone.desk ≡ desk) }
        ensures at { IfOk result (λ unnamed. (s : SpoolState) → D.tells → IsIn s [] (view desk.spool.memory desk.spool.doubt (D.moment desk.spool.disk))
            → IsAt (desk_of s [] desk.ids) (alone_at unnamed.alone)) }
        ensures err { IfErr result (λ refused. refused.desk ≡ desk) }
    {
        let mut alone = Alone::new(desk);
        let end = alone.end();
        let cursor = alone.cursor();
        let Ok((table, locked)) = SeatTable::of_words(alloc, &[0, end, cursor, 0], &(end, cursor))
        else {
            return Err(NoShare {
                desk: alone.into_desk(),
            });
        };
        let Ok((twins, twin)) = TwinTable::of_words(alloc, &[0], &alone) else {
            return Err(NoShare {
                desk: alone.into_desk(),
            });
        };
        let run = alone.desk.spool.run();
        Ok(Unnamed {
            alone,
            table,
            locked,
            twins,
            twin,
            run,
        })
    }

    /// The shared desk under a name that is its own, and so many passes, which have seen nothing and have the numbers
    /// from 0 on. The one with the greatest number may confirm. With `group` takes of several passes may be stored as one
    /// group; without it each take is stored by itself. The numbers of the run's connections are divided among the passes by
    /// `division`. The error comes only for want of memory.
    pub fn named<J: Naming>(
        self,
        alloc: Global,
        seats: u32,
        group: bool,
        division: Division,
    ) -> Result<Opened<D, J>, NoShare<D>>
        requires seats { seats ≡ J.seats }
        requires group { group ≡ J.began.grouped }
        requires division { division ≡ J.run.division }
        requires name { IsName J.table J.run J.start J.began self }

        ensures passes { IfOk result (λ opened. opened.passes.items ≡ fresh 0 seats self.alone.end_told self.alone.cursor_told) }
        ensures err { IfErr result (λ refused. refused.desk ≡ self.alone.desk) }
    {
        let Ok(hall) = Hall::new(alloc, seats) else {
            return Err(self.give_back());
        };
        let Ok(mut passes) = Vec::with_capacity(alloc, seats as usize) else {
            return Err(self.give_back());
        };
        let Unnamed {
            alone,
            table,
            mut locked,
            twins,
            mut twin,
            run,
        } = self;
        for i in 0..seats {
            let seat = make_pass(&table.shared, &mut locked, u64::from(i));
            passes.push_reserved(Pass {
                seat,
                number: i,
                of: PhantomData,
            });
        }
        let (alone, ids) = split(alone, unused_ids(alloc, run));
        let other = apart(&twins.shared, &mut twin, &alone);
        let level = Level::of(&alone);
        let turn = Turn {
            alone,
            twin: other,
            of: PhantomData,
        };
        let journal = Journal {
            ids,
            locked,
            twin,
            level,
            of: PhantomData,
        };
        let shared = Shared {
            table,
            twins,
            turn: Mutex::new(turn),
            journal: Mutex::new(journal),
            hall,
            tally: Tally::new(),
            group,
            alloc,
            run,
            division,
        };
        Ok(Opened { shared, passes })
    }

    // The desk, as it was given.
    fn give_back(self) -> NoShare<D>
        ensures { result.desk ≡ self.alone.desk }
    {
        let Unnamed { alone, twins, .. } = self;
        free(twins);
        NoShare {
            desk: alone.into_desk(),
        }
    }
}

//! The table of ids.
ghost use Rattle.std.specs.Prelude.{◌≡◌, length, nat_eq, [], ◌∷◌};
ghost use Rattle.std.specs.List.{IsDistinct};
ghost use Rattle.hec_ids.specs.Table.{holds, holds_settled, holds_unsettled};
ghost use Rattle.hec_ids.specs.Rows.{opened, refusal, Issues, Settles, Forgets, Asks};

use crate::IssueFault;
use crate::counts::busy_fault;
use crate::entries::{hold, release, settle, state_of};
use crate::issued::Issued;
use std::alloc::Global;
use std::collections::BTreeMap;
use std::marker::Model;

/// How many ids a run has.
const IDS_OF_A_RUN: u64 = 4_294_967_296;

/// The acknowledgement ids of one run, for all channels. A channel is named by its GUID. It holds an id
/// from its issue until the id is told or forgotten, and the id is settled once, when its events are
/// stored.
///
/// Contracts see a table: the run, the next id, and the ids held, with their channels, in the order of
/// issue.
#[derive(Drop)]
pub struct Ids {
    run: u32,
    /// The place of the next id in the run, 2^32 where the last was issued.
    used: u64,
    /// The ids held.
    issued: BTreeMap<u64, Issued>,
    /// How many each channel holds; those that hold none are not there.
    counts: BTreeMap<u128, u32>,
}

impl Model for Ids {
    ghost use Rattle.hec_ids.specs.Table.{Table};
    ghost use Rattle.hec_ids.specs.Kept.{IsKept, table_of};

    ghost Value = { Table };

    ghost view = { λ a. table_of a.run a.used a.issued.entries };

    ghost invariant = { λ a. IsKept (table_of a.run a.used a.issued.entries) a.counts };
}

impl Ids {
    /// A table that holds no id. The next id is `run` * 2^32 + `first`, and the last of the run is
    /// `run` * 2^32 + 2^32 - 1. It takes no memory; later calls take theirs from `alloc`.
    pub fn new(alloc: Global, run: u32, first: u32) -> Ids
        ensures { result ≡ opened run first }
    {
        Ids {
            run,
            used: u64::from(first),
            issued: BTreeMap::new(alloc),
            counts: BTreeMap::new(alloc),
        }
    }

    /// Issues the next id to the channel, which then holds it unsettled. `NoMore` comes where the last id
    /// of the run was issued; else `Busy` where the channel holds 10,000 ids, or holds none and 1,000
    /// channels hold some; else `NoMemory` may come. After an error nothing is changed, so that no id is
    /// used up.
    pub fn issue(&mut self, channel: u128) -> Result<u64, IssueFault>
        ensures { Issues self.old channel result self.new }
    {
        if let Some(fault) = self.refusal(channel) {
            return Err(fault);
        }
        let id = u64::from(self.run) * IDS_OF_A_RUN + self.used;
        hold(&mut self.issued, &mut self.counts, channel, id)?;
        self.used += 1;
        Ok(id)
    }

    /// Settles an id, and says whether the channel held it unsettled. Where it didn't, nothing is changed.
    /// It takes no memory.
    pub fn settle(&mut self, channel: u128, id: u64) -> bool
        ensures { Settles self.old channel id result self.new }
    {
        let unsettled = self.holds_unsettled(channel, id);
        if unsettled {
            settle(&mut self.issued, id);
        }
        unsettled
    }

    /// Forgets an id, settled or not, and says whether the channel held it. It takes no memory.
    pub fn forget(&mut self, channel: u128, id: u64) -> bool
        ensures { Forgets self.old channel id result self.new }
    {
        let held = self.holds(channel, id);
        if held {
            release(&mut self.issued, &mut self.counts, channel, id);
        }
        held
    }

    /// Writes of each id into `known`, at its place, whether the channel holds it settled, as the answer
    /// to an acknowledgement query has it. Those that it does are forgotten, so an id is told once; all
    /// others stay. The ids are distinct. It takes no memory.
    pub fn ask(&mut self, channel: u128, ids: &[u64], known: &mut [bool])
        requires equal { length ids.now ≡ length known.old }
        requires distinct { IsDistinct nat_eq ids.now }
        ensures { Asks self.old channel ids.now known.new self.new }
    {
        for (i, id) in ids.iter().enumerate() {
            known[i] = self.tell(channel, *id);
        }
    }

    /// Says whether the channel holds the id settled, and forgets it then.
    fn tell(&mut self, channel: u128, id: u64) -> bool
        ensures { Asks self.old channel (id ∷ []) (result ∷ []) self.new }
    {
        let settled = self.holds_settled(channel, id);
        if settled {
            release(&mut self.issued, &mut self.counts, channel, id);
        }
        settled
    }

    /// Why no id is issued to the channel now, if so.
    fn refusal(&self, channel: u128) -> Option<IssueFault>
        ensures { result ≡ refusal self.now channel }
    {
        if self.used == IDS_OF_A_RUN {
            Some(IssueFault::NoMore { run: self.run })
        } else {
            busy_fault(&self.counts, channel)
        }
    }

    /// Whether the channel holds the id.
    fn holds(&self, channel: u128, id: u64) -> bool
        ensures { result ≡ holds channel id self.now.held }
    {
        state_of(&self.issued, channel, id).is_some()
    }

    /// Whether the channel holds the id settled.
    fn holds_settled(&self, channel: u128, id: u64) -> bool
        ensures { result ≡ holds_settled channel id self.now.held }
    {
        match state_of(&self.issued, channel, id) {
            Some(settled) => settled,
            None => false,
        }
    }

    /// Whether the channel holds the id, not settled yet.
    fn holds_unsettled(&self, channel: u128, id: u64) -> bool
        ensures { result ≡ holds_unsettled channel id self.now.held }
    {
        match state_of(&self.issued, channel, id) {
            Some(settled) => !settled,
            None => false,
        }
    }
}

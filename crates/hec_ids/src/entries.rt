//! Changes of the ids held, and of their counts with them.
ghost use Rattle.std.specs.Prelude.{◌≡◌, ◌<◌, ℕ, List, true, not, map, filter, [], ◌∷◌, ◌++◌, OnOk, OnErr, unwrap_or};
ghost use Rattle.std.specs.Ordering.{nat_cmp};
ghost use Rattle.std.specs.BTreeMap.{IsUnchanged, get};
ghost use Rattle.hec_ids.specs.Table.{AreRising, count_of, holds, is_of};
ghost use Rattle.hec_ids.specs.Rows.{unsettled, settled_at};
ghost use Rattle.hec_ids.specs.Kept.{AreCounted, held_of, state_at};

use crate::counts::{count_one, uncount};
use crate::issued::Issued;
use std::alloc::AllocError;
use std::collections::BTreeMap;

/// What the channel has of the id: whether it is settled, if the channel holds it.
pub(crate) fn state_of(issued: &BTreeMap<u64, Issued>, channel: u128, id: u64) -> Option<bool>
    ensures { result ≡ state_at channel (get nat_cmp issued.now id) }
{
    match issued.get(&id) {
        Some(one) if one.channel == channel => Some(one.settled),
        _ => None,
    }
}

/// Lets the channel hold the id, unsettled. The id is above all others, and the channel holds fewer than
/// 10,000.
pub(crate) fn hold(
    issued: &mut BTreeMap<u64, Issued>,
    counts: &mut BTreeMap<u128, u32>,
    channel: u128,
    id: u64,
) -> Result<(), AllocError>
    requires above { AreRising 0 id (held_of issued.old.entries) }
    requires counted { AreCounted counts.old (held_of issued.old.entries) }
    requires few { count_of channel (held_of issued.old.entries) < 10000 }
    ensures held { OnOk result (held_of issued.new.entries ≡ held_of issued.old.entries ++ unsettled channel id ∷ []) }
    ensures counted { OnOk result (AreCounted counts.new (held_of issued.new.entries)) }
    ensures err { OnErr result (IsUnchanged issued.old issued.new) }
    ensures err_counts { OnErr result (IsUnchanged counts.old counts.new) }
{
    let settled = false;
    issued.insert(id, Issued { channel, settled })?;
    if count_one(counts, channel).is_err() {
        issued.remove(&id);
        return Err(AllocError);
    }
    Ok(())
}

/// Takes an id from the channel that holds it.
pub(crate) fn release(
    issued: &mut BTreeMap<u64, Issued>,
    counts: &mut BTreeMap<u128, u32>,
    channel: u128,
    id: u64,
)
    ensures held { (from to : ℕ) → AreRising from to (held_of issued.old.entries) → holds channel id (held_of issued.old.entries) ≡ true → held_of issued.new.entries ≡ filter (λ h. not (is_of channel id h)) (held_of issued.old.entries) }
    ensures counted { (from to : ℕ) → AreRising from to (held_of issued.old.entries) → holds channel id (held_of issued.old.entries) ≡ true → AreCounted counts.old (held_of issued.old.entries) → AreCounted counts.new (held_of issued.new.entries) }
{
    issued.remove(&id);
    uncount(counts, channel);
}

/// Settles an id that a channel holds.
pub(crate) fn settle(issued: &mut BTreeMap<u64, Issued>, id: u64)
    ensures { (channel from to : ℕ) → AreRising from to (held_of issued.old.entries) → holds channel id (held_of issued.old.entries) ≡ true → held_of issued.new.entries ≡ map (λ h. settled_at channel id h) (held_of issued.old.entries) }
{
    if let Some(one) = issued.get_mut(&id) {
        one.settled = true;
    }
}

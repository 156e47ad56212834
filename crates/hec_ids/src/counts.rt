//! How many ids each channel holds.
ghost use Rattle.std.specs.Prelude.{◌≡◌, ◌<◌, List, OnOk, OnErr, unwrap_or};
ghost use Rattle.std.specs.Ordering.{nat_cmp};
ghost use Rattle.std.specs.BTreeMap.{IsUnchanged, get};
ghost use Rattle.hec_ids.specs.Table.{Held};
ghost use Rattle.hec_ids.specs.Rows.{busy};
ghost use Rattle.hec_ids.specs.Kept.{AreCounted, HasOneMore};

use crate::IssueFault;
use std::alloc::AllocError;
use std::collections::BTreeMap;

/// How many ids a channel holds at most.
const MOST_IDS: u32 = 10_000;

/// How many channels hold ids at most.
const MOST_CHANNELS: u32 = 1_000;

/// Whether the channel, or the table, has as many as it can hold.
pub(crate) fn busy_fault(counts: &BTreeMap<u128, u32>, channel: u128) -> Option<IssueFault>
    ensures { (held : List Held) → AreCounted counts.now held → result ≡ busy channel held }
{
    let channels = counts.len();
    match counts.get(&channel) {
        Some(count) if *count >= MOST_IDS => Some(IssueFault::Busy { held: MOST_IDS }),
        None if channels >= MOST_CHANNELS as usize => Some(IssueFault::Busy {
            held: MOST_CHANNELS,
        }),
        _ => None,
    }
}

/// Counts one id more for the channel, which holds fewer than 10,000.
pub(crate) fn count_one(counts: &mut BTreeMap<u128, u32>, channel: u128) -> Result<(), AllocError>
    requires { unwrap_or (get nat_cmp counts.old channel) 0 < 10000 }
    ensures ok { OnOk result ((held more : List Held) → HasOneMore channel held more → AreCounted counts.old held → AreCounted counts.new more) }
    ensures err { OnErr result (IsUnchanged counts.old counts.new) }
{
    let count = counts.get(&channel).copied().unwrap_or(0);
    counts.insert(channel, count + 1)?;
    Ok(())
}

/// Counts one id less for the channel. A channel that holds no more is not counted.
pub(crate) fn uncount(counts: &mut BTreeMap<u128, u32>, channel: u128)
    ensures { (less held : List Held) → HasOneMore channel less held → AreCounted counts.old held → AreCounted counts.new less }
{
    let count = counts.get(&channel).copied().unwrap_or(0);
    let last = count <= 1;
    if last {
        counts.remove(&channel);
    } else {
        let _ = counts.insert(channel, count - 1);
    }
}

//! Ack queries.
ghost use Rattle.std.specs.Prelude.{◌≡◌, ◌≢◌, ◌≤◌, ℕ, List, codes, length, nat_eq, option_map, option_and_then, IfOk};
ghost use Rattle.std.specs.List.{IsDistinct};
ghost use Rattle.serde_json.specs.Find.{get, as_array};
ghost use Rattle.serde_json.specs.View.{view, items_view};
ghost use Rattle.body_faults.specs.declared.fault.AckFault.TheVariants.{Format};
ghost use Rattle.hec_body.specs.Acks.{numbers, distinct, AsksFor};

use crate::limits::MOST_IDS;
use body_faults::AckFault;
use serde_json::Value;
use std::alloc::{AllocError, Global};
use std::collections::BTreeSet;

/// The whole numbers from 0 to 2^64 - 1 that the values are.
fn whole_numbers(alloc: Global, values: &[Value]) -> Result<Vec<u64>, AckFault>
    ensures numbers { IfOk result (λ found. items_view values.now ≡ numbers found.items) }
    ensures other { result ≡ Err Format → (found : List ℕ) → items_view values.now ≢ numbers found }
{
    let mut found = Vec::new(alloc);
    for value in values {
        match value.as_u64() {
            Some(number) => found.push(number)?,
            None => return Err(AckFault::Format),
        }
    }
    Ok(found)
}

/// Each of the numbers where it stands first.
fn first_of_each(alloc: Global, asked: &[u64]) -> Result<Vec<u64>, AllocError>
    ensures { IfOk result (λ ids. ids.items ≡ distinct asked.now) }
{
    let mut ids = Vec::new(alloc);
    let mut seen = BTreeSet::new(alloc);
    for number in asked {
        if seen.insert(*number)? {
            ids.push(*number)?;
        }
    }
    Ok(ids)
}

/// The values of the member `acks`.
fn acks_of(query: &Value) -> Option<&Vec<Value>>
    ensures { option_map (λ values. items_view values.now.items) result ≡ option_and_then as_array (get (codes "acks") (view query.now)) }
{
    let acks = query.get("acks")?;
    acks.as_array()
}

/// The ids that an ack query asks for (Splunk's endpoint `services/collector/ack`): `{"acks":[N,..]}`, as
/// `serde_json` reads it, so that the last member `acks` counts. There are at most 10,000 whole numbers from
/// 0 to 2^64 - 1, those counted that come again; the ids are the distinct ones, in the order of their first
/// places. There may be none.
///
/// `Format`: the body is anything else; so it is where it isn't UTF-8, or where a number that no float holds
/// or an escape of a lone surrogate stands anywhere in it, and `-0`, `1.0` and `1e2` are no whole numbers.
/// `NoMemory`: no memory was found; it can come in place of any answer.
pub fn ack_ids(alloc: Global, body: &[u8]) -> Result<Vec<u64>, AckFault>
    ensures ids { IfOk result (λ ids. AsksFor body.now ids.items) }
    ensures distinct { IfOk result (λ ids. IsDistinct nat_eq ids.items) }
    ensures few { IfOk result (λ ids. length ids.items ≤ 10000) }
    ensures format { result ≡ Err Format → (ids : List ℕ) → ¬ AsksFor body.now ids }
{
    let query = Value::from_slice(alloc, body)?;
    match acks_of(&query) {
        Some(values) if values.len() <= MOST_IDS => {
            let asked = whole_numbers(alloc, values)?;
            Ok(first_of_each(alloc, &asked)?)
        }
        _ => Err(AckFault::Format),
    }
}

//! The events of a load.
ghost use Rattle.std.specs.Prelude.{◌≡◌, ◌≤◌, length, IfOk, string_bytes};
ghost use Rattle.load_run.specs.Events.{next_number, load_text};

use std::alloc::{AllocError, Global};

/// The number after this one: (x * 1103515245 + 12345) mod 2^31.
pub(crate) fn next_number(x: u32) -> u32
    ensures { result ≡ next_number x }
{
    ((u64::from(x) * 1_103_515_245 + 12_345) % 2_147_483_648) as u32
}

/// The text of the event at this place, which has this number: `load I X`.
pub(crate) fn load_text(alloc: Global, place: u32, x: u32) -> Result<String, AllocError>
    ensures text { IfOk result (λ text. string_bytes text ≡ load_text place x) }
    ensures short { IfOk result (λ text. length (string_bytes text) ≤ 131072) }
{
    format!(in alloc; "load {place} {x}")
}

//! The frames that are not answered.
ghost use Rattle.std.specs.Prelude.{◌≡◌, ◌≢◌, ◌<◌, ◌^◌, All, IfSome, IfNone};
ghost use Rattle.relp_sender.specs.Texts.{txnr_of};
ghost use Rattle.relp_sender.specs.Window.{IsFirstOf, beyond_of};

use crate::text::txnr_of;
use std::collections::VecDeque;

/// The index of the first of these places whose frame has this transaction number.
pub(crate) fn first_of(places: &VecDeque<u64>, txnr: u32) -> Option<usize>
    requires { All (λ place. place < 2 ^ 63) places.now.items }
    ensures some { IfSome result (λ index. IsFirstOf places.now.items txnr index) }
    ensures none { IfNone result (All (λ place. txnr_of place ≢ txnr) places.now.items) }
{
    for index in 0..places.len() {
        let Some(place) = places.get(index) else {
            unreachable!()
        };
        if txnr_of(*place) == txnr {
            return Some(index);
        }
    }
    None
}

/// The place, where it doesn't follow the places that are acknowledged already: where places before it are
/// not answered.
pub(crate) fn beyond(index: usize, place: u64) -> Option<u64>
    ensures { result ≡ beyond_of index place }
{
    if index == 0 { None } else { Some(place) }
}

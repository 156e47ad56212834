//! The doors of a place.
ghost use Rattle.std.specs.Prelude.{◌≡◌, IfOk, All, length};
ghost use Rattle.edge_io.specs.Door.{IsNewDoor};
ghost use Rattle.edge_net.specs.TcpDoor.{state_of as door_state};

use crate::TcpDoor;
use crate::door::Shared;
use std::alloc::{AllocError, Global};

/// So many doors of the one socket: each accepts the connections that the others don't.
pub(crate) fn doors_over<'a, R>(
    alloc: Global,
    place: &str,
    count: usize,
    shared: &Shared<'a, R>,
) -> Result<Vec<TcpDoor<'a, R>>, AllocError>
    ensures count { IfOk result (λ made. length made.items ≡ count) }
    ensures fresh { IfOk result (λ made. All (λ door. IsNewDoor place.now (door_state door)) made.items) }
{
    let mut made = Vec::with_capacity(alloc, count)?;
    'doors: while made.len() < count {
        let name = String::from_str(alloc, place)?;
        let theirs = shared.try_clone()?;
        made.push_reserved(TcpDoor::at(name, theirs));
    }
    Ok(made)
}

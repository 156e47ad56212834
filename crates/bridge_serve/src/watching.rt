//! Where those come in who ask for the numbers of the spool.
ghost use Rattle.std.specs.Prelude.{◌≡◌, ◌↔◌, IsSome, IfSome, IfOk};
ghost use Rattle.edge_io.specs.Net.{SameHung, HasNetCause};

use edge_io::{Net, NetFault};
use notes::Place;

/// Listens at the place of `--status`, if the words name one, for those who ask for the numbers of the spool. No door is bound there.
/// The error is the net's.
pub(crate) fn watch<N: Net>(status: &Option<Place>, net: &mut N) -> Result<Option<N::M>, NetFault>
    requires named { IfSome status.now N.may_bind }

    ensures listens { IfOk result (λ monitor. IsSome monitor ↔ IsSome status.now) }
    ensures cause { HasNetCause (N.told net.old).net_faults (N.told net.new).net_faults result }
    ensures bound { (N.told net.new).bound ≡ (N.told net.old).bound }
    ensures rest { SameHung (N.told net.old) (N.told net.new) }
{
    let Some(place) = status else {
        return Ok(None);
    };
    let monitor = net.monitor(place.as_str())?;
    Ok(Some(monitor))
}

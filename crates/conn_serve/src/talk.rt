//! What a connection says, and how it ends.
ghost use Rattle.std.specs.Prelude.{◌≡◌, ◌<◌, ◌≤◌, ℕ, length, take, OnOk, IsErr, IfErr};
ghost use Rattle.std.specs.Io.KnownBytes.{Appends};
ghost use Rattle.event_form.specs.declared.talk.Talk.TheVariants.{WriteFault};
ghost use Rattle.edge_io.specs.Told.{MayFollow};
ghost use Rattle.conn_serve.specs.Endings.{CountsFaults};
ghost use Rattle.conn_serve.specs.Relp.{talk_of};

use edge_io::{Link, write_whole};
use event_form::Talk;
use spool_answers::TakeFault;

/// The ending by a take that wasn't answered Ok.
pub fn talk_of(fault: TakeFault) -> Talk
    ensures { result ≡ talk_of fault }
{
    match fault {
        TakeFault::TooLarge { need, most } => Talk::TooLarge { need, most },
        TakeFault::Spent { end } => Talk::Spent { end },
        TakeFault::Full { need, room } => Talk::Full { need, room },
        TakeFault::NotSpool { at } => Talk::NotSpool { at },
        TakeFault::NoMemory => Talk::NoMemory,
        TakeFault::DiskFault => Talk::DiskFault,
    }
}

/// Writes one text, which the link may take. The error is `WriteFault`: a write failed, and the first bytes of
/// the text were written, not all.
pub fn say<L: Link>(link: &mut L, text: &[u8]) -> Result<(), Talk>
    requires permitted { MayFollow (L.permits link.old) (L.taken link.old) text.now }

    ensures whole { OnOk result (Appends (L.taken link.old) (L.taken link.new) text.now) }
    ensures part { IfErr result (λ talk. (talk ≡ WriteFault)
        × ((k : ℕ) × (k < length text.now) × Appends (L.taken link.old) (L.taken link.new) (take k text.now))) }
    ensures writes { CountsFaults (IsErr result) (L.write_faults link.old) (L.write_faults link.new) }
    ensures same { L.same link.old link.new }
    ensures apart { L.write_apart link.old link.new }
{
    match write_whole(link, text) {
        Ok(()) => Ok(()),
        Err(_) => Err(Talk::WriteFault),
    }
}

//! The call of words that serve no network: it ends.
ghost use Rattle.std.specs.Prelude.{◌≡◌, ℕ, List};
ghost use Rattle.notes.specs.Notes.{status_of};
ghost use Rattle.bridge_core.specs.RunOf.{IsRunOf};
ghost use Rattle.bridge_core.specs.Failed.{AsksServe};
ghost use Rattle.bridge_core.specs.Headline.{KeepsAcknowledged};
ghost use Rattle.bridge_core.specs.Leave.{ForWords, MayReplay, MayTake, WasRead, MayReleaseOn, WasWritten, exchanges_as, HasExchangedAt, MayTear, MayDial, MayPrint};
ghost use Rattle.bridge_core.specs.Told.{ran, texts};

use crate::asked::{Unasked, asked_of};
use crate::doing::do_other;
use crate::ended::Ended;
use edge_disk::Disk;
use edge_io::{Net, Sink, Source};
use notes::Note;
use std::alloc::Global;

/// Does what [`bridge`](crate::bridge) does with these words, where they aren't those of `serve`, and always comes to an end: it has no
/// leave to wait, nor for a thread, so that it is proved to return. What may take long is each single call of the disk, of the streams
/// and of the net alone: `replay`, and `drain` without a place, read the input, and a read there waits for whoever writes to it.
///
/// No door is bound, nobody is told how the spool stands, and nothing is written to a sender but by `replay`, to the output. So it asks
/// for no leave for these. What it does ask for, and what it ensures, are the clauses of [`bridge`](crate::bridge).
pub fn bridge_once<D: Disk, S: Source, K: Sink, N: Net>(
    alloc: Global,
    words: &[String],
    disk: D,
    input: &mut S,
    output: &mut K,
    net: &mut N,
) -> Ended<D, N::P>
    requires once { AsksServe (texts words.now) → ⊥ }
    requires replays { ForWords (texts words.now)
        (MayReplay D.tells D.moment disk (WasRead S.same S.given input.old) (MayTake K.same K.taken K.permits output.old)) }
    requires releases { ForWords (texts words.now) (MayReleaseOn D.Disk disk (exchanges_as
        (WasRead S.same S.given input.old) (WasWritten K.same K.taken output.old)
        (HasExchangedAt N.L.same N.L.dialed N.L.given N.L.taken))) }
    requires tears { ForWords (texts words.now) (MayTear D.tells D.moment D.may_tear D.may_release) }
    requires dials { ForWords (texts words.now) (MayDial N.may_dial) }
    requires prints { ForWords (texts words.now) (MayPrint ((sink : K) (text : List ℕ) → K.permits sink text)) }

    ensures status { result.status ≡ status_of result.note }
    ensures run { IsRunOf (texts words.now) (ran (D.Disk, S.Source.own, K.Sink.own, N.told, N.P.told)
        (disk, input.old, output.old, net.old) (input.new, output.new, net.new) result) result.note }
    ensures acknowledged { KeepsAcknowledged (texts words.now) (ran (D.Disk, S.Source.own, K.Sink.own, N.told, N.P.told)
        (disk, input.old, output.old, net.old) (input.new, output.new, net.new) result) }
{
    match asked_of(alloc, words) {
        Ok(command) => do_other(alloc, command, disk, input, output, net),
        Err(Unasked::NoCommand) => Ended::of(alloc, Note::Usage, disk),
        Err(Unasked::NoMemory) => Ended::of(alloc, Note::NoMemory, disk),
    }
}

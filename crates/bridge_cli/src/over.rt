//! The top call, over any disk: of `serve`, or of other words, which end.
ghost use Rattle.std.specs.Prelude.{◌≡◌, ◌≢◌, ℕ, List, IsTrue, map, string_bytes};
ghost use Rattle.bridge_words.specs.declared.need.Need.{Need};
ghost use Rattle.bridge_words.specs.declared.need.Need.TheVariants.{Existing};
ghost use Rattle.bridge_words.specs.Words.{IsNeed};
ghost use Rattle.bridge_core.specs.Failed.{AsksServe};
ghost use Rattle.bridge_core.specs.Leave.{ForWords, MayAnswer, MayReplay, MayTake, WasRead, MayReleaseOn, WasWritten, exchanges_as, HasExchangedAt, MayTear, MayBind, MayTell, MayReport, MayDial, MayPrint};
ghost use Rattle.bridge_cli.specs.Noted.{IsNoteOf, faults_at};
ghost use Rattle.bridge_cli.specs.Texts.{ForTexts};
ghost use Rattle.bridge_cli.specs.Watched.{KeepsWatched};

use bridge_core::{Ended, bridge, bridge_once};
use cli_parts::{Host, Opening, Progress, Told, Waiting, Watched};
use edge_disk::Disk;
use edge_io::{Door, Net, Sink, Source};
use edge_memory::MemDisk;
use notes::Note;
use std::alloc::Global;
use std::sync::Wait;
use std::thread::Threads;

// Runs the words over the disk, which is the file of this path. It is watched meanwhile, and somebody may wait for it; how it is goes where
// `told` says. Its reading may be shown. What was done is what `bridge` does, and nothing else: of the disk, of the streams and of the net.
fn run_serving<D: Disk + Drop + Send, S: Source, K: Sink, N: Net + Send, R: Threads + Wait + Sync>(
    host: Host<'_>,
    threads: &R,
    words: &[String],
    disk: D,
    path: &str,
    is_shown: bool,
    waiting: Waiting,
    told: Told<'_>,
    input: &mut S,
    output: &mut K,
    net: &mut N,
) -> Ended<D, N::P>
where
    N::P: Drop + Send,
    <N::P as Door>::L: Send,
    N::L: Send,
    N::M: Drop + Send,
    requires answers { ForWords (map string_bytes words.now) (MayAnswer D.tells D.moment disk N.permits) }
    requires binds { ForWords (map string_bytes words.now) (MayBind N.may_bind) }
    requires tells { ForWords (map string_bytes words.now) (MayTell D.tells D.moment disk N.M.may_tell) }
    requires reports { ForWords (map string_bytes words.now)
        (MayReport D.tells D.moment disk (HasExchangedAt N.L.same N.L.dialed N.L.given N.L.taken) N.may_report) }
    requires dials { ForWords (map string_bytes words.now) (MayDial N.may_dial) }
    requires replays { ForWords (map string_bytes words.now)
        (MayReplay D.tells D.moment disk (WasRead S.same S.given input.old) (MayTake K.same K.taken K.permits output.old)) }
    requires releases { ForTexts words.now (MayReleaseOn D.Disk disk (exchanges_as
        (WasRead S.same S.given input.old) (WasWritten K.same K.taken output.old)
        (HasExchangedAt N.L.same N.L.dialed N.L.given N.L.taken))) }
    requires tears { ForWords (map string_bytes words.now) (MayTear D.tells D.moment D.may_tear D.may_release) }
    requires prints { ForWords (map string_bytes words.now) (MayPrint ((sink : K) (text : List ℕ) → K.permits sink text)) }

    ensures run { KeepsWatched (D.Disk, S.Source.own, K.Sink.own, N.told, N.P.told) (map string_bytes words.now)
        (disk, input.old, output.old, net.old) (input.new, output.new, net.new) result }
{
    let progress = Progress::new(host, is_shown);
    let disk = Watched::new(disk, progress, "FILE", waiting).noting(told, path);
    let Ended {
        status,
        note,
        disk,
        doors,
    } = bridge(threads, host.rt.alloc(), words, disk, input, output, net);
    Ended {
        status,
        note,
        disk: disk.into_disk(),
        doors,
    }
}

/// Runs words that are none of `serve` over the disk, which is the file of this path. It is watched meanwhile, and somebody may wait for it;
/// how it is goes where `told` says. Its reading may be shown. What was done is what `bridge_once` does, and nothing else, and it ends.
pub(crate) fn run_once<D: Disk, S: Source, K: Sink, N: Net>(
    host: Host<'_>,
    words: &[String],
    disk: D,
    path: &str,
    is_shown: bool,
    waiting: Waiting,
    told: Told<'_>,
    input: &mut S,
    output: &mut K,
    net: &mut N,
) -> Ended<D, N::P>
    requires once { AsksServe (map string_bytes words.now) → ⊥ }
    requires dials { ForWords (map string_bytes words.now) (MayDial N.may_dial) }
    requires replays { ForWords (map string_bytes words.now)
        (MayReplay D.tells D.moment disk (WasRead S.same S.given input.old) (MayTake K.same K.taken K.permits output.old)) }
    requires releases { ForTexts words.now (MayReleaseOn D.Disk disk (exchanges_as
        (WasRead S.same S.given input.old) (WasWritten K.same K.taken output.old)
        (HasExchangedAt N.L.same N.L.dialed N.L.given N.L.taken))) }
    requires tears { ForWords (map string_bytes words.now) (MayTear D.tells D.moment D.may_tear D.may_release) }
    requires prints { ForWords (map string_bytes words.now) (MayPrint ((sink : K) (text : List ℕ) → K.permits sink text)) }

    ensures run { KeepsWatched (D.Disk, S.Source.own, K.Sink.own, N.told, N.P.told) (map string_bytes words.now)
        (disk, input.old, output.old, net.old) (input.new, output.new, net.new) result }
{
    let progress = Progress::new(host, is_shown);
    let disk = Watched::new(disk, progress, "FILE", waiting).noting(told, path);
    let Ended {
        status,
        note,
        disk,
        doors,
    } = bridge_once(host.rt.alloc(), words, disk, input, output, net);
    Ended {
        status,
        note,
        disk: disk.into_disk(),
        doors,
    }
}

/// Runs the words over the disk, which is the file of this path, as they want it. It is watched meanwhile, and how it is goes where `told` says. What was
/// done is what `bridge` does, and nothing else: of the disk, of the streams and of the net. Words that are none of `serve` are done by
/// `bridge_once`, which ends; so they alone may wait, and take threads.
pub(crate) fn run_over<
    D: Disk + Drop + Send,
    S: Source,
    K: Sink,
    N: Net + Send,
    R: Threads + Wait + Sync,
>(
    host: Host<'_>,
    threads: &R,
    words: &[String],
    disk: D,
    path: &str,
    opening: Opening,
    told: Told<'_>,
    input: &mut S,
    output: &mut K,
    net: &mut N,
) -> Ended<D, N::P>
where
    N::P: Drop + Send,
    <N::P as Door>::L: Send,
    N::L: Send,
    N::M: Drop + Send,
    requires serves { AsksServe (map string_bytes words.now) → IsTrue opening.is_serving }
    requires answers { ForWords (map string_bytes words.now) (MayAnswer D.tells D.moment disk N.permits) }
    requires binds { ForWords (map string_bytes words.now) (MayBind N.may_bind) }
    requires tells { ForWords (map string_bytes words.now) (MayTell D.tells D.moment disk N.M.may_tell) }
    requires reports { ForWords (map string_bytes words.now)
        (MayReport D.tells D.moment disk (HasExchangedAt N.L.same N.L.dialed N.L.given N.L.taken) N.may_report) }
    requires dials { ForWords (map string_bytes words.now) (MayDial N.may_dial) }
    requires replays { ForWords (map string_bytes words.now)
        (MayReplay D.tells D.moment disk (WasRead S.same S.given input.old) (MayTake K.same K.taken K.permits output.old)) }
    requires releases { ForTexts words.now (MayReleaseOn D.Disk disk (exchanges_as
        (WasRead S.same S.given input.old) (WasWritten K.same K.taken output.old)
        (HasExchangedAt N.L.same N.L.dialed N.L.given N.L.taken))) }
    requires tears { ForWords (map string_bytes words.now) (MayTear D.tells D.moment D.may_tear D.may_release) }
    requires prints { ForWords (map string_bytes words.now) (MayPrint ((sink : K) (text : List ℕ) → K.permits sink text)) }

    ensures run { KeepsWatched (D.Disk, S.Source.own, K.Sink.own, N.told, N.P.told) (map string_bytes words.now)
        (disk, input.old, output.old, net.old) (input.new, output.new, net.new) result }
{
    let is_shown = opening.showing.is_seen(host.rt);
    let waiting = opening.waiting;
    if opening.is_serving {
        run_serving(
            host, threads, words, disk, path, is_shown, waiting, told, input, output, net,
        )
    } else {
        run_once(
            host, words, disk, path, is_shown, waiting, told, input, output, net,
        )
    }
}

/// Runs words that want no device, over one in memory without a byte.
pub(crate) fn run_bare<S: Source, K: Sink, N: Net>(
    alloc: Global,
    words: &[String],
    input: &mut S,
    output: &mut K,
    net: &mut N,
) -> Note
where
    N::P: Drop,
    requires need { (need : Need) × IsNeed (map string_bytes words.now) need × (need ≢ Existing) }
    requires dials { ForWords (map string_bytes words.now) (MayDial N.may_dial) }
    requires prints { ForWords (map string_bytes words.now) (MayPrint ((sink : K) (text : List ℕ) → K.permits sink text)) }

    ensures noted { IsNoteOf (map string_bytes words.now) result
        (faults_at (S.read_faults input.old) (K.write_faults output.old) (N.told net.old))
        (faults_at (S.read_faults input.new) (K.write_faults output.new) (N.told net.new)) }
{
    match MemDisk::plain(alloc, 0) {
        Ok(disk) => bridge_once(alloc, words, disk, input, output, net).note,
        Err(_) => Note::NoMemory,
    }
}

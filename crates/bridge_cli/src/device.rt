//! The top call, over the device that the words want.
ghost use Rattle.std.specs.Prelude.{◌≡◌, ◌⊎◌, ℕ, List, map, string_bytes};
ghost use Rattle.notes.specs.declared.note.Note.TheVariants.{Usage, NoMemory};
ghost use Rattle.bridge_words.specs.declared.need.Need.TheVariants.{Existing, Make};
ghost use Rattle.bridge_words.specs.Words.{IsNeed, IsNoCommand, IsNoMove, IsSomeMove};
ghost use Rattle.bridge_core.specs.Failed.{TellsReadFault, TellsWriteFault, TellsDial};
ghost use Rattle.bridge_core.specs.Leave.{ForWords, MayAnswer, MayReplay, MayTake, WasRead, MayRelease, WasWritten, exchanges_as, HasExchangedAt, MayTear, MayBind, MayTell, MayReport, MayDial, MayPrint};
ghost use Rattle.bridge_cli.specs.Noted.{IsNoteOf, faults_at};
ghost use Rattle.cli_files.specs.declared.files.How.{How};
ghost use Rattle.cli_parts.specs.Ending.{note_in};
ghost use Rattle.cli_files.specs.Opened.{IsUnopened};
ghost use Rattle.cli_files.specs.Watched.{MovesWatched};
ghost use Rattle.bridge_cli.specs.Opened.{OverOpened, OverTarget, WantsFile};
ghost use Rattle.bridge_cli.specs.Texts.{ForTexts};
ghost use Rattle.bridge_move.specs.MoveRun.{two_disks};
ghost use Rattle.bridge_parts.specs.Run.{output_run};
ghost use Rattle.bridge_move.specs.Leave.{ForMoves};
ghost use Rattle.spool_answers.specs.Leave.{LetsKeep};
ghost use Rattle.spool_move.specs.Leave.{MayMove};

use crate::over::{run_bare, run_once, run_over};
use bridge_words::{Need, need_of};
use cli_files::{Files, How, refuse, run_move};
use cli_parts::{Ending, Host, Opening, Told, Waiting, print_no_spool};
use edge_disk::Disk;
use edge_io::{Door, Net, Sink, Source};
use notes::Note;
use std::sync::Wait;
use std::thread::Threads;

// Runs `format` over `file`, which is made where there is none and filled where it is empty.
fn run_made<F: Files, S: Source, K: Sink, N: Net>(
    host: Host<'_>,
    files: &F,
    file: &str,
    len: u64,
    words: &[String],
    told: Told<'_>,
    input: &mut S,
    output: &mut K,
    net: &mut N,
) -> Ending
where
    N::P: Drop,
    requires need { IsNeed (map string_bytes words.now) (Make len) }
    requires dials { ForWords (map string_bytes words.now) (MayDial N.may_dial) }
    requires replays { (disk : F.D) → ForTexts words.now
        (MayReplay F.D.tells F.D.moment disk (WasRead S.same S.given input.old)
        (MayTake K.same K.taken K.permits output.old)) }
    requires releases { (disk : F.D) → ForTexts words.now (MayRelease F.D.tells F.D.moment disk (exchanges_as
        (WasRead S.same S.given input.old) (WasWritten K.same K.taken output.old)
        (HasExchangedAt N.L.same N.L.dialed N.L.given N.L.taken)) F.D.may_release) }
    requires tears { ForWords (map string_bytes words.now) (MayTear F.D.tells F.D.moment F.D.may_tear F.D.may_release) }
    requires prints { ForWords (map string_bytes words.now) (MayPrint ((sink : K) (text : List ℕ) → K.permits sink text)) }

    ensures noted { IsNoteOf (map string_bytes words.now) (note_in result)
        (faults_at (S.read_faults input.old) (K.write_faults output.old) (N.told net.old))
        (faults_at (S.read_faults input.new) (K.write_faults output.new) (N.told net.new)) }
    ensures done { IsUnopened (note_in result) (input.new ≡ input.old × output.new ≡ output.old × net.new ≡ net.old)
        ⊎ OverOpened (F.D.Disk, S.Source.own, K.Sink.own, N.told, N.P.told) (F.opened file.now) (map string_bytes words.now)
        (input.old, output.old, net.old) (input.new, output.new, net.new) (note_in result) }
{
    match files.open(file, How::Made(len)) {
        Ok(disk) => {
            let waiting = Waiting::Nobody;
            let note = run_once(
                host, words, disk, file, false, waiting, told, input, output, net,
            )
            .note;
            Ending::Noted(note)
        }
        Err(fault) => refuse(host, file, fault),
    }
}

// Runs the words over `file`, which exists and is shared as they want it. Only those of `serve` take threads, and may wait.
fn run_existing<F: Files, S: Source, K: Sink, N: Net + Send, R: Threads + Wait + Sync>(
    host: Host<'_>,
    threads: &R,
    files: &F,
    file: &str,
    words: &[String],
    told: Told<'_>,
    input: &mut S,
    output: &mut K,
    net: &mut N,
) -> Ending
where
    N::P: Drop + Send,
    <N::P as Door>::L: Send,
    N::L: Send,
    N::M: Drop + Send,
    requires need { IsNeed (map string_bytes words.now) Existing }
    requires answers { (disk : F.D) → ForWords (map string_bytes words.now)
        (MayAnswer F.D.tells F.D.moment disk N.permits) }
    requires binds { ForWords (map string_bytes words.now) (MayBind N.may_bind) }
    requires tells { (disk : F.D) → ForWords (map string_bytes words.now)
        (MayTell F.D.tells F.D.moment disk N.M.may_tell) }
    requires reports { (disk : F.D) → ForWords (map string_bytes words.now)
        (MayReport F.D.tells F.D.moment disk (HasExchangedAt N.L.same N.L.dialed N.L.given N.L.taken) N.may_report) }
    requires dials { ForWords (map string_bytes words.now) (MayDial N.may_dial) }
    requires replays { (disk : F.D) → ForTexts words.now
        (MayReplay F.D.tells F.D.moment disk (WasRead S.same S.given input.old)
        (MayTake K.same K.taken K.permits output.old)) }
    requires releases { (disk : F.D) → ForTexts words.now (MayRelease F.D.tells F.D.moment disk (exchanges_as
        (WasRead S.same S.given input.old) (WasWritten K.same K.taken output.old)
        (HasExchangedAt N.L.same N.L.dialed N.L.given N.L.taken)) F.D.may_release) }
    requires tears { ForWords (map string_bytes words.now) (MayTear F.D.tells F.D.moment F.D.may_tear F.D.may_release) }
    requires prints { ForWords (map string_bytes words.now) (MayPrint ((sink : K) (text : List ℕ) → K.permits sink text)) }

    ensures noted { IsNoteOf (map string_bytes words.now) (note_in result)
        (faults_at (S.read_faults input.old) (K.write_faults output.old) (N.told net.old))
        (faults_at (S.read_faults input.new) (K.write_faults output.new) (N.told net.new)) }
    ensures done { IsUnopened (note_in result) (input.new ≡ input.old × output.new ≡ output.old × net.new ≡ net.old)
        ⊎ OverOpened (F.D.Disk, S.Source.own, K.Sink.own, N.told, N.P.told) (F.opened file.now) (map string_bytes words.now)
        (input.old, output.old, net.old) (input.new, output.new, net.new) (note_in result) }
{
    let Ok(opening) = Opening::of(host.rt.alloc(), words) else {
        return Ending::Noted(Note::NoMemory);
    };
    match files.open(file, How::Existing(opening.sharing)) {
        Ok(disk) => {
            let note = run_over(
                host, threads, words, disk, file, opening, told, input, output, net,
            )
            .note;
            print_no_spool(&host, file, note);
            Ending::Noted(note)
        }
        Err(fault) => refuse(host, file, fault),
    }
}

/// Does what the words ask for, in threads of `threads` where that takes some, over the device that they want: `file`, opened
/// or made, or one in memory without a byte where they want none; or a move over `file` and the other that they name. A `file` that can't be
/// opened is a fault of the disk, and standard error says why in a line of its own; one that is no spool is named there too. How
/// `file` is goes where `told` says. `list` shares `file` with others that list it; every
/// other command has it alone while it runs. One that is in use ends it with `InUse`.
///
/// What was done is what `bridge` does over that disk, opened so: `done`; or what `bridge_move` does over both: `moved`.
pub fn run_words<F: Files, S: Source, K: Sink, N: Net + Send, R: Threads + Wait + Sync>(
    host: Host<'_>,
    threads: &R,
    files: &F,
    file: &str,
    words: &[String],
    told: Told<'_>,
    input: &mut S,
    output: &mut K,
    net: &mut N,
) -> Ending
where
    N::P: Drop + Send,
    <N::P as Door>::L: Send,
    N::L: Send,
    N::M: Drop + Send,
    requires answers { (disk : F.D) → ForWords (map string_bytes words.now)
        (MayAnswer F.D.tells F.D.moment disk N.permits) }
    requires binds { ForWords (map string_bytes words.now) (MayBind N.may_bind) }
    requires tells { (disk : F.D) → ForWords (map string_bytes words.now)
        (MayTell F.D.tells F.D.moment disk N.M.may_tell) }
    requires reports { (disk : F.D) → ForWords (map string_bytes words.now)
        (MayReport F.D.tells F.D.moment disk (HasExchangedAt N.L.same N.L.dialed N.L.given N.L.taken) N.may_report) }
    requires dials { ForWords (map string_bytes words.now) (MayDial N.may_dial) }
    requires replays { (disk : F.D) → ForTexts words.now
        (MayReplay F.D.tells F.D.moment disk (WasRead S.same S.given input.old)
        (MayTake K.same K.taken K.permits output.old)) }
    requires releases { (disk : F.D) → ForTexts words.now (MayRelease F.D.tells F.D.moment disk (exchanges_as
        (WasRead S.same S.given input.old) (WasWritten K.same K.taken output.old)
        (HasExchangedAt N.L.same N.L.dialed N.L.given N.L.taken)) F.D.may_release) }
    requires tears { ForWords (map string_bytes words.now) (MayTear F.D.tells F.D.moment F.D.may_tear F.D.may_release) }
    requires prints { ForWords (map string_bytes words.now) (MayPrint ((sink : K) (text : List ℕ) → K.permits sink text)) }
    requires moves { ForMoves (map string_bytes words.now) (λ tag. MayMove F.D.tells F.D.moment F.D.tells F.D.moment tag F.D.may_release) }
    requires keeps { LetsKeep F.D.tells F.D.moment F.D.may_tear F.D.may_release }
    requires prints_move { ForMoves (map string_bytes words.now) (λ _. (sink : K) (text : List ℕ) → K.permits sink text) }

    ensures usage { note_in result ≡ Usage → IsNoCommand (map string_bytes words.now) × IsNoMove (map string_bytes words.now) }
    ensures no_command { IsNoCommand (map string_bytes words.now) → IsNoMove (map string_bytes words.now)
        → note_in result ≡ Usage ⊎ note_in result ≡ NoMemory }
    ensures reads { TellsReadFault (map string_bytes words.now) (note_in result) (S.read_faults input.old) (S.read_faults input.new)
        (N.told net.old) (N.told net.new) }
    ensures writes { TellsWriteFault (map string_bytes words.now) (note_in result) (K.write_faults output.old) (K.write_faults output.new)
        (N.told net.old) (N.told net.new) }
    ensures dials { TellsDial (map string_bytes words.now) (note_in result) (N.told net.old) (N.told net.new) }
    ensures done { (how : How) → WantsFile (map string_bytes words.now) how
        → IsUnopened (note_in result) (input.new ≡ input.old × output.new ≡ output.old × net.new ≡ net.old)
        ⊎ OverOpened (F.D.Disk, S.Source.own, K.Sink.own, N.told, N.P.told) (F.opened file.now) (map string_bytes words.now)
        (input.old, output.old, net.old) (input.new, output.new, net.new) (note_in result) }
    ensures moved { IsSomeMove (map string_bytes words.now) → IsUnopened (note_in result) (output.new ≡ output.old)
        ⊎ OverTarget F.opened file.now (map string_bytes words.now) (λ old new.
        MovesWatched (two_disks F.D.tells F.D.tells F.D.moment F.D.moment) (map string_bytes words.now) old new
        (output_run K.taken K.write_faults output.old output.new) (note_in result)) }
{
    match need_of(host.rt.alloc(), words) {
        Ok(Need::Make { len }) => run_made(host, files, file, len, words, told, input, output, net),
        Ok(Need::Existing) => {
            run_existing(host, threads, files, file, words, told, input, output, net)
        }
        Ok(Need::Pair { target, .. }) => {
            run_move(host, files, file, target.as_str(), words, output)
        }
        Ok(Need::NoCommand) => Ending::Noted(run_bare(host.rt.alloc(), words, input, output, net)),
        Ok(Need::Nothing) => Ending::Noted(run_bare(host.rt.alloc(), words, input, output, net)),
        Err(_) => Ending::Noted(Note::NoMemory),
    }
}

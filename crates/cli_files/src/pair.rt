//! The top call of a move, over the two files that its words name.
ghost use Rattle.std.specs.Prelude.{◌≡◌, ◌⊎◌, ℕ, List, map, string_bytes};
ghost use Rattle.spool_answers.specs.Leave.{LetsKeep};
ghost use Rattle.spool_move.specs.Leave.{MayMove};
ghost use Rattle.conn_serve.specs.Endings.{CountsFaults};
ghost use Rattle.notes.specs.declared.note.Note.TheVariants.{WriteFault};
ghost use Rattle.bridge_words.specs.Words.{IsSomeMove};
ghost use Rattle.bridge_parts.specs.Run.{output_run};
ghost use Rattle.bridge_move.specs.Ended.{IsMoveNote};
ghost use Rattle.bridge_move.specs.Leave.{ForMoves};
ghost use Rattle.bridge_move.specs.MoveRun.{two_disks};
ghost use Rattle.cli_parts.specs.Ending.{note_in};
ghost use Rattle.cli_files.specs.Opened.{IsUnopened, OverFiles};
ghost use Rattle.cli_files.specs.Watched.{MovesWatched};

use crate::files::Files;
use crate::refused::refuse_pair;
use bridge_move::{Moved, bridge_move};
use cli_parts::{Ending, Host, Progress, Showing, Waiting, Watched, print_no_spool};
use edge_disk::Disk;
use edge_io::Sink;
use notes::Note;

// Runs the words over both disks, which are watched meanwhile. The reading of the first may be shown. What was done is what `bridge_move`
// does, and nothing else. The names are those of the two, by which standard error says which of them is no spool.
fn move_over<D: Disk, E: Disk, K: Sink>(
    host: Host<'_>,
    words: &[String],
    names: [&str; 2],
    source: D,
    target: E,
    is_shown: bool,
    output: &mut K,
) -> Moved<D, E>
    requires earned { ForMoves (map string_bytes words.now) (λ tag. MayMove D.tells D.moment E.tells E.moment tag D.may_release) }
    requires tears { LetsKeep D.tells D.moment D.may_tear D.may_release }
    requires tears_target { LetsKeep E.tells E.moment E.may_tear E.may_release }
    requires prints { (k : K) (text : List ℕ) → K.permits k text }

    ensures run { MovesWatched (two_disks D.tells E.tells D.moment E.moment) (map string_bytes words.now) (source, target)
        (result.source, result.target) (output_run K.taken K.write_faults output.old output.new) result.note }
{
    let source = Watched::new(
        source,
        Progress::new(host, is_shown),
        "FILE",
        Waiting::Nobody,
    );
    let target = Watched::new(
        target,
        Progress::new(host, false),
        "TARGET",
        Waiting::Nobody,
    );
    let Moved {
        status,
        note,
        source,
        target,
    } = bridge_move(host.rt.alloc(), words, source, target, output);
    // (the first is opened before the second is read)
    let [first, second] = names;
    let name = if target.is_read() { second } else { first };
    print_no_spool(&host, name, note);
    Moved {
        status,
        note,
        source: source.into_disk(),
        target: target.into_disk(),
    }
}

/// Does what the words of a move ask for, over the two files, each of which this program has alone meanwhile. One that can't be opened is
/// a fault of the disk, or `InUse`, and one file as both is such a fault too; standard error says which, in a line of its own, and which of
/// them is no spool.
pub fn run_move<F: Files, K: Sink>(
    host: Host<'_>,
    files: &F,
    file: &str,
    target_path: &str,
    words: &[String],
    output: &mut K,
) -> Ending
    requires moves { IsSomeMove (map string_bytes words.now) }
    requires earned { ForMoves (map string_bytes words.now) (λ tag. MayMove F.D.tells F.D.moment F.D.tells F.D.moment tag F.D.may_release) }
    requires tears { LetsKeep F.D.tells F.D.moment F.D.may_tear F.D.may_release }
    requires prints { (k : K) (text : List ℕ) → K.permits k text }

    ensures known { IsMoveNote (note_in result) }
    ensures writes { CountsFaults (note_in result ≡ WriteFault) (K.write_faults output.old) (K.write_faults output.new) }
    ensures done { IsUnopened (note_in result) (output.new ≡ output.old) ⊎ OverFiles (F.opened file.now) (F.opened target_path.now) (λ old new.
        MovesWatched (two_disks F.D.tells F.D.tells F.D.moment F.D.moment) (map string_bytes words.now) old new
        (output_run K.taken K.write_faults output.old output.new) (note_in result)) }
{
    match files.open_both(file, target_path) {
        Ok((source, target)) => {
            let is_shown = Showing::Always.is_seen(host.rt);
            let note = move_over(
                host,
                words,
                [file, target_path],
                source,
                target,
                is_shown,
                output,
            )
            .note;
            Ending::Noted(note)
        }
        Err(fault) => refuse_pair(host, file, target_path, fault),
    }
}

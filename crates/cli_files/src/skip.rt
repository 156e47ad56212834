//! The top call of the words `skip NUMBER`, over FILE.
ghost use Rattle.std.specs.Prelude.{◌≡◌, ◌⊎◌, ℕ, List};
ghost use Rattle.spool_answers.specs.Leave.{LetsKeep};
ghost use Rattle.conn_serve.specs.Endings.{CountsFaults};
ghost use Rattle.notes.specs.declared.note.Note.TheVariants.{WriteFault};
ghost use Rattle.bridge_parts.specs.Run.{disk_run, output_run};
ghost use Rattle.bridge_skip.specs.Leave.{MaySkip, given_output};
ghost use Rattle.bridge_skip.specs.SkipRun.{IsSkipNote, IsSkipRun};
ghost use Rattle.edge_file.specs.declared.open_fault.Sharing.TheVariants.{Exclusive};
ghost use Rattle.cli_files.specs.declared.files.How.TheVariants.{Existing};
ghost use Rattle.cli_parts.specs.Ending.{note_in};
ghost use Rattle.cli_files.specs.Opened.{IsUnopened, OverFile};

use crate::files::{Files, How};
use crate::refused::refuse;
use bridge_skip::{Skipped, bridge_skip};
use cli_parts::{Ending, Host, Progress, Showing, Waiting, Watched, print_no_spool};
use edge_disk::Disk;
use edge_file::Sharing;
use edge_io::Sink;

// Skips the entry over the disk, which is watched meanwhile. Its reading may be shown. What was done is what `bridge_skip` does, and
// nothing else.
fn skip_over<D: Disk, K: Sink>(
    host: Host<'_>,
    number: u64,
    disk: D,
    is_shown: bool,
    output: &mut K,
) -> Skipped<D>
    requires earned { MaySkip D.tells (D.moment disk).reads number (given_output K.same K.taken output.old) D.may_release }
    requires tears { LetsKeep D.tells D.moment D.may_tear D.may_release }
    requires prints { (k : K) (text : List ℕ) → K.permits k text }

    ensures run { IsSkipRun number (disk_run D.tells D.moment disk result.disk) (output_run K.taken K.write_faults output.old output.new)
        result.note }
{
    let disk = Watched::new(disk, Progress::new(host, is_shown), "FILE", Waiting::Nobody);
    let Skipped { status, note, disk } = bridge_skip(host.rt.alloc(), number, disk, output);
    Skipped {
        status,
        note,
        disk: disk.into_disk(),
    }
}

/// Skips the entry of this number in `file`, which this program has alone meanwhile. One that can't be opened is a fault of the disk, or
/// `InUse`, and standard error says why in a line of its own; one that is no spool is named there too.
pub fn run_skip<F: Files, K: Sink>(
    host: Host<'_>,
    files: &F,
    file: &str,
    number: u64,
    output: &mut K,
) -> Ending
    requires earned { (disk : F.D) → MaySkip F.D.tells (F.D.moment disk).reads number (given_output K.same K.taken output.old) F.D.may_release }
    requires tears { LetsKeep F.D.tells F.D.moment F.D.may_tear F.D.may_release }
    requires prints { (k : K) (text : List ℕ) → K.permits k text }

    ensures known { IsSkipNote number (note_in result) }
    ensures writes { CountsFaults (note_in result ≡ WriteFault) (K.write_faults output.old) (K.write_faults output.new) }
    ensures done { IsUnopened (note_in result) (output.new ≡ output.old) ⊎ OverFile (F.opened file.now) (Existing Exclusive) (λ disk after.
        IsSkipRun number (disk_run F.D.tells F.D.moment disk after) (output_run K.taken K.write_faults output.old output.new) (note_in result)) }
{
    match files.open(file, How::Existing(Sharing::Exclusive)) {
        Ok(disk) => {
            // (it prints one line, and only after its reading)
            let is_shown = Showing::Always.is_seen(host.rt);
            let note = skip_over(host, number, disk, is_shown, output).note;
            print_no_spool(&host, file, note);
            Ending::Noted(note)
        }
        Err(fault) => refuse(host, file, fault),
    }
}

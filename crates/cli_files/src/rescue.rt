//! The top call of a rescue, over FILE, which is only read.
ghost use Rattle.std.specs.Prelude.{◌≡◌, ◌⊎◌, ℕ, List, Option, None};
ghost use Rattle.conn_serve.specs.Endings.{CountsFaults};
ghost use Rattle.notes.specs.declared.note.Note.TheVariants.{WriteFault};
ghost use Rattle.bridge_parts.specs.Run.{disk_run, output_run};
ghost use Rattle.bridge_rescue.specs.RescueRun.{IsRescueNote, IsRescueRun};
ghost use Rattle.bridge_rescue.specs.declared.rescued.Report.{Report};
ghost use Rattle.cli_files.specs.declared.files.How.TheVariants.{ToRead};
ghost use Rattle.cli_parts.specs.Ending.{note_in};
ghost use Rattle.cli_files.specs.Opened.{IsUnopened, OverFile};

use crate::files::{Files, How};
use crate::refused::{print_refused, refuse};
use bridge_rescue::{Layout, Rescued, bridge_rescue};
use cli_parts::{Ending, Host, Progress, Showing, Waiting, Watched, print_check, print_rescue};
use edge_disk::Disk;
use edge_io::Sink;

// Rescues the entries of the disk, which is watched meanwhile. Its reading may be shown. What was done is what `bridge_rescue` does, and
// nothing else; no leave to write to the disk is asked for.
fn rescue_over<D: Disk, K: Sink>(
    host: Host<'_>,
    given: Option<Layout>,
    disk: D,
    is_shown: bool,
    output: &mut K,
) -> Rescued<D>
    requires prints { (k : K) (text : List ℕ) → K.permits k text }

    ensures run { IsRescueRun given (disk_run D.tells D.moment disk result.disk) (output_run K.taken K.write_faults output.old output.new)
        result.report result.note }
{
    let disk = Watched::new(disk, Progress::new(host, is_shown), "FILE", Waiting::Nobody);
    let Rescued {
        status,
        note,
        report,
        disk,
    } = bridge_rescue(host.rt.alloc(), given, disk, output);
    Rescued {
        status,
        note,
        report,
        disk: disk.into_disk(),
    }
}

/// Rescues the entries of `file`, which is opened to be read alone, beside others that read it. One that can't be opened is a fault of the
/// disk, or `InUse`, and standard error says why in a line of its own; else it says which slots are at fault.
pub fn run_rescue<F: Files, K: Sink>(
    host: Host<'_>,
    files: &F,
    file: &str,
    given: Option<Layout>,
    output: &mut K,
) -> Ending
    requires prints { (k : K) (text : List ℕ) → K.permits k text }

    ensures known { IsRescueNote (note_in result) }
    ensures writes { CountsFaults (note_in result ≡ WriteFault) (K.write_faults output.old) (K.write_faults output.new) }
    ensures done { IsUnopened (note_in result) (output.new ≡ output.old) ⊎ OverFile (F.opened file.now) ToRead (λ disk after. (report : Option Report) ×
        IsRescueRun given (disk_run F.D.tells F.D.moment disk after) (output_run K.taken K.write_faults output.old output.new) report (note_in result)) }
{
    match files.open(file, How::ToRead) {
        Ok(disk) => {
            let is_shown = Showing::Apart.is_seen(host.rt);
            let rescued = rescue_over(host, given, disk, is_shown, output);
            print_rescue(
                &(host, host.rt.alloc()),
                file,
                rescued.note,
                rescued.report.as_ref(),
            );
            Ending::Noted(rescued.note)
        }
        Err(fault) => {
            let ending = refuse(host, file, fault);
            print_refused(host, ending);
            ending
        }
    }
}

/// Reads `file` as a rescue does that needs no layout, and says which slots are at fault, and how many are sound; `nowhere` gets the entries. The
/// file is opened to be read alone, beside others that read it. One that can't be opened is a fault of the disk, or `InUse`, and standard error
/// says why in a line of its own. The register is not looked at.
pub fn run_check<F: Files, K: Sink>(
    host: Host<'_>,
    files: &F,
    file: &str,
    nowhere: &mut K,
) -> Ending
    requires prints { (k : K) (text : List ℕ) → K.permits k text }

    ensures known { IsRescueNote (note_in result) }
    ensures done { IsUnopened (note_in result) (nowhere.new ≡ nowhere.old) ⊎ OverFile (F.opened file.now) ToRead (λ disk after. (report : Option Report) ×
        IsRescueRun None (disk_run F.D.tells F.D.moment disk after) (output_run K.taken K.write_faults nowhere.old nowhere.new) report (note_in result)) }
{
    match files.open(file, How::ToRead) {
        Ok(disk) => {
            let is_shown = Showing::Always.is_seen(host.rt);
            let found = rescue_over(host, None, disk, is_shown, nowhere);
            print_check(
                &(host, host.rt.alloc()),
                file,
                found.note,
                found.report.as_ref(),
            );
            Ending::Noted(found.note)
        }
        Err(fault) => {
            let ending = refuse(host, file, fault);
            print_refused(host, ending);
            ending
        }
    }
}

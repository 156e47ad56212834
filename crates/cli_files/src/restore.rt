//! The top call of a rescue into another spool, over FILE, which is only read, and TARGET.
ghost use Rattle.std.specs.Prelude.{◌≡◌, ◌⊎◌, ℕ, Option};
ghost use Rattle.spool_answers.specs.Leave.{LetsKeep};
ghost use Rattle.bridge_parts.specs.Run.{disk_run};
ghost use Rattle.bridge_restore.specs.RestoreRun.{IsRestoreNote, IsRestoreRun};
ghost use Rattle.bridge_rescue.specs.declared.rescued.Report.{Report};
ghost use Rattle.cli_parts.specs.Ending.{note_in};
ghost use Rattle.cli_files.specs.Opened.{IsUnopened, OverBoth};

use crate::files::Files;
use crate::refused::{print_refused, refuse_pair};
use bridge_rescue::Layout;
use bridge_restore::{Restored, bridge_restore};
use cli_parts::{Ending, Host, Progress, RestoreWords, Showing, Waiting, Watched, print_restore};
use edge_disk::Disk;

// Rescues the entries of the first disk into the spool of the other; both are watched meanwhile. The reading of the first may be shown. What was
// done is what `bridge_restore` does, and nothing else; no leave to write to the first is asked for.
fn restore_over<D: Disk, E: Disk>(
    host: Host<'_>,
    given: Option<Layout>,
    tag: u32,
    disk: D,
    target: E,
    is_shown: bool,
) -> Restored<D, E>
    requires tears { LetsKeep E.tells E.moment E.may_tear E.may_release }

    ensures run { IsRestoreRun given tag (disk_run D.tells D.moment disk result.disk) (disk_run E.tells E.moment target result.target)
        result.report result.stored result.note }
{
    let disk = Watched::new(disk, Progress::new(host, is_shown), "FILE", Waiting::Nobody);
    let target = Watched::new(
        target,
        Progress::new(host, false),
        "TARGET",
        Waiting::Nobody,
    );
    let Restored {
        status,
        note,
        report,
        stored,
        disk,
        target,
    } = bridge_restore(host.rt.alloc(), given, tag, disk, target);
    Restored {
        status,
        note,
        report,
        stored,
        disk: disk.into_disk(),
        target: target.into_disk(),
    }
}

/// Rescues the entries of `file`, which is opened to be read alone, beside others that read it, into the spool that the words name, which this
/// program has alone meanwhile. One that can't be opened is a fault of the disk, or `InUse`, and one file as both is such a fault too;
/// standard error says which, in a line of its own; else it says which slots are at fault, and how many entries were stored.
pub fn run_restore<F: Files>(
    host: Host<'_>,
    files: &F,
    file: &str,
    words: RestoreWords<'_>,
) -> Ending
    requires tears { LetsKeep F.D.tells F.D.moment F.D.may_tear F.D.may_release }

    ensures known { IsRestoreNote (note_in result) }
    ensures done { IsUnopened (note_in result) (Unit {0}) ⊎ OverBoth (F.opened file.now) (F.opened words.entry.target.now) (λ old new.
        (report : Option Report) × (stored : ℕ) × IsRestoreRun words.entry.layout words.entry.tag (disk_run F.D.tells F.D.moment old.0 new.0)
        (disk_run F.D.tells F.D.moment old.1 new.1) report stored (note_in result)) }
{
    let RestoreWords {
        layout,
        target: path,
        tag,
    } = words;
    match files.open_beside(file, path) {
        Ok((disk, target)) => {
            let is_shown = Showing::Always.is_seen(host.rt);
            let restored = restore_over(host, layout, tag, disk, target, is_shown);
            let paths = [file, path];
            print_restore(
                &(host, host.rt.alloc()),
                paths,
                restored.note,
                restored.report.as_ref(),
                restored.stored,
            );
            Ending::Noted(restored.note)
        }
        Err(fault) => {
            let ending = refuse_pair(host, file, path, fault);
            print_refused(host, ending);
            ending
        }
    }
}

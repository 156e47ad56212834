//! The top call of the words `skip NUMBER`.
ghost use Rattle.std.specs.Prelude.{◌≡◌, ℕ, List};
ghost use Rattle.spool_answers.specs.Leave.{LetsKeep};
ghost use Rattle.notes.specs.Notes.{status_of};
ghost use Rattle.bridge_parts.specs.Run.{disk_run, output_run};
ghost use Rattle.bridge_skip.specs.Leave.{MaySkip, given_output};
ghost use Rattle.bridge_skip.specs.SkipRun.{IsSkipRun};

use crate::opened::skip_open;
use crate::skipped::Skipped;
use bridge_parts::recover_note;
use edge_disk::Disk;
use edge_io::Sink;
use spool_log::{Opening, Refusal, Spool};
use std::alloc::Global;

/// Does what the words `skip NUMBER` ask for: prints the event of the pending entry of that number as a JSON object and LF, as
/// `list --as json` prints it, and makes the number known as confirmed, durable, so that the entry is not forwarded any more.
///
/// The number becomes known only once the output has taken the whole line: that is `earned`, the leave that the caller gives by what
/// it lets the disk give up, and it holds at each moment, also of a call that never returns. No other number becomes known. Where a
/// crash or an error comes after the line and before the number is known, the entry is pending still, and the same words print it
/// again.
///
/// The result has the disk, the note that says why the run ended, and the exit status, which is the note's:
///
/// - `NotSpool` comes where the device breaks a rule of the layout, and nothing is printed or changed then.
/// - `Strange` comes exactly where no entry of that number is pending: it is at or above the spool's end, or known as confirmed already.
///   Nothing is printed or changed then.
/// - `Full`, with a need of 1 and a room of 0, comes where by this number there would be more than 240 stretches of known numbers
///   above the cursor. The line was printed, and nothing is changed. A number next to the cursor or to a stretch adds none.
/// - `Worn` comes where the register was written as often as it can be. The line was printed, and nothing is changed.
/// - `WriteFault` comes exactly where a write of the output failed: not all of the line was written, and nothing is changed.
/// - `DiskFault` comes exactly where a call of the disk failed. Where that came after the line, the number is known or not.
/// - `NoMemory` says that no memory was found, and nothing is printed or changed then.
pub fn bridge_skip<D: Disk, K: Sink>(
    alloc: Global,
    number: u64,
    disk: D,
    output: &mut K,
) -> Skipped<D>
    // The number may be given up once the output has the whole line of its entry.
    requires earned { MaySkip D.tells (D.moment disk).reads number (given_output K.same K.taken output.old) D.may_release }

    // What keeps the spool may be written to the disk, and any text may be printed.
    requires tears { LetsKeep D.tells D.moment D.may_tear D.may_release }
    requires prints { (k : K) (text : List ℕ) → K.permits k text }

    ensures status { result.status ≡ status_of result.note }

    // What was printed and made known, what was left alone, and what failed meanwhile.
    ensures run { IsSkipRun number (disk_run D.tells D.moment disk result.disk) (output_run K.taken K.write_faults output.old output.new) result.note }
{
    match Spool::recover(alloc, disk, Opening::Keep) {
        Ok(mut spool) => {
            let note = skip_open(alloc, &mut spool, number, output);
            Skipped::of(note, spool.into_disk())
        }
        Err(Refusal { fault, disk }) => Skipped::of(recover_note(fault), disk),
    }
}

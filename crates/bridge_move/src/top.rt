//! The top call of the words `move TARGET TAG`.
ghost use Rattle.std.specs.Prelude.{◌≡◌, ℕ, List, IfOk, MatchOption, map, string_bytes};
ghost use Rattle.spool_answers.specs.Leave.{LetsKeep};
ghost use Rattle.notes.specs.Notes.{status_of};
ghost use Rattle.bridge_words.specs.Words.{IsMove, IsNoMove};
ghost use Rattle.bridge_parts.specs.Run.{output_run};
ghost use Rattle.bridge_move.specs.Leave.{ForMoves};
ghost use Rattle.bridge_move.specs.MoveRun.{IsMoveRun, disks_in, two_disks};
ghost use Rattle.spool_move.specs.Leave.{MayMove};

use crate::moved::Moved;
use crate::opening::move_over;
use bridge_words::{Need, need_of};
use edge_disk::Disk;
use edge_io::Sink;
use notes::Note;
use std::alloc::{AllocError, Global};

// The tag under which the words move entries, or nothing where they move none. The error says that no memory was found for reading them.
fn tag_of(alloc: Global, words: &[String]) -> Result<Option<u32>, AllocError>
    ensures { IfOk result (λ found. MatchOption found (IsNoMove (map string_bytes words.now))
        (λ tag. (path : List ℕ) × IsMove path tag (map string_bytes words.now))) }
{
    match need_of(alloc, words)? {
        Need::Pair { tag, .. } => Ok(Some(tag)),
        Need::NoCommand | Need::Nothing | Need::Existing | Need::Make { .. } => Ok(None),
    }
}

/// Does what the words `move TARGET TAG` ask for: moves the entries of the source whose numbers aren't known as confirmed into the target,
/// under the number TAG, and prints `M moved, L left` and LF, with how many were taken by the target and how many the source has left.
/// `source` is the disk of FILE, and `target` that of TARGET.
///
/// In the target an entry has the connection 2^63 + TAG, as its index its number in the source, the unit 0, and the event that it had. One
/// that the target has pending in this form is not moved again, so a move that was cut off is made whole by the same words. A number of the
/// source becomes known as confirmed only once whatever a crash leaves of the target has its entry: that is `earned`, the leave that
/// the caller gives by what it lets the source's disk give up, and it holds at each moment, also of a call that never returns.
///
/// The result has the note that says why the run ended, and the exit status, which is the note's:
///
/// - `Usage` comes exactly where the words are no move, unless no memory was found for reading them, and then nothing is done. The words
///   of all other commands are none.
/// - `NotSpool` comes where a device breaks a rule of the layout, the source's before the target's, and nothing is changed then.
/// - `Strange` comes where the target has an entry of this tag pending that isn't the source's of that number: one at or above the
///   source's end, or of which the source has another event pending. `number` is the first such; nothing is changed then.
/// - `TooLarge`, `Spent` and `Full` come where the target has no room for the next entry, and `Worn` where the source's register was
///   written as often as it can be. The entries before it are moved.
/// - `DiskFault` comes exactly where a call of one of the disks failed, and `WriteFault` where a write of the output did. `NoMemory` says
///   that no memory was found. What was moved by then stays so.
///
/// At each moment, and whatever the note, each entry that the source had left stands in the source's list of pending entries or in the
/// target's, and never twice in one (`IsAnyMoment`); where all were moved, in the target's alone.
pub fn bridge_move<D: Disk, E: Disk, K: Sink>(
    alloc: Global,
    words: &[String],
    source: D,
    target: E,
    output: &mut K,
) -> Moved<D, E>
    // A number of the source may be given up once the target keeps its entry, whatever a crash leaves.
    requires earned { ForMoves (map string_bytes words.now) (λ tag. MayMove D.tells D.moment E.tells E.moment tag D.may_release) }

    // To both disks what keeps their spools may be written, and any text may be printed.
    requires tears { LetsKeep D.tells D.moment D.may_tear D.may_release }
    requires tears_target { LetsKeep E.tells E.moment E.may_tear E.may_release }
    requires prints { (k : K) (text : List ℕ) → K.permits k text }

    ensures status { result.status ≡ status_of result.note }

    // What was done, what was left alone, and what failed meanwhile.
    ensures run { IsMoveRun (two_disks D.tells E.tells D.moment E.moment) (map string_bytes words.now) (source, target) (disks_in result)
        (output_run K.taken K.write_faults output.old output.new) result.note }
{
    match tag_of(alloc, words) {
        Ok(Some(tag)) => move_over(alloc, tag, source, target, output),
        Ok(None) => Moved::of(Note::Usage, source, target),
        Err(_) => Moved::of(Note::NoMemory, source, target),
    }
}

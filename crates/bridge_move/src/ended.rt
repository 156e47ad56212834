//! A move between two spools that are open, and the line after it.
ghost use Rattle.std.specs.Prelude.{◌≡◌, ◌⊎◌, ℕ, List, false};
ghost use Rattle.spool_move.specs.Leave.{MayMove};
ghost use Rattle.conn_serve.specs.Endings.{CountsFaults};
ghost use Rattle.notes.specs.Notes.{status_of};
ghost use Rattle.notes.specs.declared.note.Note.TheVariants.{Fine, WriteFault, NoMemory};
ghost use Rattle.bridge_words.specs.Lines.{move_line};
ghost use Rattle.bridge_parts.specs.Run.{output_run};
ghost use Rattle.bridge_parts.specs.Written.{IsPrinted};
ghost use Rattle.bridge_move.specs.Ended.{TellsDisks, IsMoveNote, EndsOpen, LeavesOpen};

use crate::moved::Moved;
use crate::refused::move_note;
use bridge_parts::pending_count;
use bridge_words::move_line;
use edge_disk::Disk;
use edge_io::{Sink, write_whole};
use notes::Note;
use spool_log::Spool;
use spool_move::move_pending;
use std::alloc::Global;

// Prints how many entries were moved, and how many are left.
fn print_moved<K: Sink>(alloc: Global, output: &mut K, moved: u64, left: u64) -> Note
    requires prints { (k : K) (text : List ℕ) → K.permits k text }

    ensures writes { CountsFaults (result ≡ WriteFault) (K.write_faults output.old) (K.write_faults output.new) }
    ensures known { (result ≡ Fine) ⊎ ((result ≡ WriteFault) ⊎ (result ≡ NoMemory)) }
    ensures line { IsPrinted result (move_line moved left) (K.taken output.old) (K.taken output.new) }
{
    let Ok(line) = move_line(alloc, moved, left) else {
        return Note::NoMemory;
    };
    match write_whole(output, line.as_bytes()) {
        Ok(()) => Note::Fine,
        Err(_) => Note::WriteFault,
    }
}

/// Moves the entries that the source has left into the target, under this tag, and then prints how many were moved and how many are
/// left. Where not all were moved nothing is printed, and the note says why.
pub(crate) fn move_open<D: Disk, E: Disk, K: Sink>(
    alloc: Global,
    tag: u32,
    mut source: Spool<D>,
    mut target: Spool<E>,
    output: &mut K,
) -> Moved<D, E>
    requires earned { MayMove D.tells D.moment E.tells E.moment tag D.may_release }
    requires prints { (k : K) (text : List ℕ) → K.permits k text }
    requires sure { source.doubt ≡ false }
    requires sure_target { target.doubt ≡ false }

    ensures status { result.status ≡ status_of result.note }
    ensures known { IsMoveNote result.note }
    ensures disks { TellsDisks result.note (D.moment source.disk) (D.moment result.source) (E.moment target.disk) (E.moment result.target) }
    ensures writes { CountsFaults (result.note ≡ WriteFault) (K.write_faults output.old) (K.write_faults output.new) }
    ensures ended { EndsOpen tag source target result (output_run K.taken K.write_faults output.old output.new) }
    ensures any_moment { LeavesOpen tag source target result }
{
    match move_pending(alloc, &mut source, &mut target, tag) {
        Ok(moved) => {
            let note = print_moved(alloc, output, moved, pending_count(&source));
            Moved::of(note, source.into_disk(), target.into_disk())
        }
        Err(fault) => Moved::of(move_note(fault), source.into_disk(), target.into_disk()),
    }
}

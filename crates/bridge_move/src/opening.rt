//! The two spools of a move, opened.
ghost use Rattle.std.specs.Prelude.{◌≡◌, ℕ, List};
ghost use Rattle.spool_answers.specs.Leave.{LetsKeep};
ghost use Rattle.spool_move.specs.Leave.{MayMove};
ghost use Rattle.conn_serve.specs.Endings.{CountsFaults};
ghost use Rattle.notes.specs.Notes.{status_of};
ghost use Rattle.notes.specs.declared.note.Note.TheVariants.{WriteFault};
ghost use Rattle.bridge_parts.specs.Run.{output_run};
ghost use Rattle.bridge_move.specs.Ended.{TellsDisks, IsMoveNote};
ghost use Rattle.bridge_move.specs.MoveRun.{IsMoved, disks_in, two_disks};

use crate::ended::move_open;
use crate::moved::Moved;
use bridge_parts::recover_note;
use edge_disk::Disk;
use edge_io::Sink;
use spool_log::{Opening, Refusal, Spool};
use std::alloc::Global;

/// Opens both spools as they are, the source first, and moves the entries that the source has left into the target, under this tag. The
/// first device that is refused ends it, and then nothing is changed or printed.
pub(crate) fn move_over<D: Disk, E: Disk, K: Sink>(
    alloc: Global,
    tag: u32,
    source: D,
    target: E,
    output: &mut K,
) -> Moved<D, E>
    requires earned { MayMove D.tells D.moment E.tells E.moment tag D.may_release }
    requires tears { LetsKeep D.tells D.moment D.may_tear D.may_release }
    requires tears_target { LetsKeep E.tells E.moment E.may_tear E.may_release }
    requires prints { (k : K) (text : List ℕ) → K.permits k text }

    ensures status { result.status ≡ status_of result.note }
    ensures known { IsMoveNote result.note }
    ensures disks { TellsDisks result.note (D.moment source) (D.moment result.source) (E.moment target) (E.moment result.target) }
    ensures writes { CountsFaults (result.note ≡ WriteFault) (K.write_faults output.old) (K.write_faults output.new) }
    ensures moved { IsMoved (two_disks D.tells E.tells D.moment E.moment) tag (source, target) (disks_in result)
        (output_run K.taken K.write_faults output.old output.new) result.note }
{
    let source = match Spool::recover(alloc, source, Opening::Keep) {
        Ok(source) => source,
        Err(Refusal { fault, disk }) => return Moved::of(recover_note(fault), disk, target),
    };
    match Spool::recover(alloc, target, Opening::Keep) {
        Ok(target) => move_open(alloc, tag, source, target, output),
        Err(Refusal { fault, disk }) => Moved::of(recover_note(fault), source.into_disk(), disk),
    }
}

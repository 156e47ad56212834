//! The command `list`: the entries whose numbers aren't known as confirmed are printed.
ghost use Rattle.std.specs.Prelude.{◌≡◌, ◌≢◌, ℕ, List, ◌<◌, ◌≤◌, IfOk, IfErr, IfSome, IsErrOf};
ghost use Rattle.spool_state.specs.SpoolState.{SpoolState};
ghost use Rattle.spool_state.specs.Left.{left};
ghost use Rattle.edge_disk.specs.Calls.{Calls};
ghost use Rattle.edge_disk.specs.Disk.{LeavesOnly};
ghost use Rattle.spool_answers.specs.Leave.{LetsKeep};
ghost use Rattle.spool_log.specs.Memory.{end_of};
ghost use Rattle.conn_serve.specs.Endings.{CountsFaults};
ghost use Rattle.notes.specs.declared.note.Note.TheVariants.{Fine};
ghost use Rattle.commands.specs.Listed.{ArePrinted, PrintsNext, IsPrintNote, IsListed};
ghost use Rattle.commands.specs.SpoolRun.{IsOpenIn};
ghost use Rattle.commands.specs.Told.{disk_over, output_over};

use crate::finished::Finished;
use crate::lines::print_entries;
use bridge_parts::{pend_note, recover_note};
use bridge_words::ListForm;
use edge_disk::Disk;
use edge_io::Sink;
use notes::Note;
use spool_log::{Opening, Refusal, Spool};
use std::alloc::Global;

/// How many entries are read at a time.
const PART: u32 = 256;

// Prints the next entries that are left, of those with numbers from this one on, and answers the number after
// the last of them. `None`: no entry is left. The error says why not all of them were printed.
fn print_part<D: Disk, K: Sink>(
    alloc: Global,
    spool: &mut Spool<D>,
    output: &mut K,
    form: ListForm,
    number: u64,
) -> Result<Option<u64>, Note>
    requires prints { (k : K) (text : List ℕ) → K.permits k text }
    requires within { number ≤ end_of spool.old.memory }

    ensures known { IfErr result IsPrintNote }
    ensures unfinished { IfErr result (λ note. note ≢ Fine) }
    ensures next { IfOk result (λ next. IfSome next (λ n. (number < n) × (n ≤ end_of spool.new.memory))) }
    ensures calls { Calls (IsErrOf result Note.DiskFault) (D.moment spool.old.disk) (D.moment spool.new.disk) }
    ensures writes { CountsFaults (IsErrOf result Note.WriteFault) (K.write_faults output.old) (K.write_faults output.new) }
    ensures printed { (s : SpoolState) → D.tells → IsOpenIn s spool.old
        → PrintsNext form s number result (K.taken output.old) (K.taken output.new) }
    ensures kept { (s : SpoolState) → D.tells → IsOpenIn s spool.old → IsOpenIn s spool.new
        × LeavesOnly (D.moment spool.old.disk).image (D.moment spool.old.disk) (D.moment spool.new.disk) }
{
    let entries = match spool.pending(number, PART) {
        Ok(entries) => entries,
        Err(fault) => return Err(pend_note(fault)),
    };
    match print_entries(alloc, output, form, &entries) {
        Note::Fine => match entries.last() {
            Some(last) => Ok(Some(last.number + 1)),
            None => Ok(None),
        },
        note => Err(note),
    }
}

// Prints all entries that are left.
fn print_left<D: Disk, K: Sink>(
    alloc: Global,
    spool: &mut Spool<D>,
    output: &mut K,
    form: ListForm,
) -> Note
    requires prints { (k : K) (text : List ℕ) → K.permits k text }

    ensures known { IsPrintNote result }
    ensures calls { Calls (result ≡ Note.DiskFault) (D.moment spool.old.disk) (D.moment spool.new.disk) }
    ensures writes { CountsFaults (result ≡ Note.WriteFault) (K.write_faults output.old) (K.write_faults output.new) }
    ensures printed { (s : SpoolState) → D.tells → IsOpenIn s spool.old
        → ArePrinted form (left s) result (K.taken output.old) (K.taken output.new) }
    ensures kept { (s : SpoolState) → D.tells → IsOpenIn s spool.old
        → LeavesOnly (D.moment spool.old.disk).image (D.moment spool.old.disk) (D.moment spool.new.disk) }
{
    let mut number = 0;
    loop {
        match print_part(alloc, spool, output, form, number) {
            Ok(Some(next)) => number = next,
            Ok(None) => return Note::Fine,
            Err(note) => return note,
        }
    }
}

/// Prints a line for each entry whose number isn't known as confirmed, in order, from the spool that the
/// device holds: in the plain form its number, connection, index, unit, origin and length, and else its event
/// in that form and LF. At a time 256 entries at most are held, each with a text of at most 131,072 bytes, the
/// window of 262,144 bytes by which they are read, and of their lines those that aren't written yet: fewer
/// than 65,536 bytes, and one line.
///
/// `NotSpool` comes exactly where the device breaks a rule of the layout, with the offset of the first one,
/// and then nothing is written. `DiskFault` and `WriteFault` come only where a call of the disk or a write
/// failed in this call. Where a write failed the first lines are written, the last one perhaps in part; where a
/// call of the disk failed or no memory was found, the first lines, each whole. Nothing is written to the device:
/// whatever a crash leaves of it is what it could leave before.
pub fn list<D: Disk, K: Sink>(alloc: Global, disk: D, output: &mut K, form: ListForm) -> Finished<D>
    requires prints { (k : K) (text : List ℕ) → K.permits k text }
    requires tears { LetsKeep D.tells D.moment D.may_tear D.may_release }

    ensures { IsListed form (disk_over D.Disk disk result.disk) (output_over K.Sink.own output.old output.new) result.note }
{
    match Spool::recover(alloc, disk, Opening::Keep) {
        Ok(mut spool) => {
            let note = print_left(alloc, &mut spool, output, form);
            Finished::of(note, spool.into_disk())
        }
        Err(Refusal { fault, disk }) => Finished::of(recover_note(fault), disk),
    }
}

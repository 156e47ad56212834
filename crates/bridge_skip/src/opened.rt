//! A pending entry of a spool that is open, skipped.
ghost use Rattle.std.specs.Prelude.{◌≡◌, ◌<◌, ◌^◌, ℕ, List};
ghost use Rattle.event_form.specs.Event.{IsEvent};
ghost use Rattle.spool_state.specs.SpoolState.{SpoolState};
ghost use Rattle.edge_disk.specs.Calls.{Calls};
ghost use Rattle.spool_log.specs.Memory.{end_of};
ghost use Rattle.conn_serve.specs.Endings.{CountsFaults};
ghost use Rattle.bridge_parts.specs.Run.{output_run};
ghost use Rattle.bridge_skip.specs.Leave.{IsPrintedOf};
ghost use Rattle.bridge_skip.specs.Line.{PrintsEvent};
ghost use Rattle.bridge_skip.specs.Skipped.{IsOpenNote, Skips, SkipsEvent};
ghost use Rattle.bridge_skip.specs.Told.{IsOpenIn, disk_of};

use crate::printing::print_event;
use crate::releasing::release;
use bridge_parts::pend_note;
use edge_disk::Disk;
use edge_io::Sink;
use event_form::Event;
use notes::Note;
use spool_log::Spool;
use std::alloc::Global;

// Prints the event, and only where its line was written whole makes the number known.
fn skip_event<D: Disk, K: Sink>(
    alloc: Global,
    spool: &mut Spool<D>,
    number: u64,
    event: &Event,
    output: &mut K,
) -> Note
    requires limits { IsEvent event.now }
    requires within { number < end_of spool.old.memory }
    requires small { number < 2 ^ 63 }
    requires prints { (k : K) (text : List ℕ) → K.permits k text }
    requires earned { (now : K) → K.same output.old now → PrintsEvent event.now Note.Fine (K.taken output.old) (K.taken now) → D.may_release number }

    ensures known { IsOpenNote number result }
    ensures calls { Calls (result ≡ Note.DiskFault) (D.moment spool.old.disk) (D.moment spool.new.disk) }
    ensures writes { CountsFaults (result ≡ Note.WriteFault) (K.write_faults output.old) (K.write_faults output.new) }
    ensures skipped { (s : SpoolState) → D.tells → IsOpenIn s spool.old
        → SkipsEvent number event.now s (disk_of spool.old spool.new) (output_run K.taken K.write_faults output.old output.new) result }
{
    match print_event(alloc, output, event) {
        Note::Fine => release(spool, number),
        note => note,
    }
}

/// Prints the event of the pending entry of this number, and only where its line was written whole makes the number known. `Strange`
/// comes exactly where no entry of that number is pending, and then nothing is printed or changed.
pub(crate) fn skip_open<D: Disk, K: Sink>(
    alloc: Global,
    spool: &mut Spool<D>,
    number: u64,
    output: &mut K,
) -> Note
    requires prints { (k : K) (text : List ℕ) → K.permits k text }
    requires earned { (now : K) → K.same output.old now
        → (D.tells → (s : SpoolState) → IsOpenIn s spool.old → IsPrintedOf s number (K.taken output.old) (K.taken now))
        → D.may_release number }

    ensures known { IsOpenNote number result }
    ensures calls { Calls (result ≡ Note.DiskFault) (D.moment spool.old.disk) (D.moment spool.new.disk) }
    ensures writes { CountsFaults (result ≡ Note.WriteFault) (K.write_faults output.old) (K.write_faults output.new) }
    ensures skipped { (s : SpoolState) → D.tells → IsOpenIn s spool.old
        → Skips number s (disk_of spool.old spool.new) (output_run K.taken K.write_faults output.old output.new) result }
{
    if number >= spool.end() {
        return Note::Strange { number };
    }
    let given = match spool.pending(number, 1) {
        Ok(given) => given,
        Err(fault) => return pend_note(fault),
    };
    match given.first() {
        Some(one) if one.number == number => {
            skip_event(alloc, spool, number, &one.entry.event, output)
        }
        _ => Note::Strange { number },
    }
}

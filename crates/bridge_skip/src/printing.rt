//! The event of an entry, printed as a line.
ghost use Rattle.std.specs.Prelude.{◌≡◌, ◌⊎◌, ℕ, List};
ghost use Rattle.event_form.specs.Event.{IsEvent};
ghost use Rattle.conn_serve.specs.Endings.{CountsFaults};
ghost use Rattle.notes.specs.declared.note.Note.TheVariants.{Fine, WriteFault, NoMemory};
ghost use Rattle.bridge_skip.specs.Line.{PrintsEvent};

use crate::line::event_line;
use edge_io::{Sink, write_whole};
use event_form::Event;
use notes::Note;
use std::alloc::Global;

/// Prints the event as a JSON object, and LF. `Fine` comes exactly where all of the line was written; `WriteFault` where a write failed,
/// and then not all of it was; `NoMemory` where no memory was found for it, and then nothing was.
pub(crate) fn print_event<K: Sink>(alloc: Global, output: &mut K, event: &Event) -> Note
    requires limits { IsEvent event.now }
    requires prints { (k : K) (text : List ℕ) → K.permits k text }

    ensures known { (result ≡ Fine) ⊎ ((result ≡ WriteFault) ⊎ (result ≡ NoMemory)) }
    ensures writes { CountsFaults (result ≡ WriteFault) (K.write_faults output.old) (K.write_faults output.new) }
    ensures same { K.same output.old output.new }
    ensures printed { PrintsEvent event.now result (K.taken output.old) (K.taken output.new) }
{
    let Ok(line) = event_line(alloc, event) else {
        return Note::NoMemory;
    };
    match write_whole(output, &line) {
        Ok(()) => Note::Fine,
        Err(_) => Note::WriteFault,
    }
}

//! The command `load`: a stream is made, stored and forwarded in memory, and a line says how much it was.
ghost use Rattle.std.specs.Prelude.{◌≡◌, ◌≤◌, ◌⊎◌, ℕ, List};
ghost use Rattle.conn_serve.specs.Endings.{CountsFaults};
ghost use Rattle.load_run.specs.Line.{load_line};
ghost use Rattle.notes.specs.declared.note.Note.TheVariants.{WriteFault};
ghost use Rattle.bridge_parts.specs.Written.{IsPrinted};
ghost use Rattle.commands.specs.Loading.{note_of_load, LoadIsTold};
ghost use Rattle.commands.specs.Told.{output_over};

use bridge_parts::sent_note;
use edge_io::{Proto, Sink, write_whole};
use load_laws::load_comes_to_its_numbers;
use load_run::{LoadFault, Loaded, load_line};
use notes::Note;
use std::alloc::Global;

// The note for a load that came to no numbers: that of its replay or of its drain, or want of memory.
fn load_note(fault: LoadFault) -> Note
    ensures { result ≡ note_of_load fault }
{
    match fault {
        LoadFault::Replayed { talk } => Note::of_talk(talk),
        LoadFault::Drained { sent } => sent_note(sent),
        LoadFault::NoMemory => Note::NoMemory,
    }
}

// Prints the line that tells what the load came to.
fn print_loaded<K: Sink>(alloc: Global, output: &mut K, loaded: &Loaded) -> Note
    requires prints { (k : K) (text : List ℕ) → K.permits k text }

    ensures writes { CountsFaults (result ≡ WriteFault) (K.write_faults output.old) (K.write_faults output.new) }
    ensures undisturbed { (result ≡ Note.Fine) ⊎ ((result ≡ WriteFault) ⊎ (result ≡ Note.NoMemory)) }
    ensures line { IsPrinted result (load_line loaded.now) (K.taken output.old) (K.taken output.new) }
{
    let Ok(line) = load_line(alloc, loaded) else {
        return Note::NoMemory;
    };
    match write_whole(output, line.as_bytes()) {
        Ok(()) => Note::Fine,
        Err(_) => Note::WriteFault,
    }
}

/// Makes the stream of `count` events of this number, stores it by the protocol in a new spool in memory, forwards that to a peer in
/// memory that confirms all, and prints the line that says how much it was. By each protocol it comes to its numbers unless no memory
/// is found: all events were stored and are confirmed, and none is left. The note is `Fine`, `WriteFault` where a write of the line
/// failed, or `NoMemory`.
pub fn load<K: Sink>(alloc: Global, proto: Proto, number: u32, count: u32, output: &mut K) -> Note
    requires prints { (k : K) (text : List ℕ) → K.permits k text }
    requires few { count ≤ 100000 }

    ensures { LoadIsTold proto number count (output_over K.Sink.own output.old output.new) result }
{
    load_comes_to_its_numbers();
    match load_run::load(alloc, proto, number, count) {
        Ok(loaded) => print_loaded(alloc, output, &loaded),
        Err(fault) => load_note(fault),
    }
}

//! The lines of entries: gathered and written.
ghost use Rattle.std.specs.Prelude.{◌≡◌, ◌⊎◌, ◌++◌, ℕ, List, [], All, IfErr, OnOk, IsErrOf};
ghost use Rattle.std.specs.Io.KnownBytes.{Appends};
ghost use Rattle.foundation.specs.Faults.{HasCause};
ghost use Rattle.event_form.specs.Event.{IsEvent};
ghost use Rattle.event_form.specs.Entry.{IsEntry};
ghost use Rattle.conn_serve.specs.Endings.{CountsFaults};
ghost use Rattle.bridge_parts.specs.Written.{IsCut};
ghost use Rattle.bridge_skip.specs.Line.{IsEventLine};
ghost use Rattle.bridge_rescue.specs.Lines.{GathersMore, WritesHeld, IsLineNote};

use bridge_skip::event_line;
use edge_io::{Sink, Stopped, write_whole};
use event_form::{Entry, Event};
use notes::Note;
use std::alloc::{AllocError, Global};

/// Lines are held until they have so many bytes, and are written then.
const PIECE: usize = 65_536;

// Adds the line of the event to the lines.
fn add_line(alloc: Global, event: &Event, lines: &mut Vec<u8>) -> Result<(), AllocError>
    requires { IsEvent event.now }
    ensures { OnOk result ((line : List ℕ) × IsEventLine event.now line × (lines.new.items ≡ lines.old.items ++ line)) }
{
    let line = event_line(alloc, event)?;
    lines.extend_from_slice(&line)?;
    Ok(())
}

// Writes the lines where they are many, all of them, and then none is left.
fn write_many<K: Sink>(output: &mut K, lines: &mut Vec<u8>) -> Result<(), Stopped>
    requires prints { (k : K) (text : List ℕ) → K.permits k text }

    ensures cause { HasCause (K.write_faults output.old) (K.write_faults output.new) result }
    ensures done { OnOk result (((K.taken output.new ≡ K.taken output.old) × (lines.new.items ≡ lines.old.items))
        ⊎ (Appends (K.taken output.old) (K.taken output.new) lines.old.items × (lines.new.items ≡ []))) }
    ensures part { IfErr result (λ _. IsCut lines.old.items (K.taken output.old) (K.taken output.new)) }
{
    if lines.len() < PIECE {
        return Ok(());
    }
    write_whole(output, lines)?;
    lines.clear();
    Ok(())
}

/// Makes the lines of the entries' events and writes them, but for fewer than 65,536 bytes of the last ones, which are held. The error is
/// the note: `WriteFault` exactly where a write failed, `NoMemory` where no memory was found for a line; then what was held isn't
/// written.
pub(crate) fn add_entries<K: Sink>(
    alloc: Global,
    output: &mut K,
    entries: &[Entry],
    lines: &mut Vec<u8>,
) -> Result<(), Note>
    requires prints { (k : K) (text : List ℕ) → K.permits k text }
    requires limits { All IsEntry entries.now }

    ensures known { IfErr result IsLineNote }
    ensures writes { CountsFaults (IsErrOf result Note.WriteFault) (K.write_faults output.old) (K.write_faults output.new) }
    ensures gathered { GathersMore entries.now result (K.taken output.old) (K.taken output.new) lines.old.items lines.new.items }
{
    for entry in entries {
        let Ok(()) = add_line(alloc, &entry.event, lines) else {
            return Err(Note::NoMemory);
        };
        let Ok(()) = write_many(output, lines) else {
            return Err(Note::WriteFault);
        };
    }
    Ok(())
}

/// Writes the lines that are held. The error is `WriteFault`, exactly where a write failed.
pub(crate) fn write_rest<K: Sink>(output: &mut K, lines: &[u8]) -> Result<(), Note>
    requires prints { (k : K) (text : List ℕ) → K.permits k text }

    ensures known { IfErr result IsLineNote }
    ensures writes { CountsFaults (IsErrOf result Note.WriteFault) (K.write_faults output.old) (K.write_faults output.new) }
    ensures printed { WritesHeld result (K.taken output.old) (K.taken output.new) lines.now }
{
    match write_whole(output, lines) {
        Ok(()) => Ok(()),
        Err(_) => Err(Note::WriteFault),
    }
}

//! The lines of entries: made in the form that is wanted, and written.
ghost use Rattle.std.specs.Prelude.{◌≡◌, ◌≢◌, ℕ, List, [], ◌∷◌, ◌++◌, IfOk, IfErr, OnOk};
ghost use Rattle.foundation.specs.Faults.{HasCause};
ghost use Rattle.spool_answers.specs.Pend.{given_entries, AreNumbered};
ghost use Rattle.conn_serve.specs.Endings.{CountsFaults};
ghost use Rattle.event_form.specs.Entry.{IsEntry};
ghost use Rattle.notes.specs.declared.note.Note.TheVariants.{WriteFault, DiskFault};
ghost use Rattle.bridge_parts.specs.Written.{IsCut};
ghost use Rattle.commands.specs.Listed.{IsLine, AreHeldOrWritten, ArePrinted, IsPrintNote};

use bridge_words::{ListForm, entry_line};
use edge_io::{Sink, Stopped, write_whole};
use event_form::{Blob, Entry};
use event_map::{as_hec_object, as_json_object, as_text};
use notes::Note;
use spool_answers::Numbered;
use std::alloc::{AllocError, Global};

/// Lines are held until they have so many bytes, and are written then.
const PIECE: usize = 65_536;

// The bytes and LF.
fn with_line_end(bytes: Blob) -> Result<Vec<u8>, AllocError>
    ensures { IfOk result (λ line. line.items ≡ bytes ++ 10 ∷ []) }
{
    let mut line = bytes.into_vec();
    line.push(b'\n')?;
    Ok(line)
}

// The line of the entry with this number.
fn line_of(alloc: Global, form: ListForm, number: u64, entry: &Entry) -> Result<Vec<u8>, AllocError>
    requires { IsEntry entry.now }
    ensures { IfOk result (λ line. IsLine form number entry.now line.items) }
{
    match form {
        ListForm::Plain => Ok(entry_line(alloc, number, entry)?.into_bytes()),
        ListForm::Text => with_line_end(as_text(alloc, &entry.event)?),
        ListForm::JsonObject => with_line_end(as_json_object(alloc, &entry.event)?),
        ListForm::HecObject => with_line_end(as_hec_object(alloc, &entry.event)?),
    }
}

// Adds the line of the entry with this number to the lines.
fn add_line(
    alloc: Global,
    form: ListForm,
    number: u64,
    entry: &Entry,
    lines: &mut Vec<u8>,
) -> Result<(), AllocError>
    requires { IsEntry entry.now }
    ensures { OnOk result ((line : List ℕ) × IsLine form number entry.now line × (lines.new.items ≡ lines.old.items ++ line)) }
{
    let line = line_of(alloc, form, number, entry)?;
    lines.extend_from_slice(&line)?;
    Ok(())
}

// Writes the lines where they are many, all of them, and then none is left.
fn write_many<K: Sink>(output: &mut K, lines: &mut Vec<u8>) -> Result<(), Stopped>
    requires prints { (k : K) (text : List ℕ) → K.permits k text }

    ensures cause { HasCause (K.write_faults output.old) (K.write_faults output.new) result }
    ensures done { OnOk result (AreHeldOrWritten lines.old.items lines.new.items (K.taken output.old) (K.taken output.new)) }
    ensures part { IfErr result (λ _. IsCut lines.old.items (K.taken output.old) (K.taken output.new)) }
{
    if lines.len() < PIECE {
        return Ok(());
    }
    write_whole(output, lines)?;
    lines.clear();
    Ok(())
}

/// Writes the lines of the entries. Of the lines fewer than 65,536 bytes and one line are held at a time.
/// `WriteFault` comes only where a write failed, and then not all was written; `NoMemory` where no memory was
/// found for a line, and then the lines of the first entries were written, each whole.
pub(crate) fn print_entries<K: Sink>(
    alloc: Global,
    output: &mut K,
    form: ListForm,
    entries: &[Numbered],
) -> Note
    requires prints { (k : K) (text : List ℕ) → K.permits k text }
    requires limits { (from : ℕ) × (end : ℕ) × AreNumbered from end entries.now }

    ensures known { IsPrintNote result × (result ≢ DiskFault) }
    ensures writes { CountsFaults (result ≡ WriteFault) (K.write_faults output.old) (K.write_faults output.new) }
    ensures printed { ArePrinted form (given_entries entries.now) result (K.taken output.old) (K.taken output.new) }
{
    let mut lines = Vec::new(alloc);
    for one in entries {
        let Ok(()) = add_line(alloc, form, one.number, &one.entry, &mut lines) else {
            return Note::NoMemory;
        };
        let Ok(()) = write_many(output, &mut lines) else {
            return Note::WriteFault;
        };
    }
    match write_whole(output, &lines) {
        Ok(()) => Note::Fine,
        Err(_) => Note::WriteFault,
    }
}

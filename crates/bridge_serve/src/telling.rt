//! The line that a run ends with.
ghost use Rattle.std.specs.Prelude.{◌≡◌, ◌⊎◌, ◌≤◌, ℕ, List, length};
ghost use Rattle.conn_serve.specs.Endings.{CountsFaults};
ghost use Rattle.notes.specs.declared.note.Note.TheVariants.{WriteFault};
ghost use Rattle.bridge_words.specs.Lines.{serve_line};
ghost use Rattle.bridge_parts.specs.Counted.{WroteAfter};
ghost use Rattle.bridge_parts.specs.Run.{output_run};
ghost use Rattle.bridge_parts.specs.Written.{IsPrinted};
ghost use Rattle.bridge_serve.specs.Noted.{talks_of, PrintsLast};

use bridge_parts::first_of;
use bridge_words::serve_line;
use edge_io::{Sink, write_whole};
use notes::Note;
use serve_workers::WorkerReport;
use std::alloc::Global;

/// What a run came to, in the numbers of its line.
#[derive(Clone, Copy, PartialEq, Eq)]
pub(crate) struct Summary {
    /// How many connections were served to their end and given back.
    pub(crate) talks: u64,
    /// How many entries were stored.
    pub(crate) taken: u64,
    /// How many entries became known as confirmed.
    pub(crate) confirmed: u64,
    /// How many entries aren't known as confirmed.
    pub(crate) left: u64,
}

/// How many connections the workers served to their end and gave back.
pub(crate) fn count_talks(reports: &[WorkerReport]) -> u64
    requires { length reports.now ≤ 4096 }
    ensures { result ≡ talks_of reports.now }
{
    let mut talks = 0;
    for report in reports {
        talks += u64::from(report.finished);
    }
    talks
}

// Prints the line. The note is `WriteFault` where a write of it failed, `NoMemory` where none was found to make it, and else `Fine`.
fn print_summary<K: Sink>(alloc: Global, output: &mut K, summary: Summary) -> Note
    requires prints { (sink : K) (text : List ℕ) → K.permits sink text }

    ensures writes { CountsFaults (result ≡ WriteFault) (K.write_faults output.old) (K.write_faults output.new) }
    ensures undisturbed { (result ≡ Note.Fine) ⊎ ((result ≡ WriteFault) ⊎ (result ≡ Note.NoMemory)) }
    ensures line { IsPrinted result (serve_line summary.talks summary.taken summary.confirmed summary.left) (K.taken output.old) (K.taken output.new) }
{
    let Ok(line) = serve_line(
        alloc,
        summary.talks,
        summary.taken,
        summary.confirmed,
        summary.left,
    ) else {
        return Note::NoMemory;
    };
    match write_whole(output, line.as_bytes()) {
        Ok(()) => Note::Fine,
        Err(_) => Note::WriteFault,
    }
}

/// Prints the line after a run that ended with this note, unless the note is `NoMemory`: then nothing is printed. The result is the
/// run's note, or where that is `Fine` the print's: `Fine`, `WriteFault` or `NoMemory`.
pub(crate) fn print_after<K: Sink>(
    alloc: Global,
    output: &mut K,
    ended: Note,
    summary: Summary,
) -> Note
    requires prints { (sink : K) (text : List ℕ) → K.permits sink text }

    ensures writes { WroteAfter ended result (K.write_faults output.old) (K.write_faults output.new) }
    ensures note { (result ≡ ended) ⊎ ((result ≡ WriteFault) ⊎ (result ≡ Note.NoMemory)) }
    ensures printed { PrintsLast ended (serve_line summary.talks summary.taken summary.confirmed summary.left) result
        (output_run K.taken K.write_faults output.old output.new) }
{
    match ended {
        Note::NoMemory => Note::NoMemory,
        ended => first_of(ended, print_summary(alloc, output, summary)),
    }
}

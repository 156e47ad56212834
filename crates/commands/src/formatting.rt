//! The command `format`: a device is made an empty spool.
ghost use Rattle.std.specs.Prelude.{◌≡◌, ◌≢◌, ℕ, List};
ghost use Rattle.edge_disk.specs.Leave.{LetsAll};
ghost use Rattle.conn_serve.specs.Endings.{CountsFaults};
ghost use Rattle.notes.specs.declared.note.Note.TheVariants.{WriteFault, DiskFault};
ghost use Rattle.bridge_words.specs.Lines.{spool_line};
ghost use Rattle.bridge_words.specs.Words.{IsSize};
ghost use Rattle.bridge_parts.specs.Written.{IsPrinted};
ghost use Rattle.commands.specs.Formatted.{IsFormatted};
ghost use Rattle.commands.specs.Told.{disk_over, output_over};

use bridge_words::spool_line;
use edge_disk::Disk;
use edge_io::{Sink, write_whole};
use notes::Note;
use spool_log::FormatFault;
use std::alloc::Global;

// Prints the line that says which spool was made.
fn print_line<K: Sink>(alloc: Global, output: &mut K, slots: u32, size: u64) -> Note
    requires prints { (k : K) (text : List ℕ) → K.permits k text }

    ensures writes { CountsFaults (result ≡ WriteFault) (K.write_faults output.old) (K.write_faults output.new) }
    ensures undisturbed { result ≢ DiskFault }
    ensures line { IsPrinted result (spool_line slots size) (K.taken output.old) (K.taken output.new) }
{
    let Ok(line) = spool_line(alloc, slots, size) else {
        return Note::NoMemory;
    };
    match write_whole(output, line.as_bytes()) {
        Ok(()) => Note::Fine,
        Err(_) => Note::WriteFault,
    }
}

/// Makes the device an empty spool of so many slots of `size` bytes, and then prints the line that says so.
///
/// `WrongLength` comes exactly where the device hasn't the length of such a spool, and then nothing is
/// changed. `DiskFault` and `WriteFault` come only where a call of the disk or a write failed in this call.
/// A crash leaves what could stand there before, no spool, or the empty one.
pub fn format<D: Disk, K: Sink>(
    alloc: Global,
    disk: &mut D,
    output: &mut K,
    slots: u32,
    size: u64,
) -> Note
    requires size { IsSize slots size }
    requires prints { (k : K) (text : List ℕ) → K.permits k text }
    requires tears { LetsAll D.may_tear }

    ensures { IsFormatted slots size (disk_over D.Disk disk.old disk.new) (output_over K.Sink.own output.old output.new) result }
{
    match spool_log::format(disk, slots, size) {
        Ok(()) => print_line(alloc, output, slots, size),
        Err(FormatFault::WrongLength { have, want }) => Note::WrongLength { have, want },
        Err(FormatFault::DiskFault) => Note::DiskFault,
    }
}

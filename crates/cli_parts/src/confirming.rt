//! Whether a `format` goes on where FILE holds entries that are pending.
ghost use Rattle.std.specs.Prelude.{◌≡◌, ◌⊎◌, ◌↔◌, IfErr, IfOk, IsTrue, MatchResult, codes, length};
ghost use Rattle.spool_state.specs.SpoolState.{SpoolState};
ghost use Rattle.spool_state.specs.Image.{StandsFor};
ghost use Rattle.spool_state.specs.Left.{left};
ghost use Rattle.edge_disk.specs.Calls.{Calls};
ghost use Rattle.edge_disk.specs.Disk.{LeavesOnly};
ghost use Rattle.spool_answers.specs.Leave.{LetsKeep};
ghost use Rattle.spool_log.specs.declared.fault.RecoverFault.TheVariants.{DiskFault as Failed};
ghost use Rattle.spool_log.specs.declared.opening.Opening.TheVariants.{Keep};
ghost use Rattle.spool_log.specs.Opening.{IsRefusedAs};
ghost use Rattle.notes.specs.declared.note.Note.TheVariants.{DiskFault, NoMemory};
ghost use Rattle.cli_parts.specs.Ending.{note_in};

use crate::Host;
use crate::arguments::Arguments;
use crate::health::Waiting;
use crate::opening::Showing;
use crate::progress::{Progress, Watched};
use crate::status::Ending;
use bridge_parts::pending_count;
use bridge_words::{Need, need_of};
use edge_disk::Disk;
use edge_file::{FileDisk, Sharing};
use notes::Note;
use spool_log::{Opening, RecoverFault, Refusal, Spool};
use std::alloc::Global;
use std::io::IsTerminal;

/// A disk that was looked into.
struct Looked<D> {
    /// How many entries are pending in the spool that it holds, or why none is read there.
    pending: Result<u64, RecoverFault>,
    disk: D,
}

// Looks how many entries are pending. Nothing is written.
fn look<D: Disk>(alloc: Global, disk: D) -> Looked<D>
    requires tears { LetsKeep D.tells D.moment D.may_tear D.may_release }

    ensures counted { IfOk result.pending (λ count. D.tells → (s : SpoolState) × StandsFor s (D.moment disk).reads × (count ≡ length (left s))) }
    ensures broken { IfErr result.pending (λ fault. D.tells → IsRefusedAs Keep (D.moment disk).reads fault) }
    ensures calls { MatchResult result.pending (λ _. Calls ⊥ (D.moment disk) (D.moment result.disk))
        (λ fault. Calls (fault ≡ Failed) (D.moment disk) (D.moment result.disk)) }
    ensures kept { D.tells → LeavesOnly (D.moment disk).image (D.moment disk) (D.moment result.disk) }
{
    match Spool::recover(alloc, disk, Opening::Keep) {
        Ok(spool) => Looked {
            pending: Ok(pending_count(&spool)),
            disk: spool.into_disk(),
        },
        Err(Refusal { fault, disk }) => Looked {
            pending: Err(fault),
            disk,
        },
    }
}

// Whether an answer, with its end of line, says yes.
fn is_yes(answer: &str) -> bool
    ensures { IsTrue result ↔ ((answer.now ≡ codes "y\n") ⊎ (answer.now ≡ codes "yes\n")) }
{
    answer == "y\n" || answer == "yes\n"
}

// Asks at the terminal whether a FILE with so many pending entries is to be formatted, and reads one line.
fn agrees(rt: &(impl AllocGlobal + Eprint + Input), file: &str, pending: u64) -> bool {
    let entries = if pending == 1 { "entry" } else { "entries" };
    let _ = eprint!(rt; "bridge: {file} holds {pending} pending {entries}. Format it? [y/N] ");
    let mut answer = String::new(rt.alloc());
    rt.read_line(&mut answer).is_ok() && is_yes(answer.as_str())
}

// Asks about the spool on the disk, where it has entries that are pending.
fn agrees_over<D: Disk + Drop>(host: Host<'_>, file: &str, disk: D) -> Result<(), Ending>
    requires tears { LetsKeep D.tells D.moment D.may_tear D.may_release }
    ensures { IfErr result (λ ending. (note_in ending ≡ DiskFault) ⊎ (note_in ending ≡ NoMemory)) }
{
    let Looked {
        pending,
        disk: _held,
    } = look(host.rt.alloc(), disk);
    match pending {
        Ok(pending) if pending > 0 && !agrees(host.rt, file, pending) => {
            let _ = eprintln!(host; "bridge: {file}: left as it is");
            Err(Ending::Unopened)
        }
        Err(RecoverFault::NoMemory) => Err(Ending::Noted(Note::NoMemory)),
        _ => Ok(()),
    }
}

/// Whether the program goes on with these arguments. Where they are those of a `format`, standard input is a terminal, and FILE is a spool
/// of the length that is asked for with entries that are pending, the user is asked first. FILE is only read, and nobody else has it until
/// the question is answered.
///
/// The error is how to end: `Unopened` where the answer is another one than `y` or `yes`, which FILE's line says, and with `NoMemory` where
/// no memory was found to look into FILE. Where FILE can't be opened or read, or is no spool, nothing is asked.
pub fn confirm(host: Host<'_>, arguments: &Arguments) -> Result<(), Ending>
    ensures { IfErr result (λ ending. (note_in ending ≡ DiskFault) ⊎ (note_in ending ≡ NoMemory)) }
{
    let rt = host.rt;
    if !rt.stdin().is_terminal() {
        return Ok(());
    }
    let Ok(Need::Make { len }) = need_of(rt.alloc(), &arguments.words) else {
        return Ok(());
    };
    match FileDisk::open_locked(rt, &arguments.file, Sharing::Exclusive) {
        Ok(disk) if disk.len() == len => {
            let progress = Progress::new(host, Showing::Always.is_seen(rt));
            agrees_over(
                host,
                &arguments.file,
                Watched::new(disk, progress, "FILE", Waiting::Nobody),
            )
        }
        _ => Ok(()),
    }
}

//! The top call: the words say which command it is.
ghost use Rattle.std.specs.Prelude.{◌≡◌, ℕ, List};
ghost use Rattle.notes.specs.Notes.{status_of};
ghost use Rattle.bridge_core.specs.RunOf.{IsRunOf};
ghost use Rattle.bridge_core.specs.Headline.{KeepsAcknowledged};
ghost use Rattle.bridge_core.specs.Leave.{ForWords, MayAnswer, MayReplay, MayTake, WasRead, MayReleaseOn, WasWritten, exchanges_as, HasExchangedAt, MayTear, MayBind, MayTell, MayReport, MayDial, MayPrint};
ghost use Rattle.bridge_core.specs.Told.{ran, texts};

use crate::asked::{Unasked, asked_of};
use crate::doing::do_command;
use crate::ended::Ended;
use edge_disk::Disk;
use edge_io::{Door, Net, Sink, Source};
use notes::Note;
use std::alloc::Global;
use std::sync::Wait;
use std::thread::Threads;

/// Does all that the program does with these words, over this disk, input, output and net.
///
/// - `format SLOTS SIZE` makes the device an empty spool, and prints a line.
/// - `list` prints a line for each entry whose number isn't known as confirmed, and with `--as` its event in that form.
/// - `replay relp` serves the input as one connection by RELP, version 0, `replay lumberjack` by Lumberjack, version 2, and
///   `replay hec` by Splunk's HTTP Event Collector, with the tokens of `--token` and `--ack-token`. What is stored is durable before it
///   is acknowledged, and an entry that was acknowledged stands in the spool whatever a crash leaves from then on.
/// - `drain relp`, `drain lumberjack` and `drain hec` forward the entries whose numbers aren't known as confirmed over the input and
///   the output, and with a place over a link that the net dials. The numbers that the peer acknowledges become known, and no others.
/// - `load` makes a stream, stores and forwards it in memory alone, and prints a line.
/// - `serve` serves many senders at once, at doors that the net binds, and forwards meanwhile what they store, where the words name a
///   place. With `--tokens` it takes each token of a list, without or with acks. With `--status` those who ask at that place are told
///   where the spool stands. That stores nothing and marks nothing: the journal of the clause `run` is of the workers' and the
///   forwarder's calls alone.
///
/// The result has the note that says why the run ended, and the exit status, which is the note's:
///
/// - `Usage` comes only where the words are no command. Where they are no command, the note is `Usage`, or `NoMemory` where no memory
///   was found for reading them, and nothing is done.
/// - `ReadFault`, `WriteFault` and `DiskFault` come only where a read of the input or of a link, a write of the output or of a link,
///   or a call of the disk failed in this call, and `NetFault` where a bind, a dial or an accept did. Where another note comes, no
///   read of the input, no write of the output and no call of the disk failed, with these exceptions: the disk failed, and the
///   collector's reply that says so was cut short; `drain` ended for the disk, the spool or want of memory after a write that failed;
///   a write of the line of `drain` with a place, or of `serve`, failed after an ending that the note reports instead; and calls may
///   fail in a run of `serve` without ending it, whose note is that of the first failure that ends it.
/// - `NoMemory` says that no memory was found.
/// - All other notes are explained at the functions that do the commands.
///
/// The promise to senders stands twice. What is asked, `answers` and `replays`, is leave for each write before it is made: a text may be
/// written to a sender once all that it acknowledges is durable, and none else. So it is at each moment of a run, whether that ends or
/// not, since the caller may give leave for no more. What is ensured, `acknowledged`, says of the end that nothing was lost.
///
/// So it is with what becomes known as confirmed: `releases` is leave for that, of the disk's type. A number may become known once the
/// peer to whom the words forward has received its entry, that is has acknowledged it, and no other number may.
///
/// And so it is with the numbers that those are told who ask at `--status`: by `tells` they are those of the spool after a journal of
/// calls that led to then, but for how many events were stored by each protocol, of which no clause says anything. Nor does one say that
/// they were read after the question.
///
/// And with what is reported to hold the forwarding up: by `reports` it is the entry that the session just held had offered alone, which
/// the peer did not acknowledge, and the code with which the peer refused it, where it did. That it is reported no clause says.
///
/// Of all words but those of `serve` [`bridge_once`](crate::bridge_once) does the same, and is proved to return.
///
/// The clause `run` has all the rest, by command. That each connection contributes exactly its protocol's events up to the first fault,
/// in order, is for `replay` `IsReplayed.served` (`carried`) with `IsStored.reached` (`each`, `grows`), and for `serve`
/// `Promises.are_parts` with `contributes`, `nothing_else`, `order` and `order_was`. That only what a peer acknowledged becomes known is
/// for `drain` `IsSessionOver.entries`, and for `serve` `Promises.sessions` with `known`.
pub fn bridge<D: Disk + Drop + Send, S: Source, K: Sink, N: Net + Send, R: Threads + Wait + Sync>(
    rt: &R,
    alloc: Global,
    words: &[String],
    disk: D,
    input: &mut S,
    output: &mut K,
    net: &mut N,
) -> Ended<D, N::P>
where
    N::P: Drop + Send,
    <N::P as Door>::L: Send,
    N::L: Send,
    N::M: Drop + Send,

    // A text may be written to a sender once what it acknowledges is durable: to a link of a door, and by `replay` to the output.
    requires answers { ForWords (texts words.now) (MayAnswer D.tells D.moment disk N.permits) }
    requires replays { ForWords (texts words.now)
        (MayReplay D.tells D.moment disk (WasRead S.same S.given input.old) (MayTake K.same K.taken K.permits output.old)) }

    // A number may become known as confirmed once the peer has received its entry, to whom the words forward.
    requires releases { ForWords (texts words.now) (MayReleaseOn D.Disk disk (exchanges_as
        (WasRead S.same S.given input.old) (WasWritten K.same K.taken output.old)
        (HasExchangedAt N.L.same N.L.dialed N.L.given N.L.taken))) }

    // `format` may write anything to the disk, and every other command what keeps the spool.
    requires tears { ForWords (texts words.now) (MayTear D.tells D.moment D.may_tear D.may_release) }

    // Those who ask for numbers may be told the spool's.
    requires tells { ForWords (texts words.now) (MayTell D.tells D.moment disk N.M.may_tell) }

    // The entry that a session has just offered alone, and that was not acknowledged, may be reported to hold the forwarding up.
    requires reports { ForWords (texts words.now)
        (MayReport D.tells D.moment disk (HasExchangedAt N.L.same N.L.dialed N.L.given N.L.taken) N.may_report) }

    // The places that the words name may be bound and dialed, and any text may be printed.
    requires binds { ForWords (texts words.now) (MayBind N.may_bind) }
    requires dials { ForWords (texts words.now) (MayDial N.may_dial) }
    requires prints { ForWords (texts words.now) (MayPrint ((sink : K) (text : List ℕ) → K.permits sink text)) }

    ensures status { result.status ≡ status_of result.note }

    // What was done, what was left alone, and what failed meanwhile.
    ensures run { IsRunOf (texts words.now) (ran (D.Disk, S.Source.own, K.Sink.own, N.told, N.P.told)
        (disk, input.old, output.old, net.old) (input.new, output.new, net.new) result) result.note }

    // What was acknowledged to a sender is not lost, whatever the note.
    ensures acknowledged { KeepsAcknowledged (texts words.now) (ran (D.Disk, S.Source.own, K.Sink.own, N.told, N.P.told)
        (disk, input.old, output.old, net.old) (input.new, output.new, net.new) result) }
{
    match asked_of(alloc, words) {
        Ok(command) => do_command(rt, alloc, command, disk, input, output, net),
        Err(Unasked::NoCommand) => Ended::of(alloc, Note::Usage, disk),
        Err(Unasked::NoMemory) => Ended::of(alloc, Note::NoMemory, disk),
    }
}

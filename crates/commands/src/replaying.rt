//! The command `replay`: the input is served as one connection, over the spool that the device holds.
ghost use Rattle.std.specs.Prelude.{◌≡◌, ◌*◌, ◌^◌, false};
ghost use Rattle.edge_io.specs.declared.proto.Proto.{Proto};
ghost use Rattle.spool_answers.specs.Leave.{LetsKeep};
ghost use Rattle.spool_log.specs.Memory.{run_of};
ghost use Rattle.conn_serve.specs.Endings.{CountsFaults};
ghost use Rattle.notes.specs.declared.note.Note.TheVariants.{ReadFault, WriteFault};
ghost use Rattle.bridge_parts.specs.Run.{link_run};
ghost use Rattle.commands.specs.Answered.{MayReplay, MayServe, MayTake, WasRead};
ghost use Rattle.commands.specs.Failed.{TellsDiskFault};
ghost use Rattle.commands.specs.Replayed.{ServesLink, IsReplayed, KeepsOver};
ghost use Rattle.commands.specs.SpoolRun.{spool_over};
ghost use Rattle.commands.specs.Told.{disk_over, input_over, link_over, output_over};

use crate::finished::Finished;
use crate::streams::Streams;
use bridge_parts::recover_note;
use conn_serve::{Rules, attend};
use edge_disk::Disk;
use edge_io::{Link, Sink, Source};
use hec_ids::Ids;
use notes::Note;
use spool_desk::{Alone, Desk};
use spool_log::{Opening, Refusal, Spool};
use std::alloc::Global;

/// How many connections a run has numbers for.
const CONNECTIONS: u64 = 1 << 32;

// Serves the link by these rules, as the first connection of the spool's run.
fn serve_link<D: Disk, L: Link>(
    alloc: Global,
    rules: Rules,
    spool: Spool<D>,
    link: &mut L,
) -> Finished<D>
    requires sure { spool.doubt ≡ false }
    requires answers { MayServe (spool_over spool) (run_of spool.memory * 2 ^ 32) rules
        (WasRead L.same L.given link.old) (MayTake L.same L.taken L.permits link.old) }

    ensures calls { TellsDiskFault (rules.proto ≡ Proto.Hec) result.note (D.moment spool.disk) (D.moment result.disk) }
    ensures reads { CountsFaults (result.note ≡ ReadFault) (L.read_faults link.old) (L.read_faults link.new) }
    ensures writes { CountsFaults (result.note ≡ WriteFault) (L.write_faults link.old) (L.write_faults link.new) }
    ensures same { L.same link.old link.new }
    ensures served { ServesLink rules (run_of spool.memory * 2 ^ 32) (link_run L.given L.left L.taken link.old link.new)
        (KeepsOver spool result.disk) result.note }
{
    let run = spool.run();
    let conn = u64::from(run) * CONNECTIONS;
    let ids = Ids::new(alloc, run, 0);
    let mut access = Alone::new(Desk { spool, ids });
    let attended = attend(alloc, link, &rules, &mut access, conn);
    let desk = access.into_desk();
    Finished::of(Note::of_talk(attended.talk), desk.spool.into_disk())
}

// Serves the input by these rules, as the first connection of the spool's run.
fn serve_input<'a, D: Disk, S: Source, K: Sink>(
    alloc: Global,
    rules: Rules,
    spool: Spool<D>,
    input: &'a mut S,
    output: &'a mut K,
) -> Finished<D>
    requires sure { spool.doubt ≡ false }
    requires answers { MayServe (spool_over spool) (run_of spool.memory * 2 ^ 32) rules
        (WasRead S.same S.given input.old) (MayTake K.same K.taken K.permits output.old) }

    ensures calls { TellsDiskFault (rules.proto ≡ Proto.Hec) result.note (D.moment spool.disk) (D.moment result.disk) }
    ensures reads { CountsFaults (result.note ≡ ReadFault) (S.read_faults input.old) (S.read_faults input.new) }
    ensures writes { CountsFaults (result.note ≡ WriteFault) (K.write_faults output.old) (K.write_faults output.new) }
    ensures served { ServesLink rules (run_of spool.memory * 2 ^ 32)
        (link_over S.Source.own K.Sink.own input.old input.new output.old output.new) (KeepsOver spool result.disk) result.note }
{
    let mut link = Streams {
        source: input,
        sink: output,
    };
    serve_link(alloc, rules, spool, &mut link)
}

/// Serves the input as one connection by the protocol and the tokens of these rules, over the spool that the device
/// holds, of which the run is raised by one first. The connection has the number run * 2^32.
///
/// Where the device can't be opened nothing is read or written: `NotSpool` comes exactly where it breaks a
/// rule of the layout, with the offset of the first one; then `RunsSpent` exactly where the run is 2,097,151;
/// then `Worn` exactly where the register was written 2^63 times. Else the note is that of the connection's
/// ending.
///
/// `answers` is the leave to write, which the caller gives: once these bytes were read from the input the output may take
/// a text, if all that it acknowledges of them is durable on the disk as it is then (`IsDurable`). No other text is
/// written, also where the call never returns.
pub fn replay<D: Disk, S: Source, K: Sink>(
    alloc: Global,
    rules: Rules,
    disk: D,
    input: &mut S,
    output: &mut K,
) -> Finished<D>
    requires answers { MayReplay D.tells D.moment disk rules (WasRead S.same S.given input.old)
        (MayTake K.same K.taken K.permits output.old) }
    requires tears { LetsKeep D.tells D.moment D.may_tear D.may_release }

    ensures { IsReplayed rules (disk_over D.Disk disk result.disk) (input_over S.Source.own input.old input.new)
        (output_over K.Sink.own output.old output.new) result.note }
{
    match Spool::recover(alloc, disk, Opening::Raise) {
        Ok(spool) => serve_input(alloc, rules, spool, input, output),
        Err(Refusal { fault, disk }) => Finished::of(recover_note(fault), disk),
    }
}

//! One function does each command: `serve`, which waits for senders, or another one, which ends.
ghost use Rattle.std.specs.Prelude.{◌≡◌, ℕ, List};
ghost use Rattle.notes.specs.Notes.{status_of};
ghost use Rattle.bridge_core.specs.Asked.{IsAsked};
ghost use Rattle.bridge_core.specs.Done.{Does, IsOther};
ghost use Rattle.bridge_core.specs.Leave.{MayAnswer, MayReplay, MayTake, WasRead, MayReleaseOn, WasWritten, exchanges_as, HasExchangedAt, MayTear, MayBind, MayTell, MayReport, MayDial, MayPrint};
ghost use Rattle.bridge_core.specs.Told.{ran};

use crate::ended::Ended;
use bridge_parts::outward_of;
use bridge_serve::{Over, serve};
use bridge_words::Command;
use commands::{Finished, drain_out, drain_to, format, list, load, replay};
use conn_serve::Rules;
use edge_disk::Disk;
use edge_io::{Door, Net, Sink, Source};
use hec_tokens::TokenList;
use std::alloc::Global;
use std::sync::Wait;
use std::thread::Threads;

/// Does a command other than `serve`, which words ask for, with the leave that it has. It waits for nobody, and ends. What a command
/// doesn't need is left alone.
pub(crate) fn do_other<D: Disk, S: Source, K: Sink, N: Net>(
    alloc: Global,
    command: Command,
    disk: D,
    input: &mut S,
    output: &mut K,
    net: &mut N,
) -> Ended<D, N::P>
    requires other { IsOther command }
    requires asked { IsAsked command }
    requires dials { MayDial N.may_dial command }
    requires replays { MayReplay D.tells D.moment disk (WasRead S.same S.given input.old) (MayTake K.same K.taken K.permits output.old)
        command }
    requires releases { MayReleaseOn D.Disk disk (exchanges_as (WasRead S.same S.given input.old) (WasWritten K.same K.taken output.old)
        (HasExchangedAt N.L.same N.L.dialed N.L.given N.L.taken)) command }
    requires tears { MayTear D.tells D.moment D.may_tear D.may_release command }
    requires prints { MayPrint ((sink : K) (text : List ℕ) → K.permits sink text) command }

    ensures status { result.status ≡ status_of result.note }
    ensures done { Does command (ran (D.Disk, S.Source.own, K.Sink.own, N.told, N.P.told)
        (disk, input.old, output.old, net.old) (input.new, output.new, net.new) result) result.note }
{
    match command {
        Command::Format { slots, size } => {
            let mut disk = disk;
            let note = format(alloc, &mut disk, output, slots, size);
            Ended::of(alloc, note, disk)
        }
        Command::List { form } => {
            let Finished { note, disk } = list(alloc, disk, output, form);
            Ended::of(alloc, note, disk)
        }
        Command::Replay {
            proto,
            token,
            ack_token,
        } => {
            let listed = TokenList::none();
            let rules = Rules {
                proto,
                token,
                ack_token,
                listed,
                group: false,
            };
            let Finished { note, disk } = replay(alloc, rules, disk, input, output);
            Ended::of(alloc, note, disk)
        }
        Command::Drain {
            receiver,
            place: None,
        } => {
            let outward = outward_of(receiver);
            let Finished { note, disk } = drain_out(alloc, &outward, disk, input, output, net);
            Ended::of(alloc, note, disk)
        }
        Command::Drain {
            receiver,
            place: Some(place),
        } => {
            let outward = outward_of(receiver);
            let Finished { note, disk } = drain_to(
                alloc,
                &outward,
                place.as_str(),
                disk,
                output,
                net,
            );
            Ended::of(alloc, note, disk)
        }
        Command::Load {
            proto,
            number,
            count,
        } => {
            let note = load(alloc, proto, number, count, output);
            Ended::of(alloc, note, disk)
        }
        Command::Serve { .. } => unreachable!(),
    }
}

/// Does the command, which words ask for, with the leave that it has. What a command doesn't need is left alone: `serve` alone binds
/// doors, and answers those who ask for numbers.
pub(crate) fn do_command<
    D: Disk + Drop + Send,
    S: Source,
    K: Sink,
    N: Net + Send,
    R: Threads + Wait + Sync,
>(
    rt: &R,
    alloc: Global,
    command: Command,
    disk: D,
    input: &mut S,
    output: &mut K,
    net: &mut N,
) -> Ended<D, N::P>
where
    N::P: Drop + Send,
    <N::P as Door>::L: Send,
    N::L: Send,
    N::M: Drop + Send,
    requires asked { IsAsked command }
    requires answers { MayAnswer D.tells D.moment disk N.permits command }
    requires binds { MayBind N.may_bind command }
    requires tells { MayTell D.tells D.moment disk N.M.may_tell command }
    requires reports { MayReport D.tells D.moment disk (HasExchangedAt N.L.same N.L.dialed N.L.given N.L.taken) N.may_report command }
    requires dials { MayDial N.may_dial command }
    requires replays { MayReplay D.tells D.moment disk (WasRead S.same S.given input.old) (MayTake K.same K.taken K.permits output.old)
        command }
    requires releases { MayReleaseOn D.Disk disk (exchanges_as (WasRead S.same S.given input.old) (WasWritten K.same K.taken output.old)
        (HasExchangedAt N.L.same N.L.dialed N.L.given N.L.taken)) command }
    requires tears { MayTear D.tells D.moment D.may_tear D.may_release command }
    requires prints { MayPrint ((sink : K) (text : List ℕ) → K.permits sink text) command }

    ensures status { result.status ≡ status_of result.note }
    ensures done { Does command (ran (D.Disk, S.Source.own, K.Sink.own, N.told, N.P.told)
        (disk, input.old, output.old, net.old) (input.new, output.new, net.new) result) result.note }
{
    match command {
        Command::Serve { server } => {
            let Over { note, disk, doors } = serve(rt, alloc, server, disk, output, net);
            Ended {
                status: note.status(),
                note,
                disk,
                doors,
            }
        }
        command => do_other(alloc, command, disk, input, output, net),
    }
}

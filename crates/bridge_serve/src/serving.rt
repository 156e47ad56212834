//! The command `serve`.
ghost use Rattle.std.specs.Prelude.{◌≡◌, ◌≢◌, ◌⊎◌, ℕ, ◌^◌, ◌<◌, ◌≤◌, List, Some, false, map, slice_get, IfSome, vec_len};
ghost use Rattle.desk_access.specs.Division.{callers_of, each_of};
ghost use Rattle.forward_core.specs.Exchanged.{HasExchangedAt};
ghost use Rattle.spool_answers.specs.Leave.{LetsKeep};
ghost use Rattle.spool_log.specs.State.{view};
ghost use Rattle.notes.specs.declared.note.Note.TheVariants.{Usage, WrongLength, WriteFault};
ghost use Rattle.bridge_words.specs.Words.{HasRelayPolls, most_workers};
ghost use Rattle.bridge_parts.specs.Counted.{RoseBy, DiskRoseBy, WroteAfter, WritesOfBoth};
ghost use Rattle.bridge_parts.specs.Run.{disk_run, net_run, output_run};
ghost use Rattle.serve_workers.specs.Crews.{IsRoom};
ghost use Rattle.bridge_serve.specs.Answered.{WorkerMayAnswer, first_link, MayAnswer, MayBind, MayDial};
ghost use Rattle.bridge_serve.specs.Doors.{destination_of};
ghost use Rattle.bridge_serve.specs.Noted.{note_of_run, PrintsLast};
ghost use Rattle.bridge_serve.specs.Numbers.{MayTell};
ghost use Rattle.bridge_serve.specs.Opened.{IsOpenedFrom};
ghost use Rattle.bridge_serve.specs.Released.{ForwarderMayRelease, MayRelease};
ghost use Rattle.bridge_serve.specs.Reported.{ForwarderMayReport, MayReport};
ghost use Rattle.bridge_serve.specs.Served.{EndsAt, IsServed, line_after, setup_as};

use crate::binding::{Posts, bind_places};
use crate::counting::Numbers;
use crate::ended::Over;
use crate::noting::run_note;
use crate::running::run_over;
use crate::telling::{Summary, count_talks, print_after};
use bridge_parts::{net_note, outward_of, recover_note};
use bridge_words::{Relay, Server};
use desk_access::Division;
use edge_disk::Disk;
use edge_io::{Door, Net, Sink};
use notes::Note;
use serve_desk::{Served, Unserved};
use serve_forwarder::Destination;
use spool_log::{Opening, Refusal, Spool};
use std::alloc::Global;
use std::snapshot::Snapshot;
use std::sync::Wait;
use std::thread::Threads;

// The place that the words forward to, if they name one, and how a session speaks to its peer there.
fn destination_of(forward: Option<Relay>) -> Option<Destination>
    ensures { result ≡ destination_of forward }
{
    match forward {
        Some(Relay { receiver, place }) => Some(Destination {
            place,
            outward: outward_of(receiver),
        }),
        None => None,
    }
}

// Prints the line of a run that began with these numbers of the spool, and hands on the disk and the doors that came back.
fn finish<D: Disk, P: Door + Drop, K: Sink>(
    alloc: Global,
    opening: Numbers,
    served: Served<P, D>,
    output: &mut K,
) -> Over<D, P>
    requires few { vec_len served.reports ≤ 4096 }
    requires prints { (sink : K) (text : List ℕ) → K.permits sink text }

    ensures disk { result.disk ≡ served.desk.spool.disk }
    ensures doors { result.doors ≡ served.doors }
    ensures writes { WroteAfter (note_of_run served.reports.items served.last) result.note (K.write_faults output.old) (K.write_faults output.new) }
    ensures note { (result.note ≡ note_of_run served.reports.items served.last) ⊎ ((result.note ≡ WriteFault) ⊎ (result.note ≡ Note.NoMemory)) }
    ensures printed { PrintsLast (note_of_run served.reports.items served.last) (line_after opening.end opening.left served) result.note
        (output_run K.taken K.write_faults output.old output.new) }
{
    let Served {
        desk,
        doors,
        reports,
        last,
    } = served;
    let now = Numbers::of(&desk.spool);
    let summary = Summary {
        talks: count_talks(&reports),
        taken: opening.taken(&now),
        confirmed: opening.confirmed(&now),
        left: now.left,
    };
    let note = print_after(alloc, output, run_note(&reports, last), summary);
    Over {
        note,
        disk: desk.spool.into_disk(),
        doors,
    }
}

// Serves at the doors, over the spool that was opened for storing from a disk as it was `before`, and prints the line. Where no memory
// was found before a worker began, the note is `NoMemory`, and the doors come back as they were.
fn serve_posts<D: Disk + Drop + Send, K: Sink, N: Net + Send, R: Threads + Wait + Sync>(
    rt: &R,
    alloc: Global,
    before: Snapshot<D>,
    spool: Spool<D>,
    group: bool,
    division: Division,
    posts: Posts<N::P>,
    talks: u32,
    destination: Option<Destination>,
    monitor: Option<N::M>,
    output: &mut K,
    net: &mut N,
) -> Over<D, N::P>
where
    N::P: Drop + Send,
    <N::P as Door>::L: Send,
    N::L: Send,
    N::M: Drop + Send,
    requires opened { IsOpenedFrom D.tells (D.moment before.value) (view spool.memory spool.doubt (D.moment spool.disk)) }
    requires sure { spool.doubt ≡ false }
    requires few { vec_len posts.posts ≤ callers_of division }
    requires room { IsRoom (vec_len posts.posts) posts.room }
    requires talks { talks ≤ each_of division }
    requires polls { IfSome destination (λ d. 0 < d.outward.polls) }
    requires answers { (i : ℕ) (post : _) → slice_get posts.posts.items i ≡ Some post
        → WorkerMayAnswer D.tells (λ (d : D). D.moment d) before.value (first_link division i post.rules) (N.P.permits post.door) }
    requires dials { IfSome destination (λ d. N.may_dial d.place) }
    requires releases { IfSome destination (λ d. ForwarderMayRelease D.tells (λ (d : D). D.moment d) before.value d.outward
        (HasExchangedAt N.L.same N.L.dialed N.L.given N.L.taken d.place) D.may_release) }
    requires reports { IfSome destination (λ d. ForwarderMayReport D.tells (λ (d : D). D.moment d) before.value d.outward
        (HasExchangedAt N.L.same N.L.dialed N.L.given N.L.taken d.place) (N.may_report d.place)) }
    requires tells { MayTell D.tells (λ (d : D). D.moment d) before.value N.M.may_tell }
    requires prints { (sink : K) (text : List ℕ) → K.permits sink text }

    ensures known { (result.note ≢ Usage) × ((have want : ℕ) → result.note ≢ WrongLength have want) }
    ensures calls { DiskRoseBy (result.note ≡ Note.DiskFault) (D.moment before.value) (D.moment result.disk) }
    ensures reads { RoseBy (result.note ≡ Note.ReadFault) (N.told net.old).read_faults (N.told net.new).read_faults }
    ensures writes { WritesOfBoth result.note (K.write_faults output.old) (K.write_faults output.new) (N.told net.old).write_faults
        (N.told net.new).write_faults }
    ensures dials { (N.told net.old).net_faults ≤ (N.told net.new).net_faults }
    ensures ran { EndsAt (D.Disk, K.Sink.own, N.told, N.P.told) (setup_as group division) (talks, destination, posts.posts.items)
        (before.value, output.old, net.old) (output.new, net.new) result }
{
    let opening = Numbers::of(&spool);
    let Posts { posts, room } = posts;
    match run_over(
        rt,
        alloc,
        before,
        spool,
        group,
        division,
        posts,
        talks,
        destination.as_ref(),
        net,
        monitor,
    ) {
        Ok(served) => finish(alloc, opening, served, output),
        Err(Unserved { desk, posts }) => Over {
            note: Note::NoMemory,
            disk: desk.spool.into_disk(),
            doors: Posts { posts, room }.into_doors(),
        },
    }
}

/// Serves many senders at once, over the spool that the device holds, of which the run is raised by one first: at each place of the
/// words as many workers as they say, each at a door of its own, and a forwarder beside them where there is a place to forward to.
/// Once the workers have ended, what is left is forwarded once more, and one line reports how many connections were served, and how
/// many entries were stored, confirmed and left.
///
/// The note is that of the first of these that failed:
///
/// - the opening of the device, and then no door is bound and nothing is dialed;
/// - the binding of a door (`NetFault`), or want of memory for it or for the desk that the workers share: no worker began, nothing is
///   printed, and the doors that were bound come back, with no link accepted;
/// - a worker that found no memory (`NoMemory`), or an accept (`NetFault`);
/// - the last look at what is left: its read of the desk, its dial (`NetFault`) or its session;
/// - the line, for which no memory was found (`NoMemory`), or a write of it (`WriteFault`).
///
/// Where no memory was found in the run no line is printed. How a single connection ended doesn't change the note.
///
/// Nothing is written to a sender but what its place permits, and by `answers` that may be as little as this: a text may be written to
/// one who has sent these bytes once all that the text acknowledges of them is durable. So the caller knows at each write, and not at
/// the end alone, that nothing is acknowledged before it is durable. Doors are bound at the places of the words alone, and the place
/// to forward to alone is dialed.
///
/// No number becomes known as confirmed but by leave of the disk's type, and by `releases` that may be as little as this: a number may
/// become known once the peer at the place to forward to has received its entry, that is has acknowledged it (`IsReceived`). So it is
/// at each moment, too, and where the words name no such place no number becomes known at all.
///
/// What is reported as holding the forwarding up is, by `reports`, the entry that the session just held had offered alone and that was not
/// acknowledged then, and the code with which the peer refused it, where it did (`IsHeldUp`).
///
/// Those who ask for numbers are told no others than the spool's, by `tells`, after a journal of calls that led to then (`MayTell`). That
/// they are read after the question, and how many events were stored by each protocol, no clause says.
pub fn serve<D: Disk + Drop + Send, K: Sink, N: Net + Send, R: Threads + Wait + Sync>(
    rt: &R,
    alloc: Global,
    server: Server,
    disk: D,
    output: &mut K,
    net: &mut N,
) -> Over<D, N::P>
where
    N::P: Drop + Send,
    <N::P as Door>::L: Send,
    N::L: Send,
    N::M: Drop + Send,
    requires workers { server.workers ≤ most_workers server.division }
    requires talks { server.talks ≤ each_of server.division }
    requires polls { HasRelayPolls server.forward }
    requires answers { MayAnswer D.tells (λ (d : D). D.moment d) disk server N.permits }
    requires binds { MayBind server N.may_bind }
    requires dials { MayDial server N.may_dial }
    requires releases { MayRelease D.tells (λ (d : D). D.moment d) disk server
        (HasExchangedAt N.L.same N.L.dialed N.L.given N.L.taken) D.may_release }
    requires reports { MayReport D.tells (λ (d : D). D.moment d) disk server
        (HasExchangedAt N.L.same N.L.dialed N.L.given N.L.taken) N.may_report }
    requires tears { LetsKeep D.tells D.moment D.may_tear D.may_release }
    requires tells { MayTell D.tells (λ (d : D). D.moment d) disk N.M.may_tell }
    requires prints { (sink : K) (text : List ℕ) → K.permits sink text }

    ensures known { (result.note ≢ Usage) × ((have want : ℕ) → result.note ≢ WrongLength have want) }
    ensures calls { DiskRoseBy (result.note ≡ Note.DiskFault) (D.moment disk) (D.moment result.disk) }
    ensures reads { RoseBy (result.note ≡ Note.ReadFault) (N.told net.old).read_faults (N.told net.new).read_faults }
    ensures writes { WritesOfBoth result.note (K.write_faults output.old) (K.write_faults output.new) (N.told net.old).write_faults
        (N.told net.new).write_faults }
    ensures dials { (N.told net.old).net_faults ≤ (N.told net.new).net_faults }
    ensures served { IsServed server (disk_run D.tells D.moment disk result.disk) (output_run K.taken K.write_faults output.old output.new)
        (net_run N.told net.old net.new) (map N.P.told result.doors.items) result.note }
{
    let before = Snapshot::of(&disk);
    let spool = match Spool::recover(alloc, disk, Opening::Raise) {
        Ok(spool) => spool,
        Err(Refusal { fault, disk }) => return Over::unserved(alloc, recover_note(fault), disk),
    };
    let Ok(mut posts) = Posts::reserve(alloc, server.workers) else {
        return Over::unserved(alloc, Note::NoMemory, spool.into_disk());
    };
    match bind_places(&server, net, &mut posts.posts) {
        Ok(monitor) => serve_posts(
            rt,
            alloc,
            before,
            spool,
            server.group,
            server.division,
            posts,
            server.talks,
            destination_of(server.forward),
            monitor,
            output,
            net,
        ),
        Err(fault) => Over {
            note: net_note(fault),
            disk: spool.into_disk(),
            doors: posts.into_doors(),
        },
    }
}

//! A connection over TCP.
ghost use Rattle.std.specs.Prelude.{◌≡◌, ◌<◌, ◌≤◌, length, IfOk};
ghost use Rattle.edge_net.specs.declared.heading.Due.TheVariants as Due;

use crate::budget::{Part, part_of};
use crate::closing::close_after_peer;
use crate::heading::{Due, Headed, Unheaded, due_of, read_head};
use crate::patience::{read_patiently, turn_of, turns_of, write_on};
use crate::trouble::{Way, is_reset};
use crate::watch::{Peer, Watch};
use crate::{LinkSettings, Reports, Waits};
use edge_io::{Link, Object, Proto, ReadFault, Sink, Source, WriteFault};
use event_form::Talk;
use libc::net::{POLLIN, poll};
use libc::types::pollfd;
use std::io::{self, ErrorKind};
use std::net::TcpStream;
use std::os::fd::AsRawFd;
use std::rt::Clock;
use std::time::Duration;

// How long a peer sends nothing that is said to be silent, in milliseconds.
const SILENT_MILLIS: i32 = 1_000;

/// A connection over TCP, that was dialed or accepted. It counts its errors and tells no bytes; standard error says what befell it
/// ([`Reports`]). The link may be read and written by another thread than the one that made it.
#[derive(Drop)]
pub struct TcpLink<'a, R> {
    place: Option<String>,
    stream: TcpStream,
    watch: Watch<'a, R>,
    rt: &'a R,
    reports: &'a Reports,
    // What memory it takes beside that which each connection takes that was accepted.
    part: Part,
    // How long a read or a write waits for the peer.
    wait: Duration,
    // What is due of a proxy before the first byte.
    due: Due,
    // The receiver has broken the connection off while it was written to. What it sent before can still be read.
    is_gone: bool,
    read_errors: u64,
    write_errors: u64,
}

impl<'a, R> TcpLink<'a, R> {
    ghost use Rattle.std.specs.Prelude.{Some, None};
    ghost use Rattle.std.specs.Option.{option_map};
    ghost use Rattle.std.specs.String.{string_bytes};
    ghost use Rattle.std.specs.Net.Socket.{socket_ip};
    ghost use Rattle.edge_net.specs.Heading.{IsDue};
    ghost use Rattle.edge_net.specs.TcpLink.{place_of, read_errors_of, write_errors_of, IsUnfailed};

    // A link over the stream, of which a read or a write waits for its peer for as long as `wait` at most. An answer isn't held
    // back until more is written; where the system doesn't grant that, the link is slower and else the same. The system grants a
    // wait above 0 to any socket.
    fn over(
        rt: &'a R,
        reports: &'a Reports,
        stream: TcpStream,
        place: Option<String>,
        wait: Duration,
        watch: Watch<'a, R>,
    ) -> TcpLink<'a, R>
        ensures unfailed { IsUnfailed result }
        ensures place { place_of result ≡ option_map string_bytes place }
        ensures due { result.due ≡ Due.Nothing }
    {
        let _ = stream.set_nodelay(true);
        let _ = stream.set_read_timeout(Some(wait));
        let _ = stream.set_write_timeout(Some(wait));
        TcpLink {
            place,
            stream,
            watch,
            rt,
            reports,
            part: Part::Nothing,
            wait,
            due: Due::Nothing,
            is_gone: false,
            read_errors: 0,
            write_errors: 0,
        }
    }

    /// The link of a connection that was accepted from this peer. Where proxies are named, the peer has to be one of them and to send the
    /// head of the PROXY protocol first; then the sender is the peer that it tells.
    pub(crate) fn accepted(
        rt: &'a R,
        reports: &'a Reports,
        stream: TcpStream,
        peer: Peer,
        waits: Waits,
    ) -> TcpLink<'a, R>
        ensures unfailed { IsUnfailed result }
        ensures place { place_of result ≡ None }
        ensures due { IsDue reports.now.proxies (socket_ip peer.address) result.due }
    {
        let watch = Watch::of(rt, reports, Some(peer), waits.accepted);
        let link = TcpLink::over(rt, reports, stream, None, waits.accepted, watch);
        let due = due_of(&reports.proxies(), peer.address.ip());
        TcpLink { due, ..link }
    }

    /// The link of a connection that was dialed at that place.
    pub(crate) fn dialed(
        rt: &'a R,
        reports: &'a Reports,
        stream: TcpStream,
        place: String,
        waits: Waits,
    ) -> TcpLink<'a, R>
        ensures unfailed { IsUnfailed result }
        ensures place { place_of result ≡ Some (string_bytes place) }
        ensures due { result.due ≡ Due.Nothing }
    {
        let watch = Watch::of(rt, reports, None, waits.dialed);
        TcpLink::over(rt, reports, stream, Some(place), waits.dialed, watch)
    }

    /// What the system has set for the link's socket. The error is the system's.
    pub fn settings(&self) -> io::Result<LinkSettings> {
        Ok(LinkSettings {
            is_prompt: self.stream.nodelay()?,
            read_wait: self.stream.read_timeout()?,
            write_wait: self.stream.write_timeout()?,
        })
    }

    /// How many reads have failed.
    pub(crate) fn read_errors(&self) -> u64
        ensures { result ≡ read_errors_of self.now }
    {
        self.read_errors
    }

    /// How many writes have failed.
    pub(crate) fn write_errors(&self) -> u64
        ensures { result ≡ write_errors_of self.now }
    {
        self.write_errors
    }
}

impl<R> TcpLink<'_, R> {
    // Notes that a read waited that many turns, where they are none of as long as the link waits.
    fn note_turns(&mut self, waited: u64)
        ensures errors { (self.new.read_errors ≡ self.old.read_errors) × (self.new.write_errors ≡ self.old.write_errors) }
        ensures place { self.new.place ≡ self.old.place }
    {
        if let Part::Many(_) = self.part {
            let seconds = turn_of(self.part, self.wait)
                .as_secs()
                .saturating_mul(waited);
            self.watch.waited(Duration::from_secs(seconds));
        }
    }

    // Has the system wait for the peer as long as one turn takes. Where it doesn't grant that, a call waits as long as before.
    fn wait_in_turns(&self) {
        let _ = self
            .stream
            .set_read_timeout(Some(turn_of(self.part, self.wait)));
    }
}

impl<R: Clock + Eprint> TcpLink<'_, R> {
    /// Says how the connection ended, where that isn't well: it was served to its end by this protocol and ended so, which this exit
    /// status stands for. Then gives its memory back, and closes it so that its peer gets what was written last. What the peer still sends
    /// meanwhile is dropped, and counts as unread.
    pub(crate) fn close_served(self, rt: &R, proto: Proto, status: u8, talk: Talk) {
        self.watch.ended(proto, status, talk);
        self.reports.budget().dismiss(self.part);
        close_after_peer(rt, self.stream)
    }

    /// Says that the receiver is well again, where it was not and the connection shows that.
    pub(crate) fn say_hung_up(&self) {
        if let Some(place) = &self.place {
            self.watch.hung_up(place.as_str());
        }
    }
}

// The text of a place, where there is one.
fn text_of(place: &Option<String>) -> Option<&str> {
    match place {
        Some(place) => Some(place.as_str()),
        None => None,
    }
}

impl<R> Object for TcpLink<'_, R> {
    ghost same = { λ _ _. Unit {0} };

    ghost same_refl = { λ _. tt };

    ghost same_trans = { λ _ _ _ _ _. tt };
}

impl<R: Clock + Eprint> TcpLink<'_, R> {
    ghost use Rattle.edge_net.specs.Heading.{IsPassed, IsTaken, IsSentBy, source_of};
    ghost use Rattle.edge_net.specs.TcpLink.{IsUnharmed};

    // A read of the stream, before which the head comes that is due of a proxy. It gives how often it waited with what came of it. It gives
    // bytes only once nothing is due.
    fn read_next(&mut self, buf: &mut [u8]) -> (u64, io::Result<usize>)
        ensures bound { IfOk result.1 (λ n. n ≤ length buf.new) }
        ensures len { length buf.new ≡ length buf.old }
        ensures head { IfOk result.1 (λ n. 0 < n → self.new.due ≡ Due.Nothing) }
        ensures kept { IsUnharmed self.old self.new }
    {
        match self.pass_head() {
            Ok(true) => {
                let times = turns_of(self.part, self.wait);
                read_patiently(&mut self.stream, self.reports.budget(), times, buf)
            }
            Ok(false) => (1, Ok(0)),
            Err(error) => (1, Err(error)),
        }
    }

    // Reads the head of a proxy where one is due, and says whether the connection goes on. Where none comes whole, the connection is never
    // read again.
    fn pass_head(&mut self) -> io::Result<bool>
        ensures passed { IsPassed self.old.due self.new.due result }
        ensures kept { IsUnharmed self.old self.new }
    {
        match self.due {
            Due::Nothing => Ok(true),
            Due::Head => {
                self.due = Due::Ended;
                let headed = read_head(self.rt, &mut self.stream, self.wait)?;
                self.take_head(headed)
            }
            Due::Refused => self.take_head(Headed::Not(Unheaded::Stranger)),
            Due::Ended => Err(io::Error::from(ErrorKind::InvalidData)),
        }
    }

    // Takes what came where a head was due. That none came is said.
    fn take_head(&mut self, headed: Headed) -> io::Result<bool>
        ensures taken { IsTaken headed self.old.due self.new.due result }
        ensures sender { IsSentBy (source_of headed) self.old.watch.peer self.new.watch.peer }
        ensures kept { IsUnharmed self.old self.new }
    {
        match headed {
            Headed::Whole(source) => {
                self.due = Due::Nothing;
                self.watch.is_sent_by(source);
                Ok(true)
            }
            Headed::Empty => {
                self.due = Due::Head;
                Ok(false)
            }
            Headed::Not(why) => {
                self.watch.is_unheaded(why);
                Err(io::Error::from(ErrorKind::InvalidData))
            }
        }
    }

    // Notes what a read gave that asked for some bytes, once nothing is due.
    fn note_bytes(&mut self, bytes: &[u8])
        requires { self.old.due ≡ Due.Nothing }
        ensures { IsUnharmed self.old self.new }
    {
        self.watch.saw_read(text_of(&self.place), bytes)
    }
}

impl<R: Clock + Eprint> Source for TcpLink<'_, R> {
    ghost use Rattle.std.specs.Prelude.{None};
    ghost use Rattle.edge_net.specs.TcpLink.{place_of, read_errors_of, write_errors_of};

    ghost given = { λ _. None };

    ghost left = { λ _. None };

    ghost read_faults = { λ link. read_errors_of link };

    ghost read_apart = { λ x y. (write_errors_of y ≡ write_errors_of x) × (place_of y ≡ place_of x) };

    ghost read_apart_refl = { λ _. (Prim.cc, Prim.cc) };

    ghost read_apart_trans = { λ x y z p q. (Prim.cc, Prim.cc) };

    /// A read of the socket, which waits for the peer for as long as the link's bound. The end of input is the peer's: it has shut
    /// its side. A call that a signal interrupts is made again, up to 1,000 times. Each other error is a fault, and so is a wait in
    /// vain. It waits for ten seconds at most where the connection takes more memory than a short read needs, and another one waits for some.
    fn read(&mut self, buf: &mut [u8]) -> Result<usize, ReadFault> {
        let (waited, outcome) = self.read_next(buf);
        match outcome {
            Ok(n) => {
                if !buf.is_empty() && self.due == Due::Nothing {
                    self.note_bytes(&buf[..n]);
                }
                Ok(n)
            }
            Err(error) => {
                self.read_errors = self.read_errors.saturating_add(1);
                self.note_turns(waited);
                self.watch.saw_error(text_of(&self.place), &error, Way::In);
                Err(ReadFault)
            }
        }
    }
}

impl<R: Clock + Eprint> Sink for TcpLink<'_, R> {
    ghost use Rattle.std.specs.Prelude.{None, refl};
    ghost use Rattle.edge_net.specs.TcpLink.{place_of, read_errors_of, write_errors_of};

    ghost taken = { λ _. None };

    ghost permits = { λ _ _. Unit {0} };

    ghost write_faults = { λ link. write_errors_of link };

    ghost write_apart = { λ x y. (read_errors_of y ≡ read_errors_of x) × (place_of y ≡ place_of x) };

    ghost permits_last = { λ _ _ _. (λ _ _. tt, λ _. refl) };

    ghost apart_refl = { λ _. (Prim.cc, Prim.cc) };

    ghost apart_trans = { λ x y z p q. (Prim.cc, Prim.cc) };

    /// A write to the socket, which waits for a peer that doesn't read for as long as the link's bound. A call that a signal
    /// interrupts is made again, up to 1,000 times. Each other error is a fault, and so are a wait in vain and 0 bytes for a piece
    /// that isn't empty.
    ///
    /// A receiver may break the connection off after it has acknowledged some of what it got. So where the link was dialed such an error is
    /// no fault of the write: the piece is taken and goes nowhere, as one that the system has taken and not sent yet, and so are those after
    /// it. Reads then give what the receiver sent before, and end as the connection did.
    fn write(&mut self, piece: &[u8]) -> Result<usize, WriteFault> {
        if self.is_gone {
            return Ok(piece.len());
        }
        match write_on(&mut self.stream, piece) {
            Ok(n) if n > 0 || piece.is_empty() => {
                self.watch.saw_write(piece, n);
                Ok(n)
            }
            Err(error) if self.place.is_some() && is_reset(error.kind()) => {
                self.is_gone = true;
                Ok(piece.len())
            }
            outcome => {
                self.write_errors = self.write_errors.saturating_add(1);
                if let Err(error) = outcome {
                    self.watch.saw_error(text_of(&self.place), &error, Way::Out);
                }
                Err(WriteFault)
            }
        }
    }
}

impl<R: Clock + Eprint> Link for TcpLink<'_, R> {
    ghost use Rattle.edge_net.specs.TcpLink.{place_of};

    ghost dialed = { λ link. place_of link };

    /// Takes the memory of the budget that all share, where the link was accepted, and waits until there is room for it.
    fn claim(&mut self, bytes: u64) {
        if self.place.is_some() {
            return;
        }
        let part = part_of(bytes);
        if part != self.part {
            let (rt, reports) = (self.rt, self.reports);
            reports
                .budget()
                .exchange(rt, self.part, part, reports.is_quiet());
            let before = turn_of(self.part, self.wait);
            self.part = part;
            if turn_of(self.part, self.wait) != before {
                self.wait_in_turns();
            }
        }
    }

    /// Waits for the peer for a second, and leaves what comes, and how the connection ends, for the next read.
    fn is_silent(&self) -> bool {
        let mut waits = [pollfd {
            fd: self.stream.as_raw_fd(),
            events: POLLIN,
            revents: 0,
        }];
        poll(&mut waits, SILENT_MILLIS) == 0
    }

    ghost reads_keep = { λ x y same. (Prim.cc, same.0, same.1) };

    ghost writes_keep = { λ x y same. (Prim.cc, Prim.cc, same.0, same.1) };
}

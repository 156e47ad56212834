//! A door over TCP.
ghost use Rattle.std.specs.Prelude.{◌≡◌};

use crate::accepting::next_connection;
use crate::roll::{Place, Roll};
use crate::watch::Peer;
use crate::{Reports, TcpLink, Waits};
use edge_io::{AcceptFault, Door, Proto};
use event_form::Talk;
use std::alloc::AllocError;
use std::io;
use std::net::{SocketAddr, TcpListener, TcpStream};
use std::rt::Clock;
use std::sync::Arc;

/// What the doors of one place share.
#[derive(Drop)]
pub(crate) struct Shared<'a, R> {
    /// The clock and standard error.
    pub(crate) rt: &'a R,
    /// What is said there.
    pub(crate) reports: &'a Reports,
    /// How long they and their links wait.
    pub(crate) waits: Waits,
    /// The socket that listens, from which each door accepts the connections that the others don't.
    pub(crate) listener: Arc<TcpListener>,
    /// The place itself.
    pub(crate) place: Arc<Place>,
    /// All places of the net.
    pub(crate) roll: Arc<Roll>,
}

impl<'a, R> Shared<'a, R> {
    /// The same for another door.
    pub(crate) fn try_clone(&self) -> Result<Shared<'a, R>, AllocError> {
        Ok(Shared {
            rt: self.rt,
            reports: self.reports,
            waits: self.waits,
            listener: Arc::try_clone(&self.listener)?,
            place: Arc::try_clone(&self.place)?,
            roll: Arc::try_clone(&self.roll)?,
        })
    }
}

impl<R: Clock + Eprint> Shared<'_, R> {
    // Notes that a door begins, and waits until all have, for as long as the first accept of a door may.
    fn begin(&self) {
        self.place.begin();
        self.roll.wait_for_all(self.rt, self.waits.roll);
    }

    // The next connection of the socket, and its peer, which counts as one of the place. The error is one that lasts.
    fn next_stream(&self) -> io::Result<(TcpStream, SocketAddr)> {
        let place = self.place.name.as_str();
        let listener: &TcpListener = &self.listener;
        let accepted = next_connection(self.rt, listener, place, &self.place.reported)?;
        self.place.connections.begin();
        self.place.report_busy(self.rt);
        Ok(accepted)
    }
}

/// A door of a socket that listens. It tells its place, counts its errors, and tells nothing of its links. It is never shut
/// for good: an accept waits for the next connection.
#[derive(Drop)]
pub struct TcpDoor<'a, R> {
    place: String,
    shared: Shared<'a, R>,
    has_begun: bool,
    accept_errors: u64,
    read_errors: u64,
    write_errors: u64,
}

impl<'a, R> TcpDoor<'a, R> {
    ghost use Rattle.std.specs.String.{string_bytes};
    ghost use Rattle.edge_io.specs.Door.{IsNewDoor};
    ghost use Rattle.edge_net.specs.TcpDoor.{state_of};

    /// A door of the socket that was bound at that place.
    pub(crate) fn at(place: String, shared: Shared<'a, R>) -> TcpDoor<'a, R>
        ensures { IsNewDoor (string_bytes place) (state_of result) }
    {
        TcpDoor {
            place,
            shared,
            has_begun: false,
            accept_errors: 0,
            read_errors: 0,
            write_errors: 0,
        }
    }
}

impl<'a, R: Clock + Eprint> Door for TcpDoor<'a, R> {
    ghost use Rattle.edge_net.specs.TcpDoor.{state_of};

    type L = TcpLink<'a, R>;

    ghost told = { λ door. state_of door };

    ghost permits = { λ _ _ _ _. Unit {0} };

    /// Accepts the next connection. An error that passes is waited out and counts nothing, whether it is the connection's own, as
    /// where its peer went before it was accepted, or want of descriptors or memory; standard error says so, once a minute at
    /// most for a place. An error that lasts is a fault: the socket can't accept.
    ///
    /// What was accepted is given once there is room for the memory that each connection takes.
    ///
    /// The first accept waits until all doors of the net have begun, for three seconds at most, and then reports the places
    /// of those that have not: the system refused them a thread.
    #[inline(never)]
    fn accept(&mut self, conn: u64) -> Result<Option<TcpLink<'a, R>>, AcceptFault> {
        if !self.has_begun {
            self.has_begun = true;
            self.shared.begin();
        }
        match self.shared.next_stream() {
            Ok((stream, peer)) => {
                let (rt, reports) = (self.shared.rt, self.shared.reports);
                let waits = self.shared.waits;
                reports.budget().admit(rt, reports.is_quiet());
                let peer = Peer {
                    address: peer,
                    conn,
                };
                Ok(Some(TcpLink::accepted(rt, reports, stream, peer, waits)))
            }
            Err(_) => {
                self.accept_errors = self.accept_errors.saturating_add(1);
                Err(AcceptFault)
            }
        }
    }

    /// Counts the connection's errors, says on standard error how it ended where that isn't well, and closes it so that its peer gets
    /// what was written last. For that it waits until the
    /// peer closes it too: little more than a second where that one is silent, and two seconds at most where it goes on sending.
    /// It takes no memory.
    #[inline(never)]
    fn give_back(
        &mut self,
        link: TcpLink<'a, R>,
        proto: Proto,
        _: u64,
        status: u8,
        talk: Talk,
    ) -> Result<(), AllocError> {
        self.read_errors = self.read_errors.saturating_add(link.read_errors());
        self.write_errors = self.write_errors.saturating_add(link.write_errors());
        self.shared.place.connections.end(proto, status, talk);
        link.close_served(self.shared.rt, proto, status, talk);
        Ok(())
    }
}

//! What is seen of a connection, for the lines about it.
ghost use Rattle.std.specs.Prelude.{◌≡◌, IsTrue, IsSome};
ghost use Rattle.edge_net.specs.Heading.{IsSentBy};

use crate::answer::{closes, reason_in};
use crate::authorized::Authorized;
use crate::ending::explains;
use crate::heading::Unheaded;
use crate::trouble::Way;
use crate::{Answer, Illness, Matter, Reports, Trouble};
use edge_io::Proto;
use event_form::Talk;
use proxy_head::Source;
use std::io;
use std::net::SocketAddr;
use std::rt::Clock;
use std::time::Duration;

/// The peer of a connection that was accepted.
#[derive(Clone, Copy)]
pub(crate) struct Peer {
    /// Its address.
    pub(crate) address: SocketAddr,
    /// The connection's number.
    pub(crate) conn: u64,
}

// A refusal of a request, with its code and the number of its reason, where it has one.
#[derive(Clone, Copy)]
struct Refused {
    code: u16,
    reason: Option<u16>,
    // The line of a file in which the request's token stands.
    line: Option<usize>,
}

// What says something of a connection is kept out of line: a thread that waits in a read would else hold on its stack what it takes to
// write a line.
/// What is seen of a connection, and where it is said. It changes nothing of the connection.
#[derive(Drop)]
pub(crate) struct Watch<'a, R> {
    rt: &'a R,
    reports: &'a Reports,
    // The peer, where the connection was accepted.
    peer: Option<Peer>,
    // How long a call waits for the peer.
    wait: Duration,
    has_read: bool,
    // Which token the requests have that came.
    authorized: Authorized,
    // A reply of HTTP came that refuses nothing.
    has_reply: bool,
    // A line was asked for about it, or its end is no news after what was seen.
    is_said: bool,
    // The refusal that ends it, of which nothing was said yet.
    last: Option<Refused>,
    // What a call met last that failed.
    trouble: Option<Trouble>,
}

impl<'a, R> Watch<'a, R> {
    /// Nothing was seen yet of a connection that was accepted from this peer, or was dialed where there is none.
    pub(crate) fn of(
        rt: &'a R,
        reports: &'a Reports,
        peer: Option<Peer>,
        wait: Duration,
    ) -> Watch<'a, R> {
        Watch {
            rt,
            reports,
            peer,
            wait,
            has_read: false,
            authorized: Authorized::new(),
            has_reply: false,
            is_said: false,
            last: None,
            trouble: None,
        }
    }

    /// A call waited for the peer for so long, in place of as long as any may.
    pub(crate) fn waited(&mut self, wait: Duration) {
        self.wait = self.wait.min(wait);
    }
}

impl<R> Watch<'_, R> {
    /// The head of a proxy told the sender, if it did: that is the peer from now on.
    pub(crate) fn is_sent_by(&mut self, source: Option<Source>)
        ensures { IsSentBy source self.old.peer self.new.peer }
    {
        if let (Some(Source { ip, port }), Some(Peer { conn, .. })) = (source, self.peer) {
            let address = SocketAddr::new(ip, port);
            self.peer = Some(Peer { address, conn });
        }
    }
}

impl<R: Clock + Eprint> Watch<'_, R> {
    /// The connection is ended since it has no head of a proxy. That is said once.
    #[inline(never)]
    pub(crate) fn is_unheaded(&mut self, why: Unheaded)
        ensures peer { self.new.peer ≡ self.old.peer }
        ensures said { IsSome self.old.peer → IsTrue self.new.is_said }
    {
        let Some(peer) = self.peer else {
            return;
        };
        if !self.is_said {
            self.is_said = true;
            let matter = Matter::Unheaded { why };
            self.reports.sender(self.rt, peer.address, matter);
        }
    }

    // Says that the receiver fails, once for a connection.
    fn fails(&mut self, place: &str, illness: Illness) {
        if !self.is_said {
            self.is_said = true;
            self.reports.receiver_fails(self.rt, place, illness);
        }
    }

    // What it is that the receiver ended the connection.
    fn closing(&self) -> Illness {
        if self.has_reply {
            Illness::ClosedAfterReply
        } else {
            Illness::Closed
        }
    }

    // Bytes came. Of the first ones of a connection that was accepted it is said which number it has, where that is asked for.
    #[inline(never)]
    fn note_read(&mut self) {
        if self.has_read {
            return;
        }
        self.has_read = true;
        if let Some(Peer { address, conn }) = self.peer {
            self.reports.begins_to_send(self.rt, address, conn);
        }
    }

    /// A read that asked for some bytes gave these. Where the connection was dialed, `place` is where.
    #[inline(never)]
    pub(crate) fn saw_read(&mut self, place: Option<&str>, bytes: &[u8]) {
        if !bytes.is_empty() {
            self.note_read();
        }
        let Some(place) = place else {
            if self.reports.has_tokens() && !bytes.is_empty() {
                self.authorized = self.authorized.after(bytes);
            }
            return self.reports.counts().received.add_many(bytes.len() as u64);
        };
        if bytes.is_empty() {
            let illness = self.closing();
            return self.fails(place, illness);
        }
        let Some(answer) = Answer::at(bytes) else {
            return;
        };
        match answer.refusal() {
            Some(code) => {
                if !self.is_said {
                    self.reports.counts().receiver_refusals.add();
                }
                self.fails(place, Illness::Refuses { code });
            }
            None => self.has_reply = matches!(answer, Answer::Reply { .. }),
        }
    }

    /// A write took so many bytes of this piece. A refusal after which the connection ends is said with its end.
    #[inline(never)]
    pub(crate) fn saw_write(&mut self, piece: &[u8], taken: usize) {
        let Some(peer) = self.peer else {
            return self.reports.counts().sent.add_many(taken as u64);
        };
        let Some(answer) = Answer::at(piece) else {
            return;
        };
        let Some(code) = answer.refusal() else {
            return;
        };
        self.is_said = true;
        self.reports.counts().refusals.add(answer);
        let matter = match answer {
            Answer::Reply { .. } => {
                let reason = reason_in(piece);
                let line = self.reports.line_of(self.authorized.refused(reason));
                if closes(piece) {
                    self.last = Some(Refused { code, reason, line });
                    return;
                }
                Matter::RequestRefused {
                    code,
                    reason,
                    line,
                    end: None,
                }
            }
            Answer::Frame { .. } => Matter::FrameRefused { code },
        };
        self.reports.sender(self.rt, peer.address, matter);
    }

    /// A read or a write failed by this error.
    #[inline(never)]
    pub(crate) fn saw_error(&mut self, place: Option<&str>, error: &io::Error, way: Way) {
        let trouble = Trouble::of(error, way, self.wait);
        self.trouble = Some(trouble);
        let Some(place) = place else {
            return;
        };
        if trouble == Trouble::Reset && self.has_reply {
            return self.fails(place, Illness::ClosedAfterReply);
        }
        self.fails(place, Illness::Lost { trouble });
    }

    /// A connection that was accepted was served to its end by this protocol, and ended so, which this exit status stands for. What it was
    /// refused at last is said now, with how it ended where that is why.
    #[inline(never)]
    pub(crate) fn ended(&self, proto: Proto, status: u8, talk: Talk) {
        let Some(peer) = self.peer else {
            return;
        };
        let is_unused = !self.has_read && self.trouble == Some(Trouble::Reset);
        let matter = match self.last {
            Some(Refused { code, reason, line }) => Matter::RequestRefused {
                code,
                reason,
                line,
                end: if explains(talk) { Some(talk) } else { None },
            },
            None if status == 0 || self.is_said || is_unused => return,
            None => Matter::Ended {
                proto,
                status,
                talk,
                trouble: self.trouble,
            },
        };
        self.reports.sender(self.rt, peer.address, matter);
    }

    /// A connection that was dialed at this place was hung up.
    pub(crate) fn hung_up(&self, place: &str) {
        if self.has_read && !self.is_said {
            self.reports.receiver_is_well(self.rt, place);
        }
    }
}

//! What is said of a sender: which one it is, and what befell its connection.
use crate::Trouble;
use crate::ending::{Ending, kind_of};
use crate::heading::Unheaded;
use crate::reason::Reason;
use edge_io::Proto;
use event_form::Talk;
use proxy_head::HeadFault;
use std::fmt;
use std::net::IpAddr;

/// What befell a connection that was accepted.
#[derive(Clone, Copy, PartialEq, Eq)]
pub enum Matter {
    /// A request of HTTP was answered with this status, which says that it was refused, and with the number of a reason, where the answer
    /// has one. Where the line is known in which its token stands, that is there, and where the connection ended by it, how.
    RequestRefused {
        code: u16,
        reason: Option<u16>,
        line: Option<usize>,
        end: Option<Talk>,
    },
    /// A frame of RELP was answered with this code, which says that it was refused.
    FrameRefused {
        code: u16,
    },
    /// It was ended before its first byte, since senders come through proxies and this came through none, or since the proxy sent no head.
    Unheaded {
        why: Unheaded,
    },
    /// It ended otherwise than well: by which protocol it spoke, the exit status that stands for its ending, the ending, and what went
    /// wrong in a call of the system, if one failed.
    Ended {
        proto: Proto,
        status: u8,
        talk: Talk,
        trouble: Option<Trouble>,
    },
}

impl Matter {
    /// The same without the offset and the numbers of an ending, which are another connection's each time.
    pub fn kind(self) -> Matter {
        match self {
            Matter::RequestRefused {
                code,
                reason,
                line,
                end: Some(talk),
            } => Matter::RequestRefused {
                code,
                reason,
                line,
                end: Some(kind_of(talk)),
            },
            Matter::Ended {
                proto,
                status,
                talk,
                trouble,
            } => Matter::Ended {
                proto,
                status,
                talk: kind_of(talk),
                trouble,
            },
            Matter::Unheaded {
                why: Unheaded::Wrong(HeadFault { why, .. }),
            } => Matter::Unheaded {
                why: Unheaded::Wrong(HeadFault { at: 0, why }),
            },
            other => other,
        }
    }
}

/// What a line about a sender is about. Two lines with the same topic say the same of the same peer.
#[derive(Clone, Copy, PartialEq, Eq)]
pub struct Topic {
    /// The peer's address. Its port isn't among it, since each connection comes from another one.
    pub peer: IpAddr,
    /// What befell its connection, of which [`Matter::kind`] counts.
    pub matter: Matter,
}

/// The protocol's name.
pub(crate) fn name_of(proto: Proto) -> &'static str {
    match proto {
        Proto::Relp => "RELP",
        Proto::Lumberjack => "Lumberjack",
        Proto::Hec => "HEC",
    }
}

/// Words that follow the peer's address, as `a request was refused with 401, code 2: it has no token`.
impl fmt::Display for Matter {
    fn fmt<W: fmt::Write>(&self, f: &mut fmt::Formatter<W>) -> fmt::Result {
        match *self {
            Matter::RequestRefused {
                code,
                reason: Some(number),
                end,
                ..
            } => {
                let reason = Reason { number, end };
                write!(
                    f,
                    "a request was refused with {code}, code {number}: {reason}"
                )
            }
            Matter::RequestRefused { code, .. } => {
                write!(f, "a request was refused with {code}")
            }
            Matter::FrameRefused { code } => write!(f, "a frame was refused with {code}"),
            Matter::Unheaded {
                why: Unheaded::Stranger,
            } => write!(
                f,
                "its connection was ended: it isn't one of the proxies that --accept-proxy names"
            ),
            Matter::Unheaded { why: Unheaded::Cut } => write!(
                f,
                "its connection was ended: it ended within the head that a proxy sends first"
            ),
            Matter::Unheaded {
                why: Unheaded::Wrong(fault),
            } => write!(
                f,
                "its connection was ended: it doesn't begin with the head that a proxy sends first: {fault}"
            ),
            Matter::Ended {
                proto,
                status,
                talk,
                trouble,
            } => {
                let (name, ending) = (name_of(proto), Ending { talk });
                match (talk, trouble) {
                    (Talk::ReadFault | Talk::WriteFault, Some(trouble)) => {
                        write!(f, "its {name} connection ended with {status}: {trouble}")
                    }
                    _ => write!(f, "its {name} connection ended with {status}: {ending}"),
                }
            }
        }
    }
}

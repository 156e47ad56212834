//! What went wrong on a connection, in words.
ghost use Rattle.std.specs.Prelude.{◌≡◌, ◌↔◌, ◌/◌, IsTrue};
ghost use Rattle.std.specs.Duration.{as_nanos};
ghost use Rattle.edge_net.specs.Trouble.{IsReset, IsTimeout, IsTrouble};

use std::fmt;
use std::io::{self, ErrorKind};
use std::time::Duration;

/// What a call of a connection was to do.
#[derive(Clone, Copy, PartialEq, Eq)]
pub enum Way {
    /// To read what the peer sends.
    In,
    /// To write to the peer.
    Out,
}

/// What went wrong on a connection, as a call of the system shows it.
#[derive(Clone, Copy, PartialEq, Eq)]
pub enum Trouble {
    /// For so many seconds the peer sent nothing that could be read.
    Silent { seconds: u64 },
    /// For so many seconds the peer took nothing of what was to be written.
    Stuck { seconds: u64 },
    /// The peer ended the connection at once, by a reset, which may be how its system answers what it can't take any more.
    Reset,
    /// The system gave the error of this number.
    Error { number: i32 },
    /// A call failed, and the system gave no number for it.
    Unknown,
}

// Whether a call waited for the peer in vain.
fn is_timeout(kind: ErrorKind) -> bool
    ensures { IsTrue result ↔ IsTimeout kind }
{
    matches!(kind, ErrorKind::WouldBlock | ErrorKind::TimedOut)
}

// Whether the peer broke the connection off.
pub(crate) fn is_reset(kind: ErrorKind) -> bool
    ensures { IsTrue result ↔ IsReset kind }
{
    matches!(kind, ErrorKind::ConnectionReset | ErrorKind::BrokenPipe)
}

impl Trouble {
    /// What that error of such a call is, which waits for the peer for as long as `wait`.
    pub fn of(error: &io::Error, way: Way, wait: Duration) -> Trouble
        ensures { IsTrouble result error.now way (as_nanos wait / 1_000_000_000) }
    {
        let seconds = wait.as_secs();
        let kind = error.kind();
        if is_timeout(kind) {
            return match way {
                Way::In => Trouble::Silent { seconds },
                Way::Out => Trouble::Stuck { seconds },
            };
        }
        if is_reset(kind) {
            return Trouble::Reset;
        }
        match error.raw_os_error() {
            Some(number) => Trouble::Error { number },
            None => Trouble::Unknown,
        }
    }
}

/// Words that follow the name of the peer, as `it sent nothing for 600 seconds`.
impl fmt::Display for Trouble {
    fn fmt<W: fmt::Write>(&self, f: &mut fmt::Formatter<W>) -> fmt::Result {
        match *self {
            Trouble::Silent { seconds } => write!(f, "it sent nothing for {seconds} seconds"),
            Trouble::Stuck { seconds } => write!(f, "it took nothing for {seconds} seconds"),
            Trouble::Reset => f.write_str("it reset the connection"),
            Trouble::Error { number } => {
                let error = io::Error::from_raw_os_error(number);
                write!(f, "{error}")
            }
            Trouble::Unknown => f.write_str("a call failed"),
        }
    }
}

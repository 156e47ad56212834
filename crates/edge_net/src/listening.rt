//! The sockets that listen before doors are asked for.
ghost use Rattle.std.specs.Prelude.{◌<◌, IfSome, length};

use std::net::TcpListener;

/// A socket that listens, for which no doors were asked yet.
#[derive(Drop)]
pub(crate) struct Listening {
    /// The place as it was named.
    pub(crate) place: String,
    /// The socket.
    pub(crate) listener: TcpListener,
}

/// Which of them is at the place, if one is.
pub(crate) fn listening_at(listening: &[Listening], place: &str) -> Option<usize>
    ensures { IfSome result (λ at. at < length listening.now) }
{
    for at in 0..listening.len() {
        if listening[at].place.as_str() == place {
            return Some(at);
        }
    }
    None
}

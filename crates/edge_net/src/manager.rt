//! The service manager that waits until the program serves, as systemd does (sd_notify(3)).
ghost use Rattle.std.specs.Prelude.{◌≤◌};

use libc::net::{_SS_SIZE, AF_UNIX, MSG_NOSIGNAL, SOCK_CLOEXEC, SOCK_DGRAM, sendto, socket};
use std::rt::Env;

// The longest name of a socket (unix(7)).
const MOST_NAMED: usize = 107;

// Where its name stands in an address, after two bytes of the family.
const NAME_AT: usize = 2;

/// The socket at which a service manager waits.
#[derive(Clone, Copy)]
pub struct Manager {
    // Its address, as the C library has it: the family, and then the name.
    address: [u8; _SS_SIZE],
    // How many bytes of it count.
    len: usize,
}

impl Manager {
    /// The one that NOTIFY_SOCKET names: by a path, or by `@` and a name that is none. `None`: nobody waits, or at no such socket.
    pub fn named(rt: &impl Env) -> Option<Manager> {
        let mut room = [0u8; MOST_NAMED];
        let Ok(len) = rt.var("NOTIFY_SOCKET", &mut room) else {
            return None;
        };
        let name = &room[..len];
        let first = name.first()?;
        let mut address = [0u8; _SS_SIZE];
        address[0] = AF_UNIX as u8;
        address[NAME_AT..NAME_AT + len].copy_from_slice(name);
        if *first == b'@' {
            address[NAME_AT] = 0;
        }
        Some(Manager {
            address,
            len: NAME_AT + len,
        })
    }

    /// Tells it that the program serves. Where it can't be told, nobody is.
    pub(crate) fn tell_ready(&self) {
        let kind = SOCK_DGRAM | SOCK_CLOEXEC;
        let descriptor = unsafe { socket(AF_UNIX, kind, 0) };
        if descriptor < 0 {
            return;
        }
        let len = self.len.min(_SS_SIZE) as u32;
        let _ = unsafe { sendto(descriptor, b"READY=1", MSG_NOSIGNAL, &self.address, len) };
        let _ = libc::close(descriptor);
    }
}

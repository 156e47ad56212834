//! What is said of the entry that holds the forwarding up.
use crate::topic::name_of;
use edge_io::HeldUp;
use std::fmt;

// How many bytes an event has at most that a bridge receives, by each protocol.
const MOST_RECEIVED: u64 = 131_072;

/// Words about the entry that holds the forwarding up.
#[derive(Clone, Copy)]
pub(crate) struct Hindrance<'a> {
    /// What is known of it.
    pub(crate) held_up: &'a HeldUp,
}

impl fmt::Display for Hindrance<'_> {
    fn fmt<W: fmt::Write>(&self, f: &mut fmt::Formatter<W>) -> fmt::Result {
        let HeldUp {
            number,
            proto,
            len,
            code,
        } = *self.held_up;
        write!(f, "entry {number} is held up")?;
        if let Some(code) = code {
            write!(f, ", refused with {code}")?;
        }
        if let Some(len) = len
            && len > MOST_RECEIVED
        {
            let name = name_of(proto);
            write!(
                f,
                "; it has {len} bytes by {name}, and a bridge takes {MOST_RECEIVED} at most"
            )?;
        }
        Ok(())
    }
}

//! How long calls over sockets wait.
ghost use Rattle.std.specs.Prelude.{◌≡◌, ◌*◌, max};
ghost use Rattle.std.specs.Duration.{as_nanos};

use std::time::Duration;

// How long a link that was accepted waits for its peer, a sender, in seconds.
const ACCEPTED_SECONDS: u64 = 600;

// How long a link that was dialed waits for its peer, a receiver, in seconds.
const DIALED_SECONDS: u64 = 90;

// How long the first accept of a door waits for the other doors, in seconds.
const ROLL_SECONDS: u64 = 3;

/// How long the calls of a net wait, and those of its doors and links.
#[derive(Clone, Copy, PartialEq, Eq)]
pub struct Waits {
    /// How long a read or a write of a link that was accepted waits for its peer. It is above 0.
    pub accepted: Duration,
    /// How long a read or a write of a link that was dialed waits for its peer, and a dial for each address of the host. It is
    /// above 0.
    pub dialed: Duration,
    /// How long the first accept of a door waits until each door of the net has begun to accept.
    pub roll: Duration,
}

impl Waits {
    /// The waits of the program. A sender may be silent for 600 seconds, a receiver that owes an answer for 90.
    pub fn standard() -> Waits
        ensures accepted { as_nanos result.accepted ≡ 600_000_000_000 }
        ensures dialed { as_nanos result.dialed ≡ 90_000_000_000 }
        ensures roll { as_nanos result.roll ≡ 3_000_000_000 }
    {
        Waits {
            accepted: Duration::from_secs(ACCEPTED_SECONDS),
            dialed: Duration::from_secs(DIALED_SECONDS),
            roll: Duration::from_secs(ROLL_SECONDS),
        }
    }

    /// The same, but a sender may be silent for so many seconds, or one where these are 0.
    pub fn with_accepted(self, seconds: u64) -> Waits
        ensures accepted { as_nanos result.accepted ≡ max seconds 1 * 1_000_000_000 }
        ensures dialed { result.dialed ≡ self.dialed }
        ensures roll { result.roll ≡ self.roll }
    {
        Waits {
            accepted: Duration::from_secs(seconds.max(1)),
            ..self
        }
    }
}

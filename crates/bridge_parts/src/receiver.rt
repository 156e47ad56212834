//! The settings of a session with the receiver that the words name.
ghost use Rattle.std.specs.Prelude.{◌≡◌};
ghost use Rattle.bridge_parts.specs.Receivers.{plain, collector, outward_of};

use bridge_words::Receiver;
use edge_io::Proto;
use forward_core::Outward;

// By a protocol that has no token and no channel, and asks for nothing again.
fn plain(proto: Proto) -> Outward
    ensures { result ≡ plain proto }
{
    Outward {
        proto,
        token: 0,
        channel: 0,
        polls: 1,
    }
}

// With the collector, by this token and on this channel. It is asked `polls` times at most whether a request is acknowledged.
fn collector(token: u128, channel: u128, polls: u32) -> Outward
    ensures { result ≡ collector token channel polls }
{
    Outward {
        proto: Proto::Hec,
        token,
        channel,
        polls,
    }
}

/// The settings of a session with the receiver that the words name: its protocol, and for the collector the token, the channel and how
/// often it is asked at most.
pub fn outward_of(receiver: Receiver) -> Outward
    ensures { result ≡ outward_of receiver }
{
    match receiver {
        Receiver::Relp => plain(Proto::Relp),
        Receiver::Lumberjack => plain(Proto::Lumberjack),
        Receiver::Hec {
            token,
            channel,
            polls,
        } => collector(token, channel, polls),
    }
}

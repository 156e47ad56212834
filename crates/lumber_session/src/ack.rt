//! The acknowledgment.
ghost use Rattle.std.specs.Prelude.{◌≡◌};
ghost use Rattle.lumber_frame.specs.Spelling.{ack_text};

use lumber_frame::ack_frame;

/// The bytes of the `A` frame that acknowledges all frames up to this sequence number. It takes no
/// memory.
pub fn ack_for(seq: u32) -> [u8; 6]
    ensures { result ≡ ack_text seq }
{
    ack_frame(seq)
}

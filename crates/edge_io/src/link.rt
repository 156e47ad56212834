//! Both ways in one object.
ghost use Rattle.std.specs.Prelude.{◌≡◌, ℕ, List, Option};

use crate::{Sink, Source};

/// A source and a sink in one, as a connection is. It says that neither way meets the other, and has two calls of its own: by one a
/// connection tells how much memory it takes, by the other it asks whether its peer is silent.
pub trait Link: Source + Sink {
    /// The place at which it was dialed, where it tells it. A link that was accepted tells none.
    ghost dialed: { Self → Option (List ℕ) };

    /// Tells how many bytes of memory the connection takes at most, with what is done for the bytes that were read of it, until it tells
    /// another number. Where that is more than before it may wait until there is room for them. Of what the link tells nothing changes.
    fn claim(&mut self, bytes: u64)
        ensures same { Self.same self.old self.new }
        ensures reads { Self.read_apart self.old self.new }
        ensures writes { Self.write_apart self.old self.new }
    {}

    /// Whether nothing comes from the peer for now, for which it may wait a while. Where it isn't known nobody is said to be silent.
    fn is_silent(&self) -> bool {
        false
    }

    /// A read leaves what the sink tells as it was, and the place.
    ghost reads_keep: { (x y : Self) → Self.read_apart x y
        → (Self.taken y ≡ Self.taken x) × (Self.write_faults y ≡ Self.write_faults x) × (Self.dialed y ≡ Self.dialed x) };

    /// A write leaves what the source tells as it was, and the place.
    ghost writes_keep: { (x y : Self) → Self.write_apart x y
        → (Self.given y ≡ Self.given x) × (Self.left y ≡ Self.left x) × (Self.read_faults y ≡ Self.read_faults x)
        × (Self.dialed y ≡ Self.dialed x) };
}

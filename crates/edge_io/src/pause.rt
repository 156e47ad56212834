//! Waiting a while.
use crate::Object;

/// An object that can wait a while, so that a caller that tries again gives others time. A pause changes
/// nothing that the object tells.
pub trait Pause: Object {
    /// The second is the first with no change but that of pauses.
    ghost pause_apart: { Self → Self → Type 0 };

    /// Waits a while. How long is the object's to say.
    fn pause(&mut self)
        ensures same { Self.same self.old self.new }
        ensures apart { pause_apart self.old self.new };

    ghost pause_refl: { (x : Self) → pause_apart x x };

    ghost pause_trans: { (x y z : Self) → pause_apart x y → pause_apart y z → pause_apart x z };
}

//! Pauses in a load.
use edge_io::{Object, Pause};

/// A pause that takes no time.
#[derive(Drop)]
pub(crate) struct NoRest;

impl Object for NoRest {
    ghost same = { λ _ _. Unit {0} };

    ghost same_refl = { λ _. tt };

    ghost same_trans = { λ _ _ _ _ _. tt };
}

impl Pause for NoRest {
    ghost pause_apart = { λ _ _. Unit {0} };

    fn pause(&mut self) {}

    ghost pause_refl = { λ _. tt };

    ghost pause_trans = { λ _ _ _ _ _. tt };
}

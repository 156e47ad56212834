//! What a seat of the table knows. It takes no bytes: no value of it is made.
use std::marker::Model;

pub struct View {
    none: (),
}

impl Model for View {
    ghost use Rattle.spool_turns.specs.Rules.{View, Spent};

    ghost Value = { View };

    ghost view = { λ _. Spent };

    ghost invariant = { λ _. Unit {0} };
}

/// What a seat of the two that know one desk knows. No value of it is made.
pub enum Twin<A> {
    /// Under the lock of the spool: where the last call of the spool left the desk.
    OfSpool(A),
    /// The same, under the lock of the journal.
    OfJournal(A),
    /// Where the two met: what the one knew, and the other.
    Both(A, A),
    /// Nothing.
    Spent,
}

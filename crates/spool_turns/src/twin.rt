//! Two seats that know one desk: one lies under the lock of the spool, the other under that of the journal. So who has both knows that the
//! journal led to where the spool is.
ghost use Rattle.std.specs.Prelude.{◌≡◌, ◌<◌};
ghost use Rattle.spool_turns.specs.Twins.{of_spool, of_journal, of_both, IsSpools, IsJournals, IsBoth};

use crate::view::Twin;
use atomic_table::{Join, Play, Seat, Shared, Split, Table, TableRule};
use spool_desk::Alone;
use std::alloc::Global;

/// The rule: there is one desk, and what each of the two seats knows is that.
pub struct OneDesk;

impl<A> TableRule<A, Twin<A>, A> for OneDesk {
    ghost use Rattle.spool_turns.specs.declared.view.Twin.TheVariants.{Both};
    ghost use Rattle.spool_turns.specs.Twins.{AreOfOne};

    ghost holds = { λ _ s. AreOfOne s.views };

    ghost first = { λ desk. Both desk desk };
}

/// The table of the two seats. It has one word, which is only read.
pub type TwinTable<D> = Table<Alone<D>, Twin<Alone<D>>, Alone<D>, OneDesk, Global>;

pub type TwinSteps<D> = Shared<Alone<D>, Twin<Alone<D>>, Alone<D>, OneDesk>;

pub type TwinSeat<D> = Seat<Alone<D>, Twin<Alone<D>>>;

/// The spool's seat hands its view over to a new seat.
pub struct Comes;

impl<A> Split<Twin<A>> for Comes {
    ghost use Rattle.spool_turns.specs.declared.view.Twin.TheVariants.{Spent};

    ghost left = { λ v. Spent };

    ghost right = { λ v. v };
}

/// The two meet, and part.
pub struct Meets;

impl<A> Join<Twin<A>> for Meets {
    ghost use Rattle.spool_turns.specs.declared.view.Twin.TheVariants.{Spent};
    ghost use Rattle.spool_turns.specs.Twins.{meeting};

    ghost both = { meeting };

    ghost spent = { Spent };
}

impl<A> Split<Twin<A>> for Meets {
    ghost use Rattle.spool_turns.specs.Twins.{journal_part, spool_part};

    ghost left = { journal_part };

    ghost right = { spool_part };
}

/// Where they met it is learned that they know the same.
pub struct Matches;

impl<A> Play<A, Twin<A>> for Matches {
    ghost use Rattle.spool_turns.specs.Twins.{Matches};

    ghost then = { λ s v n w. Matches v w };
}

/// Both know of the desk that is said.
pub struct Moves;

impl<A> Play<A, Twin<A>> for Moves {
    ghost use Rattle.spool_turns.specs.Twins.{Moves};

    ghost then = { λ s v n w. Moves s.said v w };
}

/// The two seats meet: what they know is the same.
pub(crate) fn meet<A>(
    steps: &Shared<A, Twin<A>, A, OneDesk>,
    journal: &mut Seat<A, Twin<A>>,
    spool: &mut Seat<A, Twin<A>>,
)
    requires tables { (journal.old.table_id ≡ steps.now.table_id) × (spool.old.table_id ≡ steps.now.table_id) × (0 < steps.now.table_id.words) }
    requires views { IsJournals journal.old.me × IsSpools spool.old.me }

    ensures table { journal.new.table_id ≡ journal.old.table_id }
    ensures same { (a b : A) → journal.old.me ≡ of_journal b → spool.old.me ≡ of_spool a → (a ≡ b) × (journal.new.me ≡ of_both a b) }
{
    let here = steps.split_seat::<Comes>(spool);
    steps.join_seat::<Meets>(journal, here);
    steps.load::<Matches>(journal, 0);
}

/// The seat that has both lets go of the spool's. Each knows then that this is the desk.
pub(crate) fn apart<A>(
    steps: &Shared<A, Twin<A>, A, OneDesk>,
    both: &mut Seat<A, Twin<A>>,
    desk: &A,
) -> Seat<A, Twin<A>>
    requires table { (both.old.table_id ≡ steps.now.table_id) × (0 < steps.now.table_id.words) }
    requires view { IsBoth both.old.me }

    ensures tables { (both.new.table_id ≡ both.old.table_id) × (result.table_id ≡ both.old.table_id) }
    ensures journal { both.new.me ≡ of_journal desk.now }
    ensures spool { result.me ≡ of_spool desk.now }
{
    steps.compare_exchange_with::<Moves>(both, 0, 0, 0, desk);
    steps.split_seat::<Meets>(both)
}

/// The table's memory is given back.
pub(crate) fn free<A>(twins: Table<A, Twin<A>, A, OneDesk, Global>)
    requires { twins.shared.table_id.slots ≡ 0 }
{
    twins.close().free();
}

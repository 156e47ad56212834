//! A seat at a desk where others sit too.
ghost use Rattle.std.specs.Prelude.{◌≡◌, ℕ, ◌+◌, ◌<◌, List, length};
ghost use mathlib.Core.List.{IsPrefix};
ghost use Rattle.desk_access.specs.Call.{Call, Record};
ghost use Rattle.desk_access.specs.Desk.{DeskState};
ghost use Rattle.desk_access.specs.Division.{DividedRun, callers_of, first_conn};
ghost use Rattle.desk_access.specs.History.{IsDesk};
ghost use Rattle.desk_access.specs.Legal.{IsNext};
ghost use Rattle.desk_seats.specs.Passes.{Known};
ghost use Rattle.desk_seats.specs.Ran.{Ran};

use desk_access::Access;

/// A pass at a desk where others sit too, as a caller of that desk.
///
/// Who takes a pass from its seat keeps all that is known by it, and may seat it again beside another one. What the calls of a caller
/// say of its pass stands in the laws: each call goes on from the journal that the pass has seen, and what it may take and confirm is
/// what its own calls allow.
pub trait Seat: Access + Drop {
    /// A pass that has no seat.
    type Pass: Drop;

    /// The states in which the desk may have been given.
    ghost start: { DeskState → Type 0 };

    /// How often the spool was opened for storing, and how the numbers of its connections are divided then among the passes.
    ghost of_run: { DividedRun };

    /// How many passes there are.
    ghost seats: { ℕ };

    /// This journal was really made: each of its calls is one that its caller might make, and a desk stood where it led.
    ghost is_real: { List Record → Type 0 };

    /// What who sits here knows by the pass.
    ghost knows: { Self → Known };

    /// What is known by a pass that has no seat.
    ghost pass_knows: { Self.Pass → Known };

    /// The pass is given a seat at the same desk.
    fn beside(&self, pass: Self::Pass) -> Self
        ensures { knows result ≡ pass_knows pass };

    /// The pass gives up its seat.
    fn into_pass(self) -> Self::Pass
        ensures { pass_knows result ≡ knows self };

    /// The number of the first connection of a caller in the run.
    fn first_conn(&self, caller: u32) -> u64
        requires { caller < callers_of of_run.division }
        ensures { result ≡ first_conn of_run caller };

    /// The pass that sits here has then seen all that the other has seen. Their own calls stay. It doesn't wait.
    fn meet(&mut self, other: &mut Self::Pass)
        ensures first { IsPrefix (knows self.old).seen (knows self.new).seen }
        ensures second { IsPrefix (pass_knows other.old).seen (knows self.new).seen }
        ensures own { ((knows self.new).number ≡ (knows self.old).number) × ((knows self.new).own ≡ (knows self.old).own) }
        ensures other { other.new ≡ other.old };

    /// The calls lead the pass from what it knew to what it knows, and the journal that it has seen after some was really made.
    ghost knows_calls: { (a b : Self) (calls : List Call) → Self.ran a calls b
        → Ran start (knows a) calls (knows b) × (0 < length calls → is_real (knows b).seen) };

    /// Whatever the state was, of those in which the desk may have been given, the caller has seen the pass's journal since.
    ghost has_seen: { (a : Self) (x : DeskState) (journal : List Record) → start x → IsDesk x → journal ≡ (knows a).seen → Self.seen a x journal };

    /// The end and the cursor that the caller knows are those that the pass knows.
    ghost knows_words: { (a : Self) → (Self.end_known a ≡ (knows a).end_known) × (Self.cursor_known a ≡ (knows a).cursor_known) };

    /// The caller may take what is next by the pass's own calls.
    ghost may_begin: { (a : Self) (conn index : ℕ) → IsNext of_run (knows a).number (knows a).own conn index → Self.may_take a conn index };

    /// The caller with the greatest number may confirm.
    ghost confirms: { (a : Self) → (knows a).number + 1 ≡ seats → Self.may_confirm a };
}

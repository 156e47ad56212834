//! What holds of the bytes of a device and of numbers that become known. The functions do nothing: each has a law as its contract.
ghost use Rattle.format_laws.specs.Changes.{AddingFollows, BeginningFollows, FollowsOn, RegisteringFollows, ShuttingFollows};
ghost use Rattle.format_laws.specs.Marked.{FewAreKnown, LowAreKnown, MarksAddOnly, MarksAreJoined, OneForm};
ghost use Rattle.format_laws.specs.Place.{PlaceIsOne};
ghost use Rattle.format_laws.specs.Standing.{KeptRulesStand, NoneIsChosen, OneState, StandingBreaksNone, UnbrokenStands};

/// The bytes of a device break their first rule at one place. So the offset that `NotSpool` tells is the only one that it may tell of a
/// disk that tells its bytes, whichever command reads it.
pub fn place_is_one()
    ensures { PlaceIsOne }
{}

/// What the definition `marked` makes of known numbers and some stretches is what joining these one after another comes to, but for
/// one that would make more than 240 of them: of each joining it is said which numbers are known then, and there is one way to keep
/// these. So the definition says no more and no less than that, though it reads as code.
pub fn marks_are_joined()
    ensures { MarksAreJoined }
{}

/// Numbers that become known by stretches: what was known stays so, and only numbers of the stretches are added. All of these are
/// known then, where they and the stretches that were are at most 240 together, and so are all numbers below one in any case.
pub fn marks_add_numbers()
    ensures only { MarksAddOnly }
    ensures few { FewAreKnown }
    ensures low { LowAreKnown }
{}

/// There is one way to keep known numbers: the cursor is the least that isn't known, and the stretches are the longest runs above it.
pub fn numbers_have_one_form()
    ensures { OneForm }
{}

/// Bytes that stand for a state break no rule of the layout, and bytes that break none, and whose open slots are known, stand for one
/// state and no other.
pub fn bytes_stand_or_break()
    ensures stands { StandingBreaksNone }
    ensures unbroken { UnbrokenStands }
    ensures rules { KeptRulesStand }
    ensures one { OneState }
{}

/// No slot is free exactly where the rule by which the next slot is chosen chooses none.
pub fn none_is_chosen()
    ensures { NoneIsChosen }
{}

/// Each change of a spool leads to a state that keeps what there was: a group that is added, a segment that is begun, the first slot
/// shut, and the register written. So do changes after one another. A slot that is begun or shut leaves what isn't known.
pub fn changes_keep_what_there_was()
    ensures on { FollowsOn }
    ensures adding { AddingFollows }
    ensures beginning { BeginningFollows }
    ensures shutting { ShuttingFollows }
    ensures registering { RegisteringFollows }
{}

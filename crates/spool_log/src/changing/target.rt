//! Where a group of entries goes.
ghost use Rattle.std.specs.Prelude.{◌≡◌, ℕ, ◌+◌, ◌-◌, ◌<◌, ◌==◌, ◌||◌, ◌↔◌, List, [], length, Option, IsTrue, IfSome, IfNone, MatchOption};
ghost use Rattle.std.specs.List.{list_any};
ghost use Rattle.event_form.specs.declared.event.Entry.{Entry};
ghost use Rattle.spool_state.specs.Segment.{need_of};
ghost use Rattle.spool_state.specs.SpoolState.{SpoolState, IsSound};
ghost use Rattle.spool_state.specs.Free.{has_place, lowest_closed, NoneIsFree};
ghost use Rattle.spool_log.specs.Knows.{Knows};
ghost use Rattle.spool_answers.specs.Stages.{group_stages};

use crate::Memory;
use spool_slots::Slot;

/// Where a group of entries goes.
#[derive(Clone, Copy)]
pub(crate) enum Target {
    /// To the active slot.
    Active,
    /// To a new segment in the closed slot of this place.
    Closed(u32),
    /// To a new segment in the first of the older slots, all of whose entries are confirmed.
    First,
}

/// Whether one of the slots begins at this offset.
fn begins_at(slots: &[Slot], at: u64) -> bool
    ensures { result ≡ list_any (λ slot. slot.at == at) slots.now }
{
    slots.iter().any(|slot| slot.at == at)
}

impl Memory {
    ghost use Rattle.spool_log.specs.Memory.{cursor_of, room_of};
    ghost use Rattle.spool_answers.specs.Take.{HasPlace};
    ghost use Rattle.spool_log.specs.Changing.Target.{stages_at, IsFreeIn, StartsConfirmed, Suits};

    /// Whether an open slot has this place.
    fn is_taken(&self, place: u32) -> bool
        requires { place < self.now.slots }
        ensures { (s : SpoolState) → Knows s self.now → IsSound s → result ≡ (s.active.place == place || has_place place s.older) }
    {
        let at = 12_288 + u64::from(place) * self.size;
        self.active.at == at || begins_at(&self.older, at)
    }

    /// The lowest place of a closed slot.
    fn closed_place(&self) -> Option<u32>
        ensures spare { IfSome result (λ place. (place < self.now.slots) × (length self.now.older.items + 1 < self.now.slots)) }
        ensures lowest { (s : SpoolState) → Knows s self.now → IsSound s → result ≡ lowest_closed s s.slots }
    {
        if self.older.len() + 1 >= self.slots as usize {
            return None;
        }
        for place in 0..self.slots {
            if !self.is_taken(place) {
                return Some(place);
            }
        }
        None
    }

    /// Whether all entries of the first of the older slots are confirmed.
    fn starts_confirmed(&self) -> bool
        ensures { IsTrue result ↔ StartsConfirmed self.now.older.items (cursor_of self.now) }
    {
        match self.older.as_slice() {
            [first, ..] => first.first + first.count <= self.register.value().cursor,
            [] => false,
        }
    }

    /// Where a group goes that needs so many bytes: to the active slot where it has room; else to the
    /// closed one of lowest place; else to the first one, if all its entries are confirmed.
    pub(crate) fn target(&self, need: u64) -> Option<Target>
        ensures suits { IfSome result (Suits self.now need) }
        ensures full { IfNone result (room_of self.now < need) }
        ensures stages { (s : SpoolState) (group : List Entry) → Knows s self.now → IsSound s → need ≡ need_of group
            → MatchOption result (NoneIsFree s) (λ target. HasPlace s group × (group_stages s group ≡ stages_at target s group) × IsFreeIn target s) }
    {
        if need <= self.active.room() {
            return Some(Target::Active);
        }
        if let Some(place) = self.closed_place() {
            return Some(Target::Closed(place));
        }
        if self.starts_confirmed() {
            return Some(Target::First);
        }
        None
    }
}

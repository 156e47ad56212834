//! What a protocol's sender does with the entries and with the peer's bytes.
ghost use Rattle.std.specs.Prelude.{◌≡◌, ◌≢◌, ◌⊎◌, ℕ, ◌+◌, ◌*◌, ◌<◌, ◌≤◌, ◌^◌, List, [], ◌++◌, length, All, IfOk, OnOk, OnErr};
ghost use Rattle.event_form.specs.Event.{IsEvent};
ghost use Rattle.event_form.specs.Turn.{text_of};
ghost use Rattle.event_form.specs.declared.event.Entry.{Entry};
ghost use Rattle.event_form.specs.declared.turn.Turn.TheVariants.{Need, PeerClosed, Wait};
ghost use Rattle.forward_core.specs.declared.sent.Sent.{Sent};
ghost use Rattle.forward_core.specs.Settings.{Settings};
ghost use Rattle.forward_core.specs.Turning.{IsEndingBy, IsHalt, IsCut, MayEnd, MayFollow, TellsFirst, IsAlsoOne, IsSpending, also_of};

use event_form::{Entry as StoredEntry, Turn};
use std::alloc::AllocError;

/// What a protocol's sender does with the entries and with the peer's bytes. The reads, the writes and the
/// marks stand outside, once for all protocols. It counts the entries from 0: a place is an entry's, in the
/// order in which they were given.
pub trait Outgoing {
    /// These entries were given to it, these bytes fed, this text was written, and of these places it was told
    /// one by one that their entries are acknowledged.
    ghost has_sent: { Self → List Entry → List ℕ → List ℕ → List ℕ → Type 0 };

    /// The protocol's table, by what it was set to: of a list of entries, by the peer's bytes and the text
    /// written, so many of the first entries and those at these places are acknowledged, with this ending.
    ghost ends: { Settings → List Entry → List ℕ → List ℕ → ℕ → List ℕ → Sent → Type 0 };

    /// The peer's bytes have its word that it closes the session.
    ghost hints: { List ℕ → Type 0 };

    /// What it was set to when it was made.
    ghost settings: { Self → Settings };

    /// The number of the first entry, how many were given, and how many of the first ones were told as
    /// acknowledged.
    ghost first: { Self → ℕ };

    ghost given: { Self → ℕ };

    ghost told: { Self → ℕ };

    /// No more entries come, and the last turn asked for more.
    ghost finished: { Self → Type 0 };

    ghost asked: { Self → Type 0 };

    /// How many bytes it was fed, or fewer.
    ghost extent: { Self → ℕ };

    /// A number that each turn raises but those that end the session or ask for something.
    ghost spent: { Self → ℕ };

    /// Adds entries, of which the first has this number. All batches but the last one have 128.
    fn give(&mut self, number: u64, entries: Vec<StoredEntry>)
        requires asked { asked self.old }
        requires some { 0 < length entries.items }
        requires few { length entries.items ≤ 128 }
        requires limits { All (λ e. IsEvent e.event) entries.items }
        requires whole { (q : ℕ) × (given self.old ≡ 128 * q) }
        requires next { 0 < given self.old → number ≡ first self.old + given self.old }
        requires number { number + length entries.items ≤ 2 ^ 63 }
        ensures sent { (earlier : List Entry) (fed out also : List ℕ) → has_sent self.old earlier fed out also
            → has_sent self.new (earlier ++ entries.items) fed out also }
        ensures first { first self.new + given self.old ≡ number }
        ensures given { given self.new ≡ given self.old + length entries.items }
        ensures told { told self.new ≡ told self.old }
        ensures finished { finished self.new → finished self.old }
        ensures settings { settings self.new ≡ settings self.old }
        ensures extent { extent self.new ≡ extent self.old }
        ensures spent { spent self.new ≡ spent self.old };

    /// Says that no more entries come.
    fn finish(&mut self)
        requires asked { asked self.old }
        ensures sent { (entries : List Entry) (fed out also : List ℕ) → has_sent self.old entries fed out also → has_sent self.new entries fed out also }
        ensures finished { finished self.new }
        ensures first { first self.new ≡ first self.old }
        ensures given { given self.new ≡ given self.old }
        ensures told { told self.new ≡ told self.old }
        ensures settings { settings self.new ≡ settings self.old }
        ensures extent { extent self.new ≡ extent self.old }
        ensures spent { spent self.new ≡ spent self.old };

    /// Adds the next of the peer's bytes. After the error, that no memory was found, nothing was added.
    fn feed(&mut self, piece: &[u8]) -> Result<(), AllocError>
        requires fits { extent self.old + length piece.now ≤ 2 ^ 40 }
        ensures sent { OnOk result ((entries : List Entry) (fed out also : List ℕ) → has_sent self.old entries fed out also
            → has_sent self.new entries (fed ++ piece.now) out also) }
        ensures extent { extent self.new ≤ extent self.old + length piece.now }
        ensures first { first self.new ≡ first self.old }
        ensures given { given self.new ≡ given self.old }
        ensures told { told self.new ≡ told self.old }
        ensures finished { finished self.new → finished self.old }
        ensures stays { finished self.old → finished self.new }
        ensures settings { settings self.new ≡ settings self.old }
        ensures spent { spent self.new ≡ spent self.old }
        ensures err { OnErr result (self.new ≡ self.old) };

    /// The next turn. Whatever entries of the list stand after those given: at an ending it is the table's;
    /// where the peer's bytes are waited for, a session may end for want of a read, or by the end of its bytes; of a
    /// text that isn't written whole the rest is missing; and at any time a session may end for want of memory, or
    /// because the desk refuses a call.
    fn turn(&mut self) -> Result<Turn, AllocError>
        ensures err { OnErr result (self.new ≡ self.old) }
        ensures sent { IfOk result (λ turn. (entries : List Entry) (fed out also : List ℕ) → has_sent self.old entries fed out also
            → has_sent self.new entries fed (out ++ text_of turn) (also ++ also_of (first self.new) turn)) }
        ensures told { IfOk result (λ turn. TellsFirst (first self.new) turn (told self.old) (told self.new)) }
        ensures also { IfOk result (λ turn. IsAlsoOne (first self.new) (told self.new) (given self.new) turn) }
        ensures known { told self.new ≤ given self.new }
        ensures asked { IfOk result (λ turn. turn ≡ Need → asked self.new) }
        ensures unfinished { IfOk result (λ turn. turn ≡ Need → finished self.new → ⊥) }
        ensures ends { IfOk result (λ turn. (ending : Sent) → IsEndingBy turn ending
            → (entries more : List Entry) (fed out also : List ℕ) → MayFollow (finished self.new) (given self.new) more
            → has_sent self.new entries fed out also → ends (settings self.new) (entries ++ more) fed out (told self.new) also ending) }
        ensures hints { IfOk result (λ turn. turn ≡ PeerClosed
            → (entries : List Entry) (fed out also : List ℕ) → has_sent self.new entries fed out also → hints fed) }
        ensures waits { IfOk result (λ turn. turn ≡ Wait → (entries more : List Entry) (also : List ℕ) → MayFollow (finished self.new) (given self.new) more
            → MayEnd (λ fed out. has_sent self.new entries fed out also)
            (λ fed out. ends (settings self.new) (entries ++ more) fed out (told self.new) also)) }
        ensures halts { (entries more : List Entry) (fed piece out also : List ℕ) (ending : Sent) → IsHalt ending
            → MayFollow (finished self.new) (given self.new) more
            → has_sent self.new entries fed out also → ends (settings self.new) (entries ++ more) (fed ++ piece) out (told self.new) also ending }
        ensures cuts { IfOk result (λ turn. (entries more : List Entry) (fed out part rest also : List ℕ) (ending : Sent) → IsCut ending
            → MayFollow (finished self.new) (given self.new) more → text_of turn ≡ part ++ rest → 0 < length rest
            → has_sent self.old entries fed out also → ends (settings self.new) (entries ++ more) fed (out ++ part) (told self.new) also ending) }
        ensures first { first self.new ≡ first self.old }
        ensures given { given self.new ≡ given self.old }
        ensures finished { finished self.new → finished self.old }
        ensures stays { finished self.old → finished self.new }
        ensures settings { settings self.new ≡ settings self.old }
        ensures extent { extent self.new ≡ extent self.old }
        ensures spent { IfOk result (λ turn. IsSpending turn (spent self.old) (spent self.new)) }
        ensures bound { given self.new ≤ 2 ^ 63 → spent self.new ≤ 2 ^ 100 };
}

//! What holds of all entries' texts.
ghost use Rattle.std.specs.Prelude.{◌≡◌, ℕ, List, ◌++◌};
ghost use Rattle.event_form.specs.declared.event.Entry.{Entry};
ghost use Rattle.event_form.specs.Entry.{IsEntry, entry_text};

/// No entry's text begins another one's: whatever follows them, bytes are read as an entry in one way
/// only.
pub fn one_reading()
    ensures { (d e : Entry) (x y : List ℕ) → IsEntry d → IsEntry e → entry_text d ++ x ≡ entry_text e ++ y → (d ≡ e) × (x ≡ y) }
{}

//! Which note is reported of two things that were done one after the other.
ghost use Rattle.std.specs.Prelude.{◌≡◌};
ghost use Rattle.bridge_parts.specs.Written.{first_of};

use notes::Note;

/// The note of two things that were done one after the other: that of the first, or where it is `Fine` that of the second.
pub fn first_of(ended: Note, then: Note) -> Note
    ensures { result ≡ first_of ended then }
{
    match ended {
        Note::Fine => then,
        note => note,
    }
}

//! Whether stretches are apart.
ghost use Rattle.std.specs.Prelude.{◌↔◌, IsTrue};
ghost use Rattle.known_numbers.specs.Numbers.{AreApart};

use crate::Stretch;

/// Whether stretches may stand above a cursor: none is empty, the first begins above the cursor, and each
/// begins above the end of the one before.
pub fn are_apart(cursor: u64, stretches: &[Stretch]) -> bool
    ensures { IsTrue result ↔ AreApart cursor stretches.now }
{
    let mut end = cursor;
    for stretch in stretches {
        if stretch.from <= end || stretch.to <= stretch.from {
            return false;
        }
        end = stretch.to;
    }
    true
}

//! The words `rescue` and `rescue SLOTS SIZE`, which are no command of `bridge` itself: the program reads them, and makes another call for
//! them.
ghost use Rattle.std.specs.Prelude.{◌≡◌, MatchOption, None, Some, map, string_bytes};
ghost use Rattle.cli_parts.specs.RescueWords.{IsLayoutWords, IsNoLayoutWords, IsRescue, IsNoRescue};

use crate::digits::number;
use bridge_rescue::Layout;

// The name of the command.
const RESCUE: &str = "rescue";

/// What words that rescue ask for.
#[derive(Clone, Copy)]
pub struct RescueWords {
    /// How many slots FILE has and how long each is, where the words say so.
    pub layout: Option<Layout>,
}

/// The layout that the two words give, as SLOTS and SIZE of `format` do.
pub(crate) fn layout_of(slots: &str, size: &str) -> Option<Layout>
    ensures { MatchOption result (IsNoLayoutWords slots.now size.now) (λ layout. IsLayoutWords layout slots.now size.now) }
{
    Layout::of(number(slots)?, number(size)?)
}

// What words ask for that give this layout.
fn by_layout(layout: Option<Layout>) -> Option<RescueWords>
    ensures { MatchOption layout (result ≡ None) (λ given. result ≡ Some (record { layout = Some given })) }
{
    match layout {
        Some(layout) => Some(RescueWords {
            layout: Some(layout),
        }),
        None => None,
    }
}

/// What these words rescue by, where they are `rescue`, or `rescue SLOTS SIZE` with numbers of 1 to 10 decimal digits in their ranges.
pub fn rescue_of(words: &[String]) -> Option<RescueWords>
    ensures { MatchOption result (IsNoRescue (map string_bytes words.now)) (λ rescue. IsRescue rescue.layout (map string_bytes words.now)) }
{
    match words {
        [name] => {
            if name.as_str() == RESCUE {
                Some(RescueWords { layout: None })
            } else {
                None
            }
        }
        [name, slots, size] => {
            if name.as_str() == RESCUE {
                by_layout(layout_of(slots.as_str(), size.as_str()))
            } else {
                None
            }
        }
        _ => None,
    }
}

/// Whether the words begin with `rescue`, also where others follow than SLOTS and SIZE.
pub(crate) fn begins_rescue(words: &[String]) -> bool {
    match words {
        [name, ..] => name.as_str() == RESCUE,
        [] => false,
    }
}

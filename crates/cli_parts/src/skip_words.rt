//! The words `skip NUMBER`, which are no command of `bridge` itself: the program reads them, and makes another call for them.
ghost use Rattle.std.specs.Prelude.{MatchOption, map, string_bytes};
ghost use Rattle.cli_parts.specs.SkipWords.{IsEntryNumber, IsNoEntryNumber, IsSkip, IsNoSkip};

use crate::digits::has_plus;

// The name of the command.
const SKIP: &str = "skip";

// The number of an entry that a word of decimal digits writes. Leading zeros are allowed.
fn entry_number(word: &str) -> Option<u64>
    ensures { MatchOption result (IsNoEntryNumber word.now) (λ number. IsEntryNumber number word.now) }
{
    if has_plus(word) {
        return None;
    }
    match u64::from_str_radix(word, 10) {
        Ok(number) => Some(number),
        Err(_) => None,
    }
}

/// The number of the entry that these words skip, where they are `skip NUMBER`, with a NUMBER of decimal digits below 2^64.
pub fn skip_of(words: &[String]) -> Option<u64>
    ensures { MatchOption result (IsNoSkip (map string_bytes words.now)) (λ number. IsSkip number (map string_bytes words.now)) }
{
    match words {
        [name, word] => {
            if name.as_str() == SKIP {
                entry_number(word.as_str())
            } else {
                None
            }
        }
        _ => None,
    }
}

/// Whether the words begin with `skip`, also where no NUMBER follows.
pub(crate) fn begins_skip(words: &[String]) -> bool {
    match words {
        [name, ..] => name.as_str() == SKIP,
        [] => false,
    }
}

//! A number of seconds on the command line.
ghost use Rattle.std.specs.Prelude.{◌≡◌, ◌≤◌, IfSome};
ghost use Rattle.cli_parts.specs.RunOptions.{seconds_in};

use crate::digits::number;

// The least and the most.
const LEAST: u64 = 1;

const MOST: u64 = 86_400;

/// The seconds that a word of 1 to 10 decimal digits writes: 1 to 86,400, or none.
pub(crate) fn seconds(word: &str) -> Option<u64>
    ensures number { result ≡ seconds_in word.now }
    ensures range { IfSome result (λ n. (1 ≤ n) × (n ≤ 86400)) }
{
    let number = number(word)?;
    if number < LEAST || number > MOST {
        return None;
    }
    Some(number)
}

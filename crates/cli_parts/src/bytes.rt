//! A number of bytes on the command line.
ghost use Rattle.std.specs.Prelude.{◌≡◌, ◌≤◌, IfSome};
ghost use Rattle.cli_parts.specs.RunOptions.{bytes_in};

use crate::digits::number;

// The least and the most.
const LEAST: u64 = 16_777_216;

const MOST: u64 = 8_589_934_592;

/// The bytes that a word of 1 to 10 decimal digits writes: 16,777,216 to 8,589,934,592, or none.
pub(crate) fn bytes(word: &str) -> Option<u64>
    ensures number { result ≡ bytes_in word.now }
    ensures range { IfSome result (λ n. (16777216 ≤ n) × (n ≤ 8589934592)) }
{
    let number = number(word)?;
    if number < LEAST || number > MOST {
        return None;
    }
    Some(number)
}

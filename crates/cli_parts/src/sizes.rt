//! SIZE with a unit after it, as `64M`, which the program takes of `format` and of `rescue`. `bridge` itself knows bytes alone, so these
//! take its place among the words.
ghost use Rattle.std.specs.Prelude.{◌≡◌, ◌<◌, ◌≤◌, ◌-◌, [], Some, IfOk, IfSome, get_or, length, map, string_bytes};
ghost use Rattle.cli_parts.specs.Sizes.{HaveBytes, bytes_in, times};

use crate::digits::number;
use crate::token_words::put_text;
use std::alloc::{AllocError, Global};

// The greatest number before a unit: more is no SIZE by any.
const MOST: u64 = 1_073_741_824;

// So many bytes as the digits stand for with that unit.
fn times(digits: &str, unit: u64) -> Option<u64>
    requires { unit ≤ 1073741824 }
    ensures { result ≡ times unit digits.now }
{
    let number = number(digits)?;
    if number > MOST {
        return None;
    }
    Some(number * unit)
}

// The bytes that a number with K, M or G after it stands for.
fn bytes_in(word: &str) -> Option<u64>
    ensures { result ≡ bytes_in word.now }
{
    if let Some(digits) = word.strip_suffix("K") {
        return times(digits, 1024);
    }
    if let Some(digits) = word.strip_suffix("M") {
        return times(digits, 1_048_576);
    }
    match word.strip_suffix("G") {
        Some(digits) => times(digits, MOST),
        None => None,
    }
}

// Whether the command of this name takes SIZE.
fn takes_size(name: &str) -> bool {
    name == "format" || name == "rescue"
}

/// The words with bytes in the place of SIZE, where their command is `format` or `rescue` and the last of them is a number with K, M or G
/// after it: 1,024, 1,048,576 or 1,073,741,824 of them for each. All others stay.
pub fn with_bytes(alloc: Global, mut words: Vec<String>) -> Result<Vec<String>, AllocError>
    ensures { IfOk result (λ made. HaveBytes (map string_bytes words.items) (map string_bytes made.items)) }
{
    let (Some(name), Some(last)) = (words.first(), words.last()) else {
        return Ok(words);
    };
    if !takes_size(name.as_str()) {
        return Ok(words);
    }
    let Some(bytes) = bytes_in(last.as_str()) else {
        return Ok(words);
    };
    let text = format!(in alloc; "{bytes}")?;
    let at = words.len() - 1;
    put_text(alloc, &mut words, at, "", text.as_str())?;
    Ok(words)
}

//! Numbers on the command line.
ghost use Rattle.std.specs.Prelude.{◌≡◌, ◌↔◌, ◌≤◌, IsTrue, IfSome, slice_index};
ghost use Rattle.bridge_words.specs.Values.{number, number_within};

// Whether the word begins with a plus, which `from_str_radix` takes.
fn has_plus(word: &str) -> bool
    ensures { IsTrue result ↔ (slice_index word.now 0 ≡ 43) }
{
    match word.as_bytes() {
        [first, ..] => *first == b'+',
        [] => false,
    }
}

// The number that a word of 1 to 10 decimal digits writes. Leading zeros are allowed.
fn number(word: &str) -> Option<u64>
    ensures { result ≡ number word.now }
{
    if word.len() > 10 || has_plus(word) {
        return None;
    }
    match u64::from_str_radix(word, 10) {
        Ok(number) => Some(number),
        Err(_) => None,
    }
}

/// The number from `least` to `most` that a word of 1 to 10 decimal digits writes.
pub(crate) fn number_within(word: &str, least: u32, most: u32) -> Option<u32>
    ensures number { result ≡ number_within least most word.now }
    ensures range { IfSome result (λ n. (least ≤ n) × (n ≤ most)) }
{
    let number = number(word)?;
    if number < u64::from(least) || number > u64::from(most) {
        return None;
    }
    Some(number as u32)
}

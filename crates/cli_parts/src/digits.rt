//! Numbers on the command line.
ghost use Rattle.std.specs.Prelude.{◌≡◌, ◌↔◌, IsTrue, slice_index};
ghost use Rattle.bridge_words.specs.Values.{number};

/// Whether the word begins with a plus, which `from_str_radix` takes.
pub(crate) fn has_plus(word: &str) -> bool
    ensures { IsTrue result ↔ (slice_index word.now 0 ≡ 43) }
{
    match word.as_bytes() {
        [first, ..] => *first == b'+',
        [] => false,
    }
}

/// The number that a word of 1 to 10 decimal digits writes. Leading zeros are allowed.
pub(crate) fn number(word: &str) -> Option<u64>
    ensures { result ≡ number word.now }
{
    if word.len() > 10 || has_plus(word) {
        return None;
    }
    match u64::from_str_radix(word, 10) {
        Ok(number) => Some(number),
        Err(_) => None,
    }
}

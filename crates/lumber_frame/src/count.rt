//! How many pairs a text has.
ghost use Rattle.std.specs.Prelude.{◌≡◌, ℕ, List, ◌≤◌, length};
ghost use Rattle.event_form.specs.Event.{ArePairs, pairs_text};
ghost use Rattle.event_form.specs.Pairs.{BeginsString};

use event_form::MOST_TEXT;

/// What stands after the key or the value that the bytes begin with.
fn behind_string(bytes: &[u8]) -> &[u8]
    requires { (string : List ℕ) × (rest : List ℕ) × BeginsString string bytes.now rest }
    ensures { (string rest : List ℕ) → BeginsString string bytes.now rest → result.now ≡ rest }
{
    let (front, rest) = bytes.split_at(4);
    let length = u32::from_be_bytes([front[0], front[1], front[2], front[3]]) as usize;
    let (_, behind) = rest.split_at(length);
    behind
}

/// How many pairs the text has, which is at most 1,024 whole pairs.
pub fn pair_count(text: &[u8]) -> u32
    requires short { length text.now ≤ MOST_TEXT }
    requires pairs { ArePairs text.now }
    ensures { (pairs : List (List ℕ × List ℕ)) → text.now ≡ pairs_text pairs → result ≡ length pairs }
{
    let mut rest = text;
    let mut count = 0;
    while !rest.is_empty() {
        rest = behind_string(behind_string(rest));
        count += 1;
    }
    count
}

//! Kinds of bytes.
ghost use Rattle.std.specs.Prelude.{◌≡◌, ◌≤◌, ◌<◌, ◌↔◌, IsTrue, length, slice_index, false};
ghost use Rattle.json_span.specs.Numbers.{is_digit};
ghost use Rattle.json_span.specs.Strings.{is_hex, is_plain};
ghost use Rattle.json_span.specs.Json.{is_space, AreSpaces};
ghost use Rattle.json_span.specs.Machine.{is_e};
ghost use Rattle.json_span.specs.Spans.{Stretch};

/// White space.
pub(crate) fn space(byte: u8) -> bool
    ensures { result ≡ is_space byte }
{
    byte == b' ' || byte == b'\t' || byte == b'\n' || byte == b'\r'
}

/// A decimal digit.
pub(crate) fn digit(byte: u8) -> bool
    ensures { result ≡ is_digit byte }
{
    b'0' <= byte && byte <= b'9'
}

/// The letter of an exponent.
pub(crate) fn exponent(byte: u8) -> bool
    ensures { result ≡ is_e byte }
{
    byte == b'e' || byte == b'E'
}

/// A hexadecimal digit of either case.
pub(crate) fn hex(byte: u8) -> bool
    ensures { result ≡ is_hex byte }
{
    digit(byte) || (b'A' <= byte && byte <= b'F') || (b'a' <= byte && byte <= b'f')
}

/// Whether a byte of a string stands for itself.
pub(crate) fn plain(byte: u8) -> bool
    ensures { result ≡ is_plain byte }
{
    (32 <= byte && byte <= 33) || (35 <= byte && byte <= 91) || (93 <= byte && byte <= 127)
}

/// The first place from `at` on where no white space stands.
pub(crate) fn after_space(bytes: &[u8], at: usize) -> usize
    requires { at ≤ length bytes.now }
    ensures spaces { Stretch AreSpaces bytes.now at result }
    ensures stops { result < length bytes.now → is_space (slice_index bytes.now result) ≡ false }
{
    for i in at..bytes.len() {
        if !space(bytes[i]) {
            return i;
        }
    }
    bytes.len()
}

/// Whether this byte stands at a place.
pub(crate) fn stands_at(bytes: &[u8], at: usize, byte: u8) -> bool
    ensures { IsTrue result ↔ ((at < length bytes.now) × (slice_index bytes.now at ≡ byte)) }
{
    at < bytes.len() && bytes[at] == byte
}

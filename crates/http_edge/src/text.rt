//! Words in the value of a field.
ghost use Rattle.std.specs.Prelude.{◌≡◌};
ghost use Rattle.std.specs.Str.{str_eq_ignore_ascii_case};
ghost use Rattle.httparse.specs.Grammar.{is_ows, trim_ows};
ghost use Rattle.http_edge.specs.Fields.{lists};

/// Whether two texts are equal, ASCII case aside.
pub fn is_word(text: &[u8], word: &[u8]) -> bool
    ensures { result ≡ str_eq_ignore_ascii_case text.now word.now }
{
    text.eq_ignore_ascii_case(word)
}

// Whether the byte is optional white space (RFC 9110, section 5.6.3).
fn is_blank(byte: u8) -> bool
    ensures { result ≡ is_ows byte }
{
    byte == b' ' || byte == b'\t'
}

// The text without the spaces and tabs at both ends.
fn trim(text: &[u8]) -> &[u8]
    ensures { result.now ≡ trim_ows text.now }
{
    let mut from = 0;
    let mut to = text.len();
    while from < to && is_blank(text[from]) {
        from += 1;
    }
    while from < to && is_blank(text[to - 1]) {
        to -= 1;
    }
    &text[from..to]
}

/// Whether a value lists the word (RFC 9110, section 5.6.1): one of its parts between commas is the word,
/// the white space around it and ASCII case aside.
pub fn lists_word(value: &[u8], word: &[u8]) -> bool
    ensures { result ≡ lists word.now value.now }
{
    value
        .split(|byte| *byte == b',')
        .any(|part| is_word(trim(part), word))
}

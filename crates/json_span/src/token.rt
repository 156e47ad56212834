//! Strings, numbers and literals, byte by byte.
ghost use Rattle.std.specs.Prelude.{◌≡◌, ℕ, if◌then◌else◌, IsTrue, true, false, Some, None};
ghost use Rattle.json_span.specs.Strings.{lead, is_plain, within as in_bounds};
ghost use Rattle.json_span.specs.Machine.{next, first, Zero, done as may_end, wide_token};
ghost use Rattle.json_span.specs.Reading.{token_of, token_option, bounds_of};

use crate::bytes::{digit, exponent, hex, plain};

/// Bounds of the second byte of a character of several bytes in UTF-8.
#[derive(Clone, Copy)]
pub(crate) enum Range {
    Any,
    FromA0,
    To9F,
    From90,
    To8F,
}

/// Where in a string, number or literal. `Closed` is after one that its own last byte ends.
#[derive(Clone, Copy)]
pub(crate) enum Token {
    Closed,
    AfterT,
    AfterTr,
    AfterTru,
    AfterF,
    AfterFa,
    AfterFal,
    AfterFals,
    AfterN,
    AfterNu,
    AfterNul,
    Minus,
    Zero,
    Int,
    Point,
    Frac,
    E,
    Sign,
    Exp,
    Chars,
    Escape,
    Hex { left: u8 },
    Tail { bounds: Range, more: u8 },
}

/// The token, if the test holds.
fn when(test: bool, token: Token) -> Option<Token>
    ensures { result ≡ (if test then Some token else None) }
{
    if test { Some(token) } else { None }
}

/// A byte after the whole part of a number.
#[tactic(auto, unfolding(crate::specs::Machine::next))]
fn fraction(byte: u8) -> Option<Token>
    ensures { token_option result ≡ next Zero byte }
{
    if byte == b'.' {
        Some(Token::Point)
    } else {
        when(exponent(byte), Token::E)
    }
}

/// The first byte of a character of several bytes.
#[tactic(auto, unfolding(crate::specs::Strings::lead))]
fn wide(byte: u8) -> Option<Token>
    ensures { token_option result ≡ wide_token (lead byte) }
{
    let (bounds, more) = if 194 <= byte && byte <= 223 {
        (Range::Any, 0)
    } else if byte == 224 {
        (Range::FromA0, 1)
    } else if byte == 237 {
        (Range::To9F, 1)
    } else if 225 <= byte && byte <= 239 {
        (Range::Any, 1)
    } else if byte == 240 {
        (Range::From90, 2)
    } else if 241 <= byte && byte <= 243 {
        (Range::Any, 2)
    } else if byte == 244 {
        (Range::To8F, 2)
    } else {
        return None;
    };
    Some(Token::Tail { bounds, more })
}

/// Whether a character's further byte is within the bounds.
fn within(bounds: Range, byte: u8) -> bool
    ensures { result ≡ in_bounds (bounds_of bounds) byte }
{
    match bounds {
        Range::Any => 128 <= byte && byte <= 191,
        Range::FromA0 => 160 <= byte && byte <= 191,
        Range::To9F => 128 <= byte && byte <= 159,
        Range::From90 => 144 <= byte && byte <= 191,
        Range::To8F => 128 <= byte && byte <= 143,
    }
}

/// One byte more, if it belongs to the token.
#[tactic(auto, unfolding(crate::specs::Machine::next))]
#[inline(always)]
pub(crate) fn next_token(token: Token, byte: u8) -> Option<Token>
    ensures { token_option result ≡ next (token_of token) byte }
{
    match token {
        Token::Closed => None,
        Token::AfterT => when(byte == b'r', Token::AfterTr),
        Token::AfterTr => when(byte == b'u', Token::AfterTru),
        Token::AfterTru => when(byte == b'e', Token::Closed),
        Token::AfterF => when(byte == b'a', Token::AfterFa),
        Token::AfterFa => when(byte == b'l', Token::AfterFal),
        Token::AfterFal => when(byte == b's', Token::AfterFals),
        Token::AfterFals => when(byte == b'e', Token::Closed),
        Token::AfterN => when(byte == b'u', Token::AfterNu),
        Token::AfterNu => when(byte == b'l', Token::AfterNul),
        Token::AfterNul => when(byte == b'l', Token::Closed),
        Token::Minus => {
            if byte == b'0' {
                Some(Token::Zero)
            } else {
                when(b'1' <= byte && byte <= b'9', Token::Int)
            }
        }
        Token::Zero => fraction(byte),
        Token::Int => if digit(byte) {
            Some(Token::Int)
        } else {
            fraction(byte)
        },
        Token::Point => when(digit(byte), Token::Frac),
        Token::Frac => if digit(byte) {
            Some(Token::Frac)
        } else {
            when(exponent(byte), Token::E)
        },
        Token::E => {
            if digit(byte) {
                Some(Token::Exp)
            } else {
                when(byte == b'+' || byte == b'-', Token::Sign)
            }
        }
        Token::Sign => when(digit(byte), Token::Exp),
        Token::Exp => when(digit(byte), Token::Exp),
        Token::Chars => {
            if byte == b'"' {
                Some(Token::Closed)
            } else if byte == b'\\' {
                Some(Token::Escape)
            } else if 32 <= byte && byte <= 127 {
                Some(Token::Chars)
            } else {
                wide(byte)
            }
        }
        Token::Escape => {
            if byte == b'u' {
                Some(Token::Hex { left: 3 })
            } else {
                when(
                    byte == b'"'
                        || byte == b'\\'
                        || byte == b'/'
                        || byte == b'b'
                        || byte == b'f'
                        || byte == b'n'
                        || byte == b'r'
                        || byte == b't',
                    Token::Chars,
                )
            }
        }
        Token::Hex { left } => {
            if hex(byte) {
                Some(if left > 0 {
                    Token::Hex { left: left - 1 }
                } else {
                    Token::Chars
                })
            } else {
                None
            }
        }
        Token::Tail { bounds, more } => {
            if within(bounds, byte) {
                Some(if more > 0 {
                    Token::Tail {
                        bounds: Range::Any,
                        more: more - 1,
                    }
                } else {
                    Token::Chars
                })
            } else {
                None
            }
        }
    }
}

/// The first byte of a string, number or literal.
#[tactic(auto, unfolding(crate::specs::Machine::first))]
pub(crate) fn first_token(byte: u8) -> Option<Token>
    ensures { token_option result ≡ first byte }
{
    if byte == b'"' {
        Some(Token::Chars)
    } else if byte == b'-' {
        Some(Token::Minus)
    } else if byte == b'0' {
        Some(Token::Zero)
    } else if b'1' <= byte && byte <= b'9' {
        Some(Token::Int)
    } else if byte == b't' {
        Some(Token::AfterT)
    } else if byte == b'f' {
        Some(Token::AfterF)
    } else if byte == b'n' {
        Some(Token::AfterN)
    } else {
        None
    }
}

/// Whether the token may end here.
pub(crate) fn done(token: Token) -> bool
    ensures { result ≡ may_end (token_of token) }
{
    match token {
        Token::Closed | Token::Zero | Token::Int | Token::Frac | Token::Exp => true,
        _ => false,
    }
}

/// Whether the byte stands for itself in a string. Then no such byte after it changes the token either.
#[tactic(auto, using(crate::proofs::PlainLaws::plain_next))]
pub(crate) fn same_token(token: Token, byte: u8) -> bool
    ensures plain { IsTrue result → is_plain byte ≡ true }
    ensures same { IsTrue result → (c : ℕ) → is_plain c ≡ true → next (token_of token) c ≡ Some (token_of token) }
    ensures inside { IsTrue result → may_end (token_of token) ≡ false }
{
    match token {
        Token::Chars => plain(byte),
        _ => false,
    }
}

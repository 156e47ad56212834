//! A reading of a value as far as some bytes have come, and one byte more.
ghost use Rattle.std.specs.Prelude.{◌≡◌, ℕ, ◌+◌, ◌<◌, List, ◌∷◌, IsTrue, true, false};
ghost use Rattle.json_span.specs.Strings.{is_plain};
ghost use Rattle.json_span.specs.Machine.{begin, after_value, step, accepts, begin_array, begin_object, First as FirstState};
ghost use Rattle.json_span.specs.Machine.{Names as NamesState, Name as NameState, InName as InNameState, Value as ValueState, Goes};
ghost use Rattle.json_span.specs.Machine.{In, Closed, Array, Object, Bracket};
ghost use Rattle.json_span.specs.Reading.{token_of, brackets, state_of, step_of, Fits, FitsTurn, HasTop, TopTurn, state_at};
ghost use Rattle.json_span.specs.declared.reading.Place.TheVariants.{First, Names};

use crate::bytes::space;
use crate::token::{Token, done, first_token, next_token, same_token};

#[derive(Clone, Copy)]
pub(crate) enum Place {
    Value,
    First,
    Names,
    Name,
    InName(Token),
    In(Token),
}

/// A place, how many levels may still be opened, how many are open, and their brackets, the innermost
/// in the lowest bit.
#[derive(Clone, Copy)]
pub(crate) struct Reading {
    pub(crate) place: Place,
    pub(crate) left: u8,
    pub(crate) depth: u8,
    pub(crate) bits: u128,
}

/// What a byte does.
#[derive(Clone, Copy)]
pub(crate) enum Turn {
    Go(Reading),
    Bad,
    Deep,
}

/// A bracket opens: an array for bit 0, an object for bit 1.
#[tactic(auto, using(crate::proofs::BitLaws::bits_grow, crate::proofs::BitLaws::bits_small))]
fn push(r: Reading, place: Place, bit: u128) -> Turn
    requires fits { Fits r }
    requires bit { bit < 2 }
    ensures fits { FitsTurn result }
    ensures top_object { place ≡ Names → bit ≡ 1 → TopTurn result }
    ensures top_array { place ≡ First → bit ≡ 0 → TopTurn result }
    ensures array { place ≡ First → bit ≡ 0 → step_of result ≡ begin_array r.left (brackets r.depth r.bits) }
    ensures object { place ≡ Names → bit ≡ 1 → step_of result ≡ begin_object r.left (brackets r.depth r.bits) }
{
    if r.left == 0 {
        Turn::Deep
    } else {
        Turn::Go(Reading {
            place,
            left: r.left - 1,
            depth: r.depth + 1,
            bits: r.bits * 2 + bit,
        })
    }
}

/// The innermost bracket closes.
#[tactic(auto, using(crate::proofs::BitLaws::bits_half))]
fn pop(r: Reading) -> Turn
    requires fits { Fits r }
    ensures fits { FitsTurn result }
    ensures top { TopTurn result }
    ensures array { (st : List Bracket) → brackets r.depth r.bits ≡ Array ∷ st → step_of result ≡ Goes (In Closed (r.left + 1) st) }
    ensures object { (st : List Bracket) → brackets r.depth r.bits ≡ Object ∷ st → step_of result ≡ Goes (In Closed (r.left + 1) st) }
{
    if r.depth == 0 {
        Turn::Bad
    } else {
        Turn::Go(Reading {
            place: Place::In(Token::Closed),
            left: r.left + 1,
            depth: r.depth - 1,
            bits: r.bits / 2,
        })
    }
}

/// The same brackets at another place.
fn go(r: Reading, place: Place) -> Turn
    requires fits { Fits r }
    ensures fits { FitsTurn result }
    ensures top { HasTop place (brackets r.depth r.bits) → TopTurn result }
    ensures goes { step_of result ≡ Goes (state_at place r.left (brackets r.depth r.bits)) }
{
    Turn::Go(Reading {
        place,
        left: r.left,
        depth: r.depth,
        bits: r.bits,
    })
}

/// The first byte of a value.
#[tactic(auto, unfolding(crate::specs::Machine::begin))]
fn begin_value(r: Reading, byte: u8) -> Turn
    requires fits { Fits r }
    ensures fits { FitsTurn result }
    ensures top { TopTurn result }
    ensures turn { step_of result ≡ begin r.left (brackets r.depth r.bits) byte }
{
    if byte == b'[' {
        push(r, Place::First, 0)
    } else if byte == b'{' {
        push(r, Place::Names, 1)
    } else {
        match first_token(byte) {
            Some(token) => go(r, Place::In(token)),
            None => Turn::Bad,
        }
    }
}

/// A byte after a value.
#[tactic(auto, unfolding(crate::specs::Machine::after_value))]
fn byte_after_value(r: Reading, byte: u8) -> Turn
    requires fits { Fits r }
    ensures fits { FitsTurn result }
    ensures top { TopTurn result }
    ensures turn { step_of result ≡ after_value (brackets r.depth r.bits) r.left byte }
{
    if r.depth == 0 {
        Turn::Bad
    } else if space(byte) {
        go(r, Place::In(Token::Closed))
    } else if r.bits % 2 == 0 {
        if byte == b',' {
            go(r, Place::Value)
        } else if byte == b']' {
            pop(r)
        } else {
            Turn::Bad
        }
    } else if byte == b',' {
        go(r, Place::Name)
    } else if byte == b'}' {
        pop(r)
    } else {
        Turn::Bad
    }
}

/// A byte where an array's first value or its closing bracket is due.
#[tactic(auto, unfolding(crate::specs::Machine::step))]
fn in_first(r: Reading, byte: u8) -> Turn
    requires fits { Fits r }
    ensures fits { FitsTurn result }
    ensures top { (st : List Bracket) → brackets r.depth r.bits ≡ Array ∷ st → TopTurn result }
    ensures turn { (st : List Bracket) → brackets r.depth r.bits ≡ Array ∷ st → step_of result ≡ step (FirstState r.left st) byte }
{
    if space(byte) {
        go(r, Place::First)
    } else if byte == b']' {
        pop(r)
    } else {
        begin_value(r, byte)
    }
}

/// A byte where an object's first name or its closing brace is due.
#[tactic(auto, unfolding(crate::specs::Machine::step))]
fn in_names(r: Reading, byte: u8) -> Turn
    requires fits { Fits r }
    ensures fits { FitsTurn result }
    ensures top { (st : List Bracket) → brackets r.depth r.bits ≡ Object ∷ st → TopTurn result }
    ensures turn { (st : List Bracket) → brackets r.depth r.bits ≡ Object ∷ st → step_of result ≡ step (NamesState r.left st) byte }
{
    if space(byte) {
        go(r, Place::Names)
    } else if byte == b'}' {
        pop(r)
    } else if byte == b'"' {
        go(r, Place::InName(Token::Chars))
    } else {
        Turn::Bad
    }
}

/// A byte where a further name of an object is due.
#[tactic(auto, unfolding(crate::specs::Machine::step))]
fn in_name(r: Reading, byte: u8) -> Turn
    requires fits { Fits r }
    ensures fits { FitsTurn result }
    ensures top { (st : List Bracket) → brackets r.depth r.bits ≡ Object ∷ st → TopTurn result }
    ensures turn { (st : List Bracket) → brackets r.depth r.bits ≡ Object ∷ st → step_of result ≡ step (NameState r.left st) byte }
{
    if space(byte) {
        go(r, Place::Name)
    } else if byte == b'"' {
        go(r, Place::InName(Token::Chars))
    } else {
        Turn::Bad
    }
}

/// A byte within a name, or after it where the colon is due.
#[tactic(auto, unfolding(crate::specs::Machine::step))]
fn in_member(r: Reading, token: Token, byte: u8) -> Turn
    requires fits { Fits r }
    ensures fits { FitsTurn result }
    ensures top { (st : List Bracket) → brackets r.depth r.bits ≡ Object ∷ st → TopTurn result }
    ensures turn { (st : List Bracket) → brackets r.depth r.bits ≡ Object ∷ st → step_of result ≡ step (InNameState (token_of token) r.left st) byte }
{
    match next_token(token, byte) {
        Some(token) => go(r, Place::InName(token)),
        None => {
            if !done(token) {
                Turn::Bad
            } else if space(byte) {
                go(r, Place::InName(Token::Closed))
            } else if byte == b':' {
                go(r, Place::Value)
            } else {
                Turn::Bad
            }
        }
    }
}

/// A byte within a string, number or literal that is a value, or after a value.
#[tactic(auto, unfolding(crate::specs::Machine::step))]
fn in_token(r: Reading, token: Token, byte: u8) -> Turn
    requires fits { Fits r }
    ensures fits { FitsTurn result }
    ensures top { TopTurn result }
    ensures turn { step_of result ≡ step (In (token_of token) r.left (brackets r.depth r.bits)) byte }
{
    match next_token(token, byte) {
        Some(token) => go(r, Place::In(token)),
        None => {
            if done(token) {
                byte_after_value(r, byte)
            } else {
                Turn::Bad
            }
        }
    }
}

/// A byte where a value is due.
#[tactic(auto, unfolding(crate::specs::Machine::step))]
fn in_value(r: Reading, byte: u8) -> Turn
    requires fits { Fits r }
    ensures fits { FitsTurn result }
    ensures top { TopTurn result }
    ensures turn { step_of result ≡ step (ValueState r.left (brackets r.depth r.bits)) byte }
{
    if space(byte) {
        go(r, Place::Value)
    } else {
        begin_value(r, byte)
    }
}

/// One byte more.
pub(crate) fn after_byte(r: Reading, byte: u8) -> Turn
    requires fits { Fits r }
    requires top { HasTop r.place (brackets r.depth r.bits) }
    ensures fits { FitsTurn result }
    ensures top { TopTurn result }
    ensures turn { step_of result ≡ step (state_of r) byte }
{
    match r.place {
        Place::In(token) => in_token(r, token, byte),
        Place::InName(token) => in_member(r, token, byte),
        Place::Value => in_value(r, byte),
        Place::First => in_first(r, byte),
        Place::Names => in_names(r, byte),
        Place::Name => in_name(r, byte),
    }
}

/// Whether the bytes so far may be a value.
pub(crate) fn may_end(r: Reading) -> bool
    ensures { result ≡ accepts (state_of r) }
{
    match r.place {
        Place::In(token) => r.depth == 0 && done(token),
        _ => false,
    }
}

/// Whether the byte stands for itself in a string. Then neither it nor any such byte after it changes the
/// reading.
#[tactic(auto, unfolding(crate::specs::Machine::step))]
pub(crate) fn stays(r: Reading, byte: u8) -> bool
    requires { HasTop r.place (brackets r.depth r.bits) }
    ensures plain { IsTrue result → is_plain byte ≡ true }
    ensures step { IsTrue result → (c : ℕ) → is_plain c ≡ true → Goes (state_of r) ≡ step (state_of r) c }
    ensures inside { IsTrue result → accepts (state_of r) ≡ false }
{
    match r.place {
        Place::In(token) => same_token(token, byte),
        Place::InName(token) => same_token(token, byte),
        _ => false,
    }
}

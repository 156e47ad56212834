//! Bytes of inputs, outputs and devices, as the scripts spell them: a word that says how, and what
//! it takes.

use std::alloc::Global;
use std::process::Abort;

/// What a test says that finds no memory.
pub(crate) const MEMORY: &str = "memory";

/// The first word of a text, and what follows the space after it.
pub(crate) fn word(text: &str) -> (&str, &str) {
    text.split_once(' ').unwrap_or((text, ""))
}

/// The number that a word spells.
pub(crate) fn number(rt: &impl Abort, word: &str) -> u64 {
    word.parse::<u64>().expect(rt, "a number")
}

// Adds what the two characters after a `%` stand for, in this row.
fn add_code(rt: &impl Abort, alloc: Global, bytes: &mut Vec<u8>, code: &str, row: u64) {
    let (letter, more) = code.split_at_checked(1).expect(rt, "two characters");
    if letter == "n" {
        let number = row.saturating_add(number(rt, more));
        let digits = format!(in alloc; "{number}").expect(rt, MEMORY);
        bytes
            .extend_from_slice(digits.as_bytes())
            .expect(rt, MEMORY);
    } else if letter == "w" {
        let number = row.saturating_add(number(rt, more));
        let binary = u32::try_from(number).expect(rt, "four bytes");
        bytes
            .extend_from_slice(&binary.to_be_bytes())
            .expect(rt, MEMORY);
    } else {
        let byte = u8::from_str_radix(code, 16).expect(rt, "two digits");
        bytes.push(byte).expect(rt, MEMORY);
    }
}

// Adds the bytes of a text, in this row.
fn add_row(rt: &impl Abort, alloc: Global, bytes: &mut Vec<u8>, text: &str, row: u64) {
    for (place, part) in text.split('%').enumerate() {
        let mut plain = part;
        if place > 0 {
            let (code, rest) = part.split_at_checked(2).expect(rt, "two characters");
            add_code(rt, alloc, bytes, code, row);
            plain = rest;
        }
        bytes.extend_from_slice(plain.as_bytes()).expect(rt, MEMORY);
    }
}

/// Adds the bytes that a script spells.
///
/// - `text TEXT`, in which `%` and two digits stand for a byte;
/// - `times COUNT TEXT`: rows of the text, so many. In it `%n` and a digit stand for the row's number from 0, and so many more, in
///   decimal; and `%w` and a digit for the same in four bytes.
pub(crate) fn add(rt: &impl Abort, alloc: Global, bytes: &mut Vec<u8>, spelled: &str) {
    let (how, rest) = word(spelled);
    if how == "text" {
        add_row(rt, alloc, bytes, rest, 0);
        return;
    }
    assert!(rt; how == "times", "{how}");
    let (count, text) = word(rest);
    for row in 0..number(rt, count) {
        add_row(rt, alloc, bytes, text, row);
    }
}

/// The bytes that a script spells.
pub(crate) fn bytes_of(rt: &impl Abort, alloc: Global, spelled: &str) -> Vec<u8> {
    let mut bytes = Vec::new(alloc);
    add(rt, alloc, &mut bytes, spelled);
    bytes
}

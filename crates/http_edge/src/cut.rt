//! A head that comes in more than one piece.
ghost use Rattle.std.specs.Prelude.{◌≡◌, ◌≤◌, ◌<◌, ◌+◌, ℕ, List, ◌++◌, IfOk, OnErr, length, take};
ghost use Rattle.std.specs.Vec.{vec_len, vec_capacity};
ghost use Rattle.http_edge.specs.Cutting.{GoesOn};
ghost use Rattle.http_edge.specs.Parts.{IsPart};

use crate::copy::{append, front};
use crate::fault::HttpWhy;
use crate::limits::MOST_HEAD;
use crate::look::{Look, look_at};
use crate::part::{HeadPart, Ran, part_of, run};
use std::alloc::{AllocError, Global};

/// What a piece brings of a head that had begun.
#[derive(Clone, Copy)]
pub enum Cut {
    /// All of the piece belongs to the head, which isn't whole.
    Open(HeadPart),
    Bad(HttpWhy),
    /// The head's end, with so many bytes of the piece.
    Whole { used: usize },
}

// Adds the bytes up to one that a parser is to judge, or as many as a head may have.
fn add_run(unread: &mut Vec<u8>, part: HeadPart, rest: &[u8]) -> Ran
    requires part { IsPart part unread.old.items }
    requires short { vec_len unread.old < MOST_HEAD }
    requires room { MOST_HEAD ≤ vec_capacity unread.old }
    ensures inside { result.used ≤ length rest.now }
    ensures items { unread.new.items ≡ unread.old.items ++ take result.used rest.now }
    ensures part { IsPart result.part unread.new.items }
    ensures short { vec_len unread.new ≤ MOST_HEAD }
    ensures room { MOST_HEAD ≤ vec_capacity unread.new }
{
    let due = front(rest, MOST_HEAD - unread.len());
    let ran = run(part, unread.len(), due);
    append(unread, &due[..ran.used]);
    ran
}

// Adds bytes of a piece to those of a head that has begun, up to the head's end, the piece's end or a
// fault.
fn read_on(
    alloc: Global,
    unread: &mut Vec<u8>,
    part: HeadPart,
    piece: &[u8],
) -> Result<Cut, AllocError>
    requires part { IsPart part unread.old.items }
    requires short { vec_len unread.old < MOST_HEAD }
    requires room { MOST_HEAD ≤ vec_capacity unread.old }
    ensures goes_on { IfOk result (GoesOn unread.old.items piece.now unread.new.items) }
    ensures added { (n : ℕ) × (unread.new.items ≡ unread.old.items ++ take n piece.now) }
    ensures room { MOST_HEAD ≤ vec_capacity unread.new }
{
    let mut now = part;
    let mut from = 0;
    'parts: loop {
        let ran = add_run(unread, now, &piece[from..]);
        from += ran.used;
        if unread.len() == MOST_HEAD {
            return Ok(Cut::Bad(HttpWhy::TooLong));
        }
        if from == piece.len() {
            return Ok(Cut::Open(ran.part));
        }
        append(unread, &piece[from..from + 1]);
        from += 1;
        match look_at(alloc, unread)? {
            Look::Open => {
                now = part_of(unread);
            }
            Look::Bad(why) => {
                return Ok(Cut::Bad(why));
            }
            Look::Whole(_) => {
                return Ok(Cut::Whole { used: from });
            }
        }
    }
}

/// Adds bytes of a piece to those of a head that has begun, up to the head's end, the piece's end or a
/// fault. A byte is looked at once, but for those at which a parser is asked: the few after a target,
/// and the one that ends the head. Where no memory was found, nothing is added.
pub fn read_cut(
    alloc: Global,
    unread: &mut Vec<u8>,
    part: HeadPart,
    piece: &[u8],
) -> Result<Cut, AllocError>
    requires part { IsPart part unread.old.items }
    requires short { vec_len unread.old < MOST_HEAD }
    requires room { MOST_HEAD ≤ vec_capacity unread.old }
    ensures goes_on { IfOk result (GoesOn unread.old.items piece.now unread.new.items) }
    ensures kept { OnErr result (unread.new.items ≡ unread.old.items) }
    ensures room { MOST_HEAD ≤ vec_capacity unread.new }
{
    let before = unread.len();
    match read_on(alloc, unread, part, piece) {
        Ok(cut) => Ok(cut),
        Err(error) => {
            unread.truncate(before);
            Err(error)
        }
    }
}

//! The text of a content, of version 2.
ghost use Rattle.std.specs.Prelude.{◌≡◌, ◌+◌, ◌*◌, ◌≤◌, [], ◌∷◌, ◌++◌, length, take, vec_capacity, All};
ghost use Rattle.std.specs.Int.{w16, w32, w64, to_be_bytes};
ghost use Rattle.spool_state.specs.Cells.{stretch_text, stretches_text, content_text, body_text};
ghost use Rattle.disk_cell.specs.Content.{HasRoomInCell};

use foundation::{overwrite, u64_at};
use known_numbers::{MOST_STRETCHES, Stretch};

/// The bytes of a stretch: its two numbers.
pub(crate) const STRETCH: usize = 16;

/// The bytes of a content of version 1.
pub(crate) const CONTENT_1: usize = 17;

/// The bytes of a content of version 2 but for its stretches.
pub(crate) const CONTENT: usize = 19;

/// The bytes of the stretches of a content at most.
pub(crate) const MOST_KNOWN: usize = STRETCH * MOST_STRETCHES;

/// The bytes after a cell's gate before the stretches: the ordinal, the length, the version, the run, the
/// cursor and the count.
const HEAD: usize = 12 + CONTENT;

/// The bytes after a cell's gate at most.
pub(crate) const MOST_BODY: usize = HEAD + MOST_KNOWN;

// The bytes before the stretches.
fn head_of(ordinal: u64, run: u32, cursor: u64, count: u16) -> [u8; HEAD]
    requires { count ≤ MOST_STRETCHES }
    ensures { result ≡ to_be_bytes w64 ordinal ++ to_be_bytes w32 (19 + 16 * count)
        ++ 2 ∷ to_be_bytes w64 run ++ to_be_bytes w64 cursor ++ to_be_bytes w16 count }
{
    let mut head = [0; HEAD];
    head[..8].copy_from_slice(&ordinal.to_be_bytes());
    head[8..12].copy_from_slice(&((CONTENT + STRETCH * usize::from(count)) as u32).to_be_bytes());
    head[12] = 2;
    head[13..21].copy_from_slice(&u64::from(run).to_be_bytes());
    head[21..29].copy_from_slice(&cursor.to_be_bytes());
    head[29..].copy_from_slice(&count.to_be_bytes());
    head
}

// The two numbers of a stretch.
fn bytes_of(stretch: Stretch) -> [u8; 16]
    ensures { result ≡ stretch_text stretch }
{
    let mut bytes = [0; 16];
    bytes[..8].copy_from_slice(&stretch.from.to_be_bytes());
    bytes[8..].copy_from_slice(&stretch.to.to_be_bytes());
    bytes
}

// Puts the stretches over the bytes from an offset on.
fn put_stretches(body: &mut [u8], at: usize, known: &[Stretch])
    requires { at + 16 * length known.now ≤ length body.old }
    ensures { take (at + 16 * length known.now) body.new ≡ take at body.old ++ stretches_text known.now }
{
    for i in 0..known.len() {
        overwrite(body, at + STRETCH * i, &bytes_of(known[i]));
    }
}

/// Puts what stands after the gate of a cell at the front of `body`, and gives how many bytes that is.
pub(crate) fn put_body(
    body: &mut [u8],
    ordinal: u64,
    run: u32,
    cursor: u64,
    known: &[Stretch],
) -> usize
    requires few { length known.now ≤ MOST_STRETCHES }
    requires room { 3871 ≤ length body.old }
    ensures len { result ≡ 31 + 16 * length known.now }
    ensures text { take result body.new ≡ body_text ordinal (content_text run cursor known.now) }
{
    overwrite(body, 0, &head_of(ordinal, run, cursor, known.len() as u16));
    put_stretches(body, HEAD, known);
    HEAD + STRETCH * known.len()
}

/// Reads so many stretches from the front of a text.
pub(crate) fn take_stretches(text: &[u8], count: usize, known: &mut Vec<Stretch>)
    requires few { count ≤ MOST_STRETCHES }
    requires text { 16 * count ≤ length text.now }
    requires none { known.old.items ≡ [] }
    requires room { MOST_STRETCHES ≤ vec_capacity known.old }
    ensures text { stretches_text known.new.items ≡ take (16 * count) text.now }
    ensures count { length known.new.items ≡ count }
    ensures fits { All HasRoomInCell known.new.items }
    ensures room { MOST_STRETCHES ≤ vec_capacity known.new }
{
    for i in 0..count {
        known.push_reserved(Stretch {
            from: u64_at(text, STRETCH * i),
            to: u64_at(text, STRETCH * i + 8),
        });
    }
}

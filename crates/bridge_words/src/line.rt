//! The lines that bridge prints.
ghost use Rattle.std.specs.Prelude.{◌≡◌, ◌++◌, OnOk, IfOk, string_bytes};
ghost use Rattle.std.specs.Fmt.{decimal};
ghost use Rattle.bridge_words.specs.Lines.{spool_line, drain_line, move_line, serve_line, origin_word, entry_line};

use event_form::{Entry, Origin};
use itoa::Buffer;
use std::alloc::{AllocError, Global};

/// How many bytes are reserved for the line of an entry: no line has more.
const MOST_LINE: usize = 112;

/// The line that says which spool was made.
pub fn spool_line(alloc: Global, slots: u32, size: u64) -> Result<String, AllocError>
    ensures { IfOk result (λ line. string_bytes line ≡ spool_line slots size) }
{
    format!(in alloc; "{slots} slots of {size} bytes\n")
}

/// The line that says how many entries were confirmed, and how many are left.
pub fn drain_line(alloc: Global, confirmed: u64, left: u64) -> Result<String, AllocError>
    ensures { IfOk result (λ line. string_bytes line ≡ drain_line confirmed left) }
{
    format!(in alloc; "{confirmed} confirmed, {left} left\n")
}

/// The line that says how many entries were moved, and how many are left.
pub fn move_line(alloc: Global, moved: u64, left: u64) -> Result<String, AllocError>
    ensures { IfOk result (λ line. string_bytes line ≡ move_line moved left) }
{
    format!(in alloc; "{moved} moved, {left} left\n")
}

/// The line that says how many connections a server served to their end, how many entries it took, how many were
/// confirmed meanwhile, and how many are left.
pub fn serve_line(
    alloc: Global,
    talks: u64,
    taken: u64,
    confirmed: u64,
    left: u64,
) -> Result<String, AllocError>
    ensures { IfOk result (λ line. string_bytes line ≡ serve_line talks taken confirmed left) }
{
    format!(in alloc; "{talks} talks, {taken} taken, {confirmed} confirmed, {left} left\n")
}

// The word for an origin.
fn origin_word(origin: Origin) -> &'static str
    ensures { result.now ≡ origin_word origin }
{
    match origin {
        Origin::Relp => "relp",
        Origin::LumberData => "pairs",
        Origin::LumberJson => "json",
        Origin::HecEvent => "event",
        Origin::HecRaw => "raw",
    }
}

// Adds a number and the text after it.
fn add_number(line: &mut String, number: u64, after: &str) -> Result<(), AllocError>
    ensures { OnOk result (string_bytes line.new ≡ string_bytes line.old ++ (decimal number ++ after.now)) }
{
    let mut digits = Buffer::new();
    line.push_str(digits.format(number))?;
    line.push_str(after)
}

// Adds the line of an entry with this number.
fn add_entry(line: &mut String, number: u64, entry: &Entry) -> Result<(), AllocError>
    ensures { OnOk result (string_bytes line.new ≡ string_bytes line.old ++ entry_line number entry.now) }
{
    add_number(line, number, " ")?;
    add_number(line, entry.conn, " ")?;
    add_number(line, entry.index, " ")?;
    add_number(line, entry.unit, " ")?;
    line.push_str(origin_word(entry.event.origin))?;
    line.push_str(" ")?;
    add_number(line, entry.event.text.bytes().len() as u64, "\n")
}

/// The line of an entry with this number: `NUMBER CONN INDEX UNIT ORIGIN LENGTH` and LF, where the length
/// is that of the event's text in bytes.
pub fn entry_line(alloc: Global, number: u64, entry: &Entry) -> Result<String, AllocError>
    ensures { IfOk result (λ line. string_bytes line ≡ entry_line number entry.now) }
{
    let mut line = String::with_capacity(alloc, MOST_LINE)?;
    add_entry(&mut line, number, entry)?;
    Ok(line)
}

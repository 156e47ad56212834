//! An entry of the source as it is moved.
ghost use Rattle.std.specs.Prelude.{◌≡◌, ◌↔◌, IsTrue};
ghost use Rattle.spool_move.specs.Moved.{connection_of, moved};
ghost use Rattle.spool_move.specs.Reading.{as_entry};

use event_form::{Entry, Event};
use spool_log::Numbered;

/// The connection number of tag 0. Connections that a spool's own senders come by have lower numbers.
const FIRST_CONNECTION: u64 = 9_223_372_036_854_775_808;

/// The connection number of the entries that are moved with this tag.
pub fn connection(tag: u32) -> u64
    ensures { result ≡ connection_of tag }
{
    FIRST_CONNECTION + u64::from(tag)
}

/// The entry as it is moved with this tag: of that connection, with its number as its index, and the same event.
pub(crate) fn moved_entry(tag: u32, one: Numbered) -> Entry
    ensures { result ≡ moved tag (as_entry one) }
{
    let Numbered { number, entry } = one;
    Entry {
        conn: connection(tag),
        index: number,
        unit: 0,
        event: entry.event,
    }
}

/// Whether the events are the same: by their origins and their texts.
pub(crate) fn is_same(one: &Event, other: &Event) -> bool
    ensures { IsTrue result ↔ (one.now ≡ other.now) }
{
    one.origin == other.origin && one.text.bytes() == other.text.bytes()
}

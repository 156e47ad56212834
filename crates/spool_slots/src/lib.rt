//! Groups of entries in a slot of the device, each of them there whole or not at all. A slot is a gate
//! (1 byte, open where it is 1), an ordinal and a first number (8 bytes each), and from offset 17 on its
//! groups: each a gate, the length of its entries' bytes and their count (4 bytes each) and the entries,
//! up to the first gate that isn't open. What a crash leaves of a slot is what it held before a call or
//! after it. A slot is read through a window of memory that its owner lends. `docs/DEVICE.md` describes the
//! layout in prose.
#![tactic(auto)]

mod append;
mod entry;
mod fault;
mod group;
mod layout;
mod mark;
mod next;
mod part;
mod pass;
mod pen;
mod scan;
mod seen;
mod slot;
mod window;

pub use append::group_need;
pub use fault::{ScanFault, SlotFault};
pub use mark::Mark;
pub use part::Part;
pub use slot::Slot;
pub use window::Window;

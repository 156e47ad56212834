//! bridge, where FILE is damaged: the word `rescue` prints the events of all slots that are sound, and of the others what stands before
//! their fault, of a FILE that every other command refuses, and changes nothing. The one contract is that of [`bridge_rescue`], the top call
//! of this word, as `bridge` is that of most others: which slots are sound, what is at fault in the others and what stands before that,
//! what is printed, which numbers between the slots are missing, and what is answered.
#![tactic(auto)]

mod before;
mod fault;
mod found;
mod gaps;
mod held;
mod layout;
mod lines;
mod looking;
mod printing;
mod rescued;
mod top;

pub use fault::{SlotFault, Why, verdict};
pub use found::{Found, placed};
pub use gaps::{Span, find_gaps};
pub use held::Held;
pub use layout::Layout;
pub use looking::{Looked, look_at_all};
pub use printing::note_of_scan;
pub use rescued::{Report, Rescued};
pub use top::{bridge_rescue, layout_of, reserve};

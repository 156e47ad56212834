//! The spool: a list of entries on a device of fixed length, the numbers of those that are known as
//! confirmed, and how often it was opened. A group of entries is there whole or not at all, whenever the power
//! fails. `docs/DEVICE.md` tells the layout in prose. Its one contract is that of `Spool`: at each moment
//! of a call what a crash leaves stands for the state before the call, or for a later stage of its change.
#![tactic(auto)]

mod changing;
mod fault;
mod making;
mod memory;
mod opening;
mod reading;
mod spool;

pub use fault::RecoverFault;
pub use making::formatting::{FormatFault, format};
pub use memory::Memory;
pub use opening::Opening;
pub use opening::recover::Refusal;
pub use reading::bookmark::Bookmark;
pub use spool::Spool;
pub use spool_answers::{ConfirmFault, Numbered, PendFault, Receipt, TakeFault};

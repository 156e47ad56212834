//! bridge, where FILE is damaged and another spool takes what is sound in it: the words `rescue --into TARGET --tag TAG` store the entries that
//! `rescue` finds into TARGET, with their texts as they are. The one contract is that of [`bridge_restore`], the top call of these words:
//! which entries are found, which of them TARGET has taken, in which form, and what is answered; and that TARGET holds at each moment what it
//! had and after that the first of these entries.
#![tactic(auto)]

mod fault;
mod fresh;
mod into;
mod restored;
mod storing;
mod top;

pub use restored::Restored;
pub use top::bridge_restore;

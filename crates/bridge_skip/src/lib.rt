//! bridge, where one pending entry is skipped: the words `skip NUMBER` print its event, and then make its number known as confirmed, so
//! that an entry which no receiver ever takes holds up the others no more. The one contract is that of [`bridge_skip`], the top call of
//! these words, as `bridge` is that of most others: what is printed, what is made known and what is answered.
#![tactic(auto)]

mod line;
mod opened;
mod printing;
mod releasing;
mod skipped;
mod top;

pub use line::event_line;
pub use skipped::Skipped;
pub use top::bridge_skip;

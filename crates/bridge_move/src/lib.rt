//! bridge, where it has two spools: the words `move TARGET TAG` move the pending entries of one into another. The one contract is that of
//! [`bridge_move`], the top call of these words, as `bridge` is that of all others: what is moved, printed and answered, and that each
//! entry stands in one of both spools at each moment, over any number of runs.
#![tactic(auto)]

mod ended;
mod law;
mod moved;
mod opening;
mod refused;
mod top;

pub use law::each_call_is_a_run;
pub use moved::Moved;
pub use top::bridge_move;

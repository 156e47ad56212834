//! When `replay` and `drain` have to end well, as definitions and lemmas: a connection over a spool (`specs/Replaying.antt`) and a
//! session that forwards what one holds (`specs/Draining.antt`) end well where no call failed and nothing that the bytes bring is
//! refused. What is said of whole commands, and of a load in memory, rests on them. There is no code.
#![tactic(auto)]

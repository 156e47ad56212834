//! The words of bridge: its commands as they stand on the command line, what is wrong with words that are none, and the
//! lines that it prints. It does nothing with them. A command is found exactly where the words are
//! one, and each text is the one that its definition has.
#![tactic(auto)]

mod command;
mod fault;
mod grammar;
mod law;
mod line;
mod need;
mod number;
mod pair;
mod reading;
mod server;
mod spelt;
mod tokens;
mod values;

pub use command::{Command, ListForm, Receiver, Relay, Server};
pub use fault::wrong_words;
pub use law::{grouping, moving, one_command, one_move, spelling};
pub use line::{drain_line, entry_line, move_line, serve_line, spool_line};
pub use need::{Need, need_of};
pub use pair::FilePath;
pub use spelt::{
    counting, formatting, forwarding, listing, loading, naming_tokens, placing, serving,
};
pub use tokens::is_token;
pub use words_faults::WordsFault;

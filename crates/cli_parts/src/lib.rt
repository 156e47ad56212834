//! What the program does around its one call: what it was called with, which options of the run are among the words, which tokens a file of
//! them has, how FILE is made and opened, whether a `format` of it goes on, what is shown of a command's progress and of FILE's health, the
//! lines on standard error, the page of help, and the exit status.
#![tactic(auto)]

mod arguments;
mod asked;
mod backlog;
mod bytes;
mod check_words;
mod confirming;
mod digits;
mod health;
mod help;
mod making;
mod memory;
mod misspelt;
mod opening;
mod piece;
mod progress;
mod proxy_words;
mod report;
mod rescue_words;
mod restore_words;
mod run_options;
mod seconds;
mod severity;
mod shown;
mod sizes;
mod skip_words;
mod standard_error;
mod starting;
mod status;
mod streams;
mod tally;
mod token_file;
mod token_lines;
mod token_words;
mod unopened;
mod wrong_option;

pub use arguments::{Arguments, NoArguments};
pub use asked::answer;
pub use backlog::{Backlog, Batch};
pub use check_words::{is_check, words_of_list};
pub use confirming::confirm;
pub use health::{Told, Waiting};
pub use help::version_day;
pub use making::make_disk;
pub use memory::keep_freed;
pub use opening::{Opening, Showing};
pub use progress::{Progress, Watched};
pub use report::{
    print_beside_usage, print_beside_wrong_option, print_check, print_ending, print_error,
    print_no_spool, print_note, print_rescue, print_restore, print_unopened,
};
pub use rescue_words::{RescueWords, rescue_of};
pub use restore_words::{RestoreWords, restore_of};
pub use run_options::{RunOptions, Taken, Untaken, take_options};
pub use shown::{Reader, Shown};
pub use sizes::with_bytes;
pub use skip_words::skip_of;
pub use standard_error::{Host, StandardError};
pub use starting::print_start;
pub use status::{Ending, exit_code};
pub use streams::hold_streams;
pub use token_file::{WithTokens, with_tokens};
pub use wrong_option::WrongOption;

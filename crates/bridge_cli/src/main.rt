//! The program: its words and its streams, FILE as the device that the words want, and the exit status. All that it does with
//! them is the one call `bridge`, and with the words of a move, of a skip or of a rescue the one call of these.
#![tactic(auto)]

mod device;
mod over;
mod program;

use cli_parts::exit_code;
use std::process::ExitCode;

fn main(rt: HostRuntime) -> ExitCode {
    let ending = program::run(&rt, &rt);
    exit_code(ending)
}

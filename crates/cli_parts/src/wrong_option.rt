//! What is wrong with the options of a run.
ghost use Rattle.std.specs.Prelude.{◌≡◌};
ghost use Rattle.cli_parts.specs.RunOptions.{wrong_text};

use crate::run_options::Flag;
use thiserror::Error;

/// Which option of a run is wrong, and why.
#[derive(Clone, Copy, PartialEq, Eq, Debug, Drop, Error)]
#[error("{}", self.text())]
pub enum WrongOption {
    /// One that has no value is given twice.
    Twice(Flag),
    /// It is given a value.
    Valued(Flag),
    /// `--idle` stands with another command than `serve`.
    IdleElsewhere,
    /// `--idle` is given twice.
    IdleTwice,
    /// `--idle` is the last of the words.
    IdleNoValue,
    /// SECONDS isn't 1 to 86,400.
    IdleRange,
    /// `--memory` stands with another command than `serve`.
    MemoryElsewhere,
    /// `--memory` is given twice.
    MemoryTwice,
    /// `--memory` is the last of the words.
    MemoryNoValue,
    /// BYTES isn't 16,777,216 to 8,589,934,592.
    MemoryRange,
    /// `--accept-proxy` stands with another command than `serve`.
    ProxyElsewhere,
    /// `--accept-proxy` is given twice.
    ProxyTwice,
    /// `--accept-proxy` is the last of the words.
    ProxyNoValue,
    /// IPS aren't one to eight addresses of IP with commas between them.
    ProxyNone,
}

impl WrongOption {
    /// The text for it: one line, without its end.
    pub fn text(self) -> &'static str
        ensures { result.now ≡ wrong_text self }
    {
        match self {
            WrongOption::Twice(Flag::Quiet) => "--quiet: given twice",
            WrongOption::Twice(Flag::Verbose) => "--verbose: given twice",
            WrongOption::Twice(Flag::LogTime) => "--log-time: given twice",
            WrongOption::Valued(Flag::Quiet) => "--quiet: takes no value",
            WrongOption::Valued(Flag::Verbose) => "--verbose: takes no value",
            WrongOption::Valued(Flag::LogTime) => "--log-time: takes no value",
            WrongOption::IdleElsewhere => "--idle: an option of serve alone, 1 to 86400 seconds",
            WrongOption::IdleTwice => "--idle: given twice; once, 1 to 86400 seconds",
            WrongOption::IdleNoValue => "--idle: no value; 1 to 86400 seconds",
            WrongOption::IdleRange => "--idle: 1 to 86400 seconds",
            WrongOption::MemoryElsewhere => {
                "--memory: an option of serve alone, 16777216 to 8589934592 bytes"
            }
            WrongOption::MemoryTwice => "--memory: given twice; once, 16777216 to 8589934592 bytes",
            WrongOption::MemoryNoValue => "--memory: no value; 16777216 to 8589934592 bytes",
            WrongOption::MemoryRange => {
                "--memory: 16777216 to 8589934592 bytes; the largest request needs the least of these"
            }
            WrongOption::ProxyElsewhere => {
                "--accept-proxy: an option of serve alone, addresses of proxies"
            }
            WrongOption::ProxyTwice => {
                "--accept-proxy: given twice; once, with commas between addresses"
            }
            WrongOption::ProxyNoValue => {
                "--accept-proxy: no value; addresses of proxies, with commas between them"
            }
            WrongOption::ProxyNone => {
                "--accept-proxy: 1 to 8 addresses of IP, with commas between them"
            }
        }
    }
}

//! The options of a run, which say how the program works and not what a command does. They stand among the command's words, and are
//! taken out of these before the command is read.
ghost use Rattle.std.specs.Prelude.{◌≡◌, ◌≤◌, ◌++◌, ◌∷◌, [], Err, IfOk, OnOk, IfErr, true, false, length, map, string_bytes};
ghost use Rattle.cli_parts.specs.declared.wrong_option.WrongOption.TheVariants.{Twice};
ghost use Rattle.cli_parts.specs.declared.wrong_option.WrongOption.{WrongOption};
ghost use Rattle.cli_parts.specs.declared.run_options.Untaken.TheVariants.{Wrong, NoMemory};
ghost use Rattle.cli_parts.specs.RunOptions.{IsNoAddresses, IsNoBytes, IsNoSeconds, IsWrong, IsWrongNext, TakesIdle, TakesMemory, TakesProxies, is_given, giving};
ghost use Rattle.cli_parts.specs.Piece.{IsTaken, TakesNext};

use crate::bytes::bytes;
use crate::piece::{Piece, piece_of};
use crate::proxy_words::proxies;
use crate::seconds::seconds;
use crate::wrong_option::WrongOption;
use edge_net::Proxies;
use std::alloc::{AllocError, Global};
use thiserror::Error;

/// The options of a run.
#[derive(Clone, Copy, PartialEq, Eq)]
pub struct RunOptions {
    /// Nothing is said of the net on standard error: `--quiet`.
    pub is_quiet: bool,
    /// It is said which number the connection of each sender has: `--verbose`.
    pub is_verbose: bool,
    /// Lines on standard error have the time before them: `--log-time`.
    pub has_time: bool,
    /// For how many seconds a sender may be silent before its connection is closed, where that is said: 1 to 86,400, by
    /// `--idle SECONDS`.
    pub idle: Option<u64>,
    /// How many bytes of memory the connections of senders may take, where that is said: 16,777,216 to 8,589,934,592, by
    /// `--memory BYTES`.
    pub memory: Option<u64>,
    /// Through which proxies senders come, where that is said: one to eight addresses, by `--accept-proxy IPS`.
    pub proxies: Option<Proxies>,
}

/// An option of a run that has no value.
#[derive(Clone, Copy, PartialEq, Eq, Debug, Drop)]
pub enum Flag {
    /// `--quiet`.
    Quiet,
    /// `--verbose`.
    Verbose,
    /// `--log-time`.
    LogTime,
}

impl RunOptions {
    // Whether the option is given, which has no value.
    fn has(self, flag: Flag) -> bool
        ensures { result ≡ is_given flag self }
    {
        match flag {
            Flag::Quiet => self.is_quiet,
            Flag::Verbose => self.is_verbose,
            Flag::LogTime => self.has_time,
        }
    }

    // These options, and that one.
    fn with(self, flag: Flag) -> RunOptions
        ensures { result ≡ giving flag self }
    {
        let mut options = self;
        match flag {
            Flag::Quiet => options.is_quiet = true,
            Flag::Verbose => options.is_verbose = true,
            Flag::LogTime => options.has_time = true,
        }
        options
    }
}

/// Why no options were taken out of words.
#[derive(Clone, Copy, PartialEq, Eq, Debug, Drop, Error)]
pub enum Untaken {
    /// One of them is wrong.
    #[error(transparent)]
    Wrong(WrongOption),
    /// No memory was found.
    #[error("no memory")]
    NoMemory,
}

impl From<AllocError> for Untaken {
    ghost from_gives = { λ _ untaken. untaken ≡ NoMemory };

    fn from(_error: AllocError) -> Untaken {
        Untaken::NoMemory
    }
}

/// A command's words, and the options of the run that stood among them.
#[derive(Drop)]
pub struct Taken {
    /// The words without the options, in their order.
    pub words: Vec<String>,
    /// The options.
    pub options: RunOptions,
}

impl Taken {
    // A copy of the word is one of the words too.
    fn keep(&mut self, alloc: Global, word: &str) -> Result<(), AllocError>
        ensures kept { OnOk result (map string_bytes self.new.words.items ≡ map string_bytes self.old.words.items ++ word.now ∷ []) }
        ensures options { self.new.options ≡ self.old.options }
    {
        let word = String::from_str(alloc, word)?;
        self.words.push(word)?;
        Ok(())
    }

    // Copies of these words are.
    fn keep_all(&mut self, alloc: Global, words: &[String]) -> Result<(), AllocError>
        ensures kept { OnOk result (map string_bytes self.new.words.items ≡ map string_bytes self.old.words.items ++ map string_bytes words.now) }
        ensures options { self.new.options ≡ self.old.options }
    {
        for word in words {
            self.keep(alloc, word.as_str())?;
        }
        Ok(())
    }

    // The option is given, which has no value. The error says that it is for the second time.
    fn take_flag(&mut self, flag: Flag) -> Result<(), WrongOption>
        ensures once { OnOk result (is_given flag self.old.options ≡ false) }
        ensures given { OnOk result (self.new.options ≡ giving flag self.old.options) }
        ensures words { self.new.words ≡ self.old.words }
        ensures wrong { IfErr result (λ wrong. (wrong ≡ Twice flag) × (is_given flag self.old.options ≡ true)) }
    {
        if self.options.has(flag) {
            return Err(WrongOption::Twice(flag));
        }
        self.options = self.options.with(flag);
        Ok(())
    }

    // Takes the value of `--idle`, among the words of the command of this name.
    fn take_idle(&mut self, name: &str, value: &str) -> Result<(), WrongOption>
        ensures idle { OnOk result (TakesIdle name.now value.now self.old.options self.new.options) }
        ensures words { self.new.words ≡ self.old.words }
        ensures wrong { IfErr result (λ wrong. IsNoSeconds wrong name.now self.old.options value.now) }
    {
        if name != "serve" {
            return Err(WrongOption::IdleElsewhere);
        }
        if self.options.idle.is_some() {
            return Err(WrongOption::IdleTwice);
        }
        let Some(seconds) = seconds(value) else {
            return Err(WrongOption::IdleRange);
        };
        self.options.idle = Some(seconds);
        Ok(())
    }

    // Takes the value of `--memory`, among the words of the command of this name.
    fn take_memory(&mut self, name: &str, value: &str) -> Result<(), WrongOption>
        ensures memory { OnOk result (TakesMemory name.now value.now self.old.options self.new.options) }
        ensures words { self.new.words ≡ self.old.words }
        ensures wrong { IfErr result (λ wrong. IsNoBytes wrong name.now self.old.options value.now) }
    {
        let is_server = name == "serve";
        if !is_server {
            return Err(WrongOption::MemoryElsewhere);
        }
        if self.options.memory.is_some() {
            return Err(WrongOption::MemoryTwice);
        }
        let Some(bytes) = bytes(value) else {
            return Err(WrongOption::MemoryRange);
        };
        self.options.memory = Some(bytes);
        Ok(())
    }

    // Takes the value of `--accept-proxy`, among the words of the command of this name.
    fn take_proxies(&mut self, name: &str, value: &str) -> Result<(), WrongOption>
        ensures proxies { OnOk result (TakesProxies name.now value.now self.old.options self.new.options) }
        ensures words { self.new.words ≡ self.old.words }
        ensures wrong { IfErr result (λ wrong. IsNoAddresses wrong name.now self.old.options value.now) }
    {
        let is_serving = name == "serve";
        if !is_serving {
            return Err(WrongOption::ProxyElsewhere);
        }
        if self.options.proxies.is_some() {
            return Err(WrongOption::ProxyTwice);
        }
        let Some(proxies) = proxies(value) else {
            return Err(WrongOption::ProxyNone);
        };
        self.options.proxies = Some(proxies);
        Ok(())
    }

    // Reads the next word of the command of this name, with the one after it where that is its value, and returns the words after these.
    fn read<'a>(
        &mut self,
        alloc: Global,
        name: &str,
        word: &str,
        more: &'a [String],
    ) -> Result<&'a [String], Untaken>
        ensures read { IfOk result (λ left. TakesNext name.now (word.now ∷ map string_bytes more.now) (map string_bytes left.now) self.old self.new) }
        ensures shorter { IfOk result (λ left. length left.now ≤ length more.now) }
        ensures wrong { (wrong : WrongOption) → result ≡ Err (Wrong wrong)
            → IsWrongNext wrong name.now self.old.options (word.now ∷ map string_bytes more.now) }
    {
        match piece_of(word) {
            Piece::IdleWith(value) => match self.take_idle(name, value) {
                Ok(()) => Ok(more),
                Err(wrong) => Err(Untaken::Wrong(wrong)),
            },
            Piece::Idle => {
                let [value, left @ ..] = more else {
                    return Err(Untaken::Wrong(WrongOption::IdleNoValue));
                };
                match self.take_idle(name, value.as_str()) {
                    Ok(()) => Ok(left),
                    Err(wrong) => Err(Untaken::Wrong(wrong)),
                }
            }
            Piece::MemoryWith(value) => match self.take_memory(name, value) {
                Ok(()) => Ok(more),
                Err(wrong) => Err(Untaken::Wrong(wrong)),
            },
            Piece::Memory => {
                let [value, left @ ..] = more else {
                    return Err(Untaken::Wrong(WrongOption::MemoryNoValue));
                };
                match self.take_memory(name, value.as_str()) {
                    Ok(()) => Ok(left),
                    Err(wrong) => Err(Untaken::Wrong(wrong)),
                }
            }
            Piece::ProxyWith(value) => match self.take_proxies(name, value) {
                Ok(()) => Ok(more),
                Err(wrong) => Err(Untaken::Wrong(wrong)),
            },
            Piece::Proxy => {
                let [value, left @ ..] = more else {
                    return Err(Untaken::Wrong(WrongOption::ProxyNoValue));
                };
                match self.take_proxies(name, value.as_str()) {
                    Ok(()) => Ok(left),
                    Err(wrong) => Err(Untaken::Wrong(wrong)),
                }
            }
            Piece::Flag(flag) => match self.take_flag(flag) {
                Ok(()) => Ok(more),
                Err(wrong) => Err(Untaken::Wrong(wrong)),
            },
            Piece::FlagWith(flag) => Err(Untaken::Wrong(WrongOption::Valued(flag))),
            Piece::Other => {
                self.keep(alloc, word)?;
                Ok(more)
            }
        }
    }
}

/// Takes the options of the run out of words, which are the name of a command and then its own words: `--quiet`, `--verbose` and
/// `--log-time`, and with `serve` `--idle SECONDS` or `--idle=SECONDS`, and `--memory` and `--accept-proxy` likewise, each once at most. What
/// is left are the other words, in their order, and all from `--` on.
///
/// The error says which is the first option that is wrong, and why, or that no memory was found.
pub fn take_options(alloc: Global, words: &[String]) -> Result<Taken, Untaken>
    ensures taken { IfOk result (λ taken. IsTaken (map string_bytes words.now) taken) }
    ensures wrong { (wrong : WrongOption) → result ≡ Err (Wrong wrong) → IsWrong wrong (map string_bytes words.now) }
{
    let mut taken = Taken {
        words: Vec::new(alloc),
        options: RunOptions {
            is_quiet: false,
            is_verbose: false,
            has_time: false,
            idle: None,
            memory: None,
            proxies: None,
        },
    };
    let [name, rest @ ..] = words else {
        return Ok(taken);
    };
    let name = name.as_str();
    taken.keep(alloc, name)?;
    let mut left = rest;
    while let [word, more @ ..] = left {
        if word.as_str() == "--" {
            taken.keep_all(alloc, left)?;
            return Ok(taken);
        }
        left = taken.read(alloc, name, word.as_str(), more)?;
    }
    Ok(taken)
}

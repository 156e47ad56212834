//! How FILE is opened.
ghost use Rattle.std.specs.Prelude.{◌≡◌, ◌↔◌, false, IfOk, IsTrue, map, string_bytes};
ghost use Rattle.edge_file.specs.declared.open_fault.Sharing.TheVariants.{Shared};
ghost use Rattle.cli_parts.specs.declared.opening.Showing.TheVariants.{Never};
ghost use Rattle.cli_parts.specs.Opening.{IsList, AreList, IsServe, AreServe};

use crate::health::Waiting;
use bridge_words::Command;
use edge_file::Sharing;
use std::alloc::{AllocError, Global};
use std::io::IsTerminal;

/// Where a command shows how far its reading of FILE is. Such a line goes to standard error, where that is a terminal.
#[derive(Clone, Copy)]
pub enum Showing {
    /// Wherever standard output goes: the command writes nothing to it before its end.
    Always,
    /// Where standard output is no terminal: the command writes to it meanwhile.
    Apart,
    /// Nowhere: nobody waits for the command's end.
    Never,
}

impl Showing {
    // Whether lines on standard error may stand beside what the command prints.
    fn is_apart(self, rt: &HostRuntime) -> bool
        ensures { self ≡ Never → result ≡ false }
    {
        match self {
            Showing::Always => true,
            Showing::Apart => !rt.stdout().is_terminal(),
            Showing::Never => false,
        }
    }

    /// Whether somebody sees how far a command is: standard error is a terminal, and what the command prints doesn't come between.
    pub fn is_seen(self, rt: &HostRuntime) -> bool
        ensures { self ≡ Never → result ≡ false }
    {
        if !self.is_apart(rt) {
            return false;
        }
        rt.stderr().is_terminal()
    }
}

/// How the words want a FILE that exists.
#[derive(Clone, Copy)]
pub struct Opening {
    /// Whether others may have it too.
    pub sharing: Sharing,
    /// Where it is shown how far its reading is.
    pub showing: Showing,
    /// Who waits for it.
    pub waiting: Waiting,
    /// Whether the words are those of `serve`, which goes on until its doors are shut.
    pub is_serving: bool,
}

// A command that lists FILE may have it beside others that do; every other one has it alone.
fn sharing_of(command: &Command) -> Sharing
    ensures shared { (result ≡ Shared) ↔ IsList command.now }
{
    match command {
        Command::List { .. } => Sharing::Shared,
        Command::Format { .. } => Sharing::Exclusive,
        Command::Replay { .. } => Sharing::Exclusive,
        Command::Drain { .. } => Sharing::Exclusive,
        Command::Load { .. } => Sharing::Exclusive,
        Command::Serve { .. } => Sharing::Exclusive,
    }
}

// One command alone serves many senders.
fn is_serving(command: &Command) -> bool
    ensures { IsTrue result ↔ IsServe command.now }
{
    matches!(command, Command::Serve { .. })
}

// A server shows nothing. A command that forwards to a place writes its line at the end, and the others write meanwhile.
fn showing_of(command: &Command) -> Showing {
    match command {
        Command::Serve { .. } => Showing::Never,
        Command::Drain { place: Some(_), .. } => Showing::Always,
        Command::Format { .. }
        | Command::List { .. }
        | Command::Replay { .. }
        | Command::Drain { place: None, .. }
        | Command::Load { .. } => Showing::Apart,
    }
}

// A command that serves acknowledges to senders, and no other one does.
fn waiting_of(command: &Command) -> Waiting {
    match command {
        Command::Serve { .. } | Command::Replay { .. } => Waiting::Senders,
        Command::Format { .. }
        | Command::List { .. }
        | Command::Drain { .. }
        | Command::Load { .. } => Waiting::Nobody,
    }
}

impl Opening {
    /// How the words want it. Those that list it may have it beside others that do.
    pub fn of(alloc: Global, words: &[String]) -> Result<Opening, AllocError>
        ensures shared { IfOk result (λ opening. (opening.sharing ≡ Shared) ↔ AreList (map string_bytes words.now)) }
        ensures serves { IfOk result (λ opening. IsTrue opening.is_serving ↔ AreServe (map string_bytes words.now)) }
    {
        match Command::of(alloc, words)? {
            Some(command) => Ok(Opening {
                sharing: sharing_of(&command),
                showing: showing_of(&command),
                waiting: waiting_of(&command),
                is_serving: is_serving(&command),
            }),
            None => Ok(Opening {
                sharing: Sharing::Exclusive,
                showing: Showing::Apart,
                waiting: Waiting::Nobody,
                is_serving: false,
            }),
        }
    }
}

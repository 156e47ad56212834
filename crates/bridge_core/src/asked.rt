//! What the words ask for.
ghost use Rattle.std.specs.Prelude.{IfOk, IfErr, map, string_bytes};
ghost use Rattle.bridge_words.specs.Words.{IsCommand};
ghost use Rattle.bridge_core.specs.Asked.{IsUnasked};

use bridge_words::Command;
use std::alloc::Global;

/// Why no command is asked for.
#[derive(Clone, Copy, PartialEq, Eq)]
pub(crate) enum Unasked {
    /// The words are no command.
    NoCommand,
    /// No memory was found for reading them.
    NoMemory,
}

/// The command for which the words ask. The error says that they are none, or that no memory was found for reading them.
pub(crate) fn asked_of(alloc: Global, words: &[String]) -> Result<Command, Unasked>
    ensures command { IfOk result (λ command. IsCommand command (map string_bytes words.now)) }
    ensures why { IfErr result (λ why. IsUnasked why (map string_bytes words.now)) }
{
    match Command::of(alloc, words) {
        Ok(Some(command)) => Ok(command),
        Ok(None) => Err(Unasked::NoCommand),
        Err(_) => Err(Unasked::NoMemory),
    }
}

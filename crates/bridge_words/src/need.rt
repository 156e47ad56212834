//! Which device the words want.
ghost use Rattle.std.specs.Prelude.{◌≡◌, ℕ, IfOk, map, string_bytes};
ghost use Rattle.bridge_words.specs.Words.{IsNeed};

use crate::Command;
use crate::pair::{FilePath, Pair};
use crate::reading::{Asked, Unread, read};
use std::alloc::{AllocError, Global};

/// Which device the words want.
#[derive(Drop)]
pub enum Need {
    /// The words are no command and move nothing, and no device is opened.
    NoCommand,
    /// The command does its work in memory.
    Nothing,
    /// A device that exists.
    Existing,
    /// A device of `len` bytes, made where there is none.
    Make { len: u64 },
    /// Two devices that exist: the words are `move TARGET TAG`, by which the pending entries of one are moved into the other, `target`,
    /// under a tag.
    Pair { target: FilePath, tag: u32 },
}

impl Command {
    ghost use Rattle.bridge_words.specs.Words.{need_for, IsSize};
    ghost use Rattle.bridge_words.specs.declared.command.Command.TheVariants.{Format};

    // Which device it wants.
    fn need(&self) -> Need
        requires { (slots size : ℕ) → self.now ≡ Format slots size → IsSize slots size }
        ensures { result ≡ need_for self.now }
    {
        match self {
            Command::Format { slots, size } => Need::Make {
                len: 12_288 + u64::from(*slots) * *size,
            },
            Command::List { .. }
            | Command::Replay { .. }
            | Command::Drain { .. }
            | Command::Serve { .. } => Need::Existing,
            Command::Load { .. } => Need::Nothing,
        }
    }
}

/// Which device the words want: those of a command, or `move TARGET TAG`, with a TARGET that is any text and a TAG of 1 to 10 decimal
/// digits, below 2^32. The error says that no memory was found to read them.
pub fn need_of(alloc: Global, words: &[String]) -> Result<Need, AllocError>
    ensures { IfOk result (IsNeed (map string_bytes words.now)) }
{
    match read(alloc, words) {
        Ok(Asked::Command(command)) => Ok(command.need()),
        Ok(Asked::Move(Pair { target, tag })) => Ok(Need::Pair { target, tag }),
        Err(Unread::Wrong(_)) => Ok(Need::NoCommand),
        Err(Unread::NoMemory) => Err(AllocError),
    }
}

//! What is wrong with words that are no command and move nothing.
ghost use Rattle.std.specs.Prelude.{◌≡◌, ◌⊎◌, Ok, Some, None, map, string_bytes};
ghost use Rattle.words_faults.specs.declared.fault.WordsFault.{WordsFault};
ghost use Rattle.bridge_words.specs.Words.{IsSomeCommand, IsSomeMove, IsNoCommand, IsNoMove};
ghost use Rattle.bridge_words.specs.Wrong.{IsWrong};

use crate::reading::{Unread, read};
use std::alloc::{AllocError, Global};
use words_faults::WordsFault;

/// What is wrong with the words, or nothing where they are a command or a move.
pub fn wrong_words(alloc: Global, words: &[String]) -> Result<Option<WordsFault>, AllocError>
    ensures none { result ≡ Ok None → IsSomeCommand (map string_bytes words.now) ⊎ IsSomeMove (map string_bytes words.now) }
    ensures some { (fault : WordsFault) → result ≡ Ok (Some fault) → IsNoCommand (map string_bytes words.now) }
    ensures no_move { (fault : WordsFault) → result ≡ Ok (Some fault) → IsNoMove (map string_bytes words.now) }
    ensures wrong { (fault : WordsFault) → result ≡ Ok (Some fault) → IsWrong fault (map string_bytes words.now) }
{
    match read(alloc, words) {
        Ok(_asked) => Ok(None),
        Err(Unread::Wrong(fault)) => Ok(Some(fault)),
        Err(Unread::NoMemory) => Err(AllocError),
    }
}

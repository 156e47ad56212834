//! The word `check`, which is no command of `bridge` itself: the program reads it, and makes another call for it.
ghost use Rattle.std.specs.Prelude.{◌≡◌, ◌∷◌, ◌↔◌, [], IfOk, IsTrue, codes, map, string_bytes};
ghost use Rattle.cli_parts.specs.CheckWords.{IsCheck};

use std::alloc::{AllocError, Global};

// The name of the command.
const CHECK: &str = "check";

/// Whether the words are `check`, and nothing else.
pub fn is_check(words: &[String]) -> bool
    ensures { IsTrue result ↔ IsCheck (map string_bytes words.now) }
{
    match words {
        [name] => name.as_str() == CHECK,
        _ => false,
    }
}

/// Whether the words begin with `check`, also where others follow.
pub(crate) fn begins_check(words: &[String]) -> bool {
    match words {
        [name, ..] => name.as_str() == CHECK,
        [] => false,
    }
}

/// The words `list`, by which a check goes on once all slots are sound: they read the register too.
pub fn words_of_list(alloc: Global) -> Result<Vec<String>, AllocError>
    ensures { IfOk result (λ words. map string_bytes words.items ≡ codes "list" ∷ []) }
{
    let mut words = Vec::new(alloc);
    words.push(String::from_str(alloc, "list")?)?;
    Ok(words)
}

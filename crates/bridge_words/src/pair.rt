//! Two spools: what the words of `move` ask for.
ghost use Rattle.std.specs.Prelude.{◌≡◌, Err, IfOk};
ghost use Rattle.words_faults.specs.declared.fault.WordsFault.{WordsFault};
ghost use Rattle.bridge_words.specs.declared.reading.Unread.TheVariants.{Wrong};
ghost use Rattle.bridge_words.specs.Values.{rows_in};
ghost use Rattle.bridge_words.specs.Words.{IsPair};
ghost use Rattle.bridge_words.specs.Wrong.{WrongMove};

use crate::reading::Unread;
use crate::values::{number_for, path_for};
use clap::ArgMatches;
use std::alloc::{AllocError, Global};
use std::marker::Model;
use words_faults::WordsFault;

/// The path of a file, as its user names it. Contracts see its bytes.
#[derive(Drop)]
pub struct FilePath {
    text: String,
}

impl Model for FilePath {
    ghost use Rattle.std.specs.Prelude.{ℕ, List, string_bytes};

    ghost Value = { List ℕ };

    ghost view = { λ path. string_bytes path.text };
}

impl FilePath {
    /// The path that a text is. An error says that no memory was found.
    pub(crate) fn of(alloc: Global, text: &str) -> Result<FilePath, AllocError>
        ensures { IfOk result (λ path. path ≡ text.now) }
    {
        Ok(FilePath {
            text: String::from_str(alloc, text)?,
        })
    }

    /// The path as a text.
    pub fn as_str(&self) -> &str
        ensures { result.now ≡ self.now }
    {
        self.text.as_str()
    }
}

/// Into which spool entries are moved, and under which tag.
#[derive(Drop)]
pub(crate) struct Pair {
    pub(crate) target: FilePath,
    pub(crate) tag: u32,
}

/// `move TARGET TAG`
pub(crate) fn pair_in(alloc: Global, matches: &ArgMatches<'_>) -> Result<Pair, Unread>
    ensures pair { IfOk result (λ pair. IsPair pair.target pair.tag (rows_in matches.now)) }
    ensures wrong { (fault : WordsFault) → result ≡ Err (Wrong fault) → WrongMove fault (rows_in matches.now) }
{
    let target = path_for(alloc, matches, "target")?;
    let tag = number_for(matches, "tag", 0, 4_294_967_295, WordsFault::Tag)?;
    Ok(Pair { target, tag })
}

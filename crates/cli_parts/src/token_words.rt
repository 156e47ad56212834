//! Where words name a file that holds tokens, and how its text takes the place of the name.
ghost use Rattle.std.specs.Prelude.{◌≡◌, ◌<◌, ◌++◌, [], IfOk, IfSome, OnOk, get_or, length, map, set, string_bytes};

use std::alloc::{AllocError, Global};

/// An option whose value a file may hold.
#[derive(Clone, Copy)]
pub(crate) struct FileOption {
    /// The option.
    pub name: &'static str,
    /// Whether `drain` has it too, beside `serve`.
    pub drains: bool,
    /// What stands before the name of the file where that is a word of its own.
    pub lone: &'static str,
    /// What stands before it in one word with the option.
    pub joined: &'static str,
    /// What stays of that where the file's text takes the name's place.
    pub kept: &'static str,
}

/// `--tokens FILE`, whose value is always a file's name.
pub(crate) const TOKENS: FileOption = FileOption {
    name: "--tokens",
    drains: false,
    lone: "",
    joined: "--tokens=",
    kept: "--tokens=",
};

/// `--out-token @FILE`.
pub(crate) const OUT_TOKEN: FileOption = FileOption {
    name: "--out-token",
    drains: true,
    lone: "@",
    joined: "--out-token=@",
    kept: "--out-token=",
};

/// Where words name a file.
#[derive(Clone, Copy)]
pub(crate) struct FileWord<'a> {
    /// Which of the words it is.
    pub at: usize,
    /// What stands before the name.
    pub before: &'static str,
    /// What stays before the file's text.
    pub kept: &'static str,
    /// The name.
    pub name: &'a str,
}

// The word at this place as a name alone, unless it is an option, before which a name is missing.
#[tactic(auto, using(crate::proofs::TokenWords::here))]
fn lone_word<'a>(words: &'a [String], at: usize, option: &FileOption) -> Option<FileWord<'a>>
    ensures within { IfSome result (λ found. found.at < length words.now) }
    ensures name { IfSome result (λ found. get_or (map string_bytes words.now) found.at [] ≡ found.before.now ++ found.name.now) }
{
    let word = words.get(at)?.as_str();
    if word.len() > 1 && word.starts_with('-') {
        return None;
    }
    let name = word.strip_prefix(option.lone)?;
    Some(FileWord {
        at,
        before: option.lone,
        kept: "",
        name,
    })
}

// Whether the option is one of the command of this name.
fn is_of(option: &FileOption, command: &str) -> bool {
    command == "serve" || (option.drains && command == "drain")
}

/// Where the words of a command that has the option first name a file by it, if they do. No word after `--` does.
#[tactic(auto, using(crate::proofs::TokenWords::here))]
pub(crate) fn file_word_in<'a>(words: &'a [String], option: &FileOption) -> Option<FileWord<'a>>
    ensures within { IfSome result (λ found. found.at < length words.now) }
    ensures name { IfSome result (λ found. get_or (map string_bytes words.now) found.at [] ≡ found.before.now ++ found.name.now) }
{
    for at in 0..words.len() {
        let word = words[at].as_str();
        if word == "--" || (at == 0 && !is_of(option, word)) {
            return None;
        }
        if word == option.name {
            return lone_word(words, at + 1, option);
        }
        if let Some(name) = word.strip_prefix(option.joined) {
            return Some(FileWord {
                at,
                before: option.joined,
                kept: option.kept,
                name,
            });
        }
    }
    None
}

// A text after what is kept of the word.
fn joined(alloc: Global, kept: &str, text: &str) -> Result<String, AllocError>
    ensures { IfOk result (λ word. string_bytes word ≡ kept.now ++ text.now) }
{
    format!(in alloc; "{kept}{text}")
}

/// The text, after what is kept there, takes the place of the word at this place.
#[tactic(auto, using(crate::proofs::TokenWords::put))]
pub(crate) fn put_text(
    alloc: Global,
    words: &mut [String],
    at: usize,
    kept: &str,
    text: &str,
) -> Result<(), AllocError>
    requires within { at < length words.now }
    ensures put { OnOk result (map string_bytes words.new ≡ set (map string_bytes words.old) at (kept.now ++ text.now)) }
    ensures count { length words.new ≡ length words.old }
{
    let word = joined(alloc, kept, text)?;
    words[at] = word;
    Ok(())
}

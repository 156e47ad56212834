//! The files of tokens that words name: of `serve --tokens FILE` the list of the tokens that it takes, and of `--out-token @FILE` the token
//! that a receiver knows. The text takes the place of the name, so that the words have the tokens themselves, and the system's list of
//! processes has none of them. No token is printed.
ghost use Rattle.std.specs.Prelude.{◌≡◌, ◌<◌, IfOk, IfSome, length};

use crate::Host;
use crate::report::{print_line, print_note};
use crate::token_lines::TokenLines;
use crate::token_words::{FileOption, OUT_TOKEN, TOKENS, file_word_in, put_text};
use bridge_words::{WordsFault, wrong_words};
use edge_net::TokenFile;
use notes::Note;
use std::alloc::{AllocError, Global};
use std::fs::{self, OpenOptions};
use std::io::{self, Read};
use std::os::unix::fs::MetadataExt;
use std::str;

/// A file of more bytes is refused.
const MOST_BYTES: u64 = 131_072;

/// Who may read a file beside its owner: its group, and all others.
const OTHERS_READ: u32 = 0o044;

/// Who may write it so.
const OTHERS_WRITE: u32 = 0o022;

// A token in the file's place, with which words are tested before it is read.
const SAMPLE: &str = "00000000-0000-0000-0000-000000000000";

/// Why a file of tokens isn't used. Standard error has said more.
enum Refused {
    /// What stands in it is no list.
    Wrong,
    /// A call on it failed.
    Unread,
    /// No memory was found.
    NoMemory,
}

impl From<AllocError> for Refused {
    fn from(_error: AllocError) -> Refused {
        Refused::NoMemory
    }
}

// The bytes of a file, or of one that has more than are taken one byte too many. What is no plain file isn't opened, since to open a pipe
// would wait for whoever writes to it.
fn bytes_of(host: Host<'_>, name: &str) -> Result<Vec<u8>, Refused> {
    match read_plain(host, name) {
        Ok(Some(bytes)) => Ok(bytes),
        Ok(None) => {
            let _ = eprintln!(host; "bridge: {name}: no plain file");
            Err(Refused::Unread)
        }
        Err(error) => {
            let _ = eprintln!(host; "bridge: {name}: {error}");
            Err(Refused::Unread)
        }
    }
}

// The bytes of a plain file, and none of what is neither that nor a folder. It is said where others than its owner may read or write it.
fn read_plain(host: Host<'_>, name: &str) -> io::Result<Option<Vec<u8>>> {
    let rt = host.rt;
    let metadata = fs::metadata(rt, name)?;
    if !metadata.is_file() && !metadata.is_dir() {
        return Ok(None);
    }
    let mut options = OpenOptions::new();
    options.read(true);
    let file = options.open(rt, name)?;
    let mode = file.metadata()?.mode();
    let mut bytes = Vec::new(rt.alloc());
    file.take(MOST_BYTES + 1).read_to_end(&mut bytes)?;
    if mode & OTHERS_READ != 0 {
        let _ = eprintln!(host; "bridge: {name}: others than its owner may read it");
    }
    if mode & OTHERS_WRITE != 0 {
        let _ = eprintln!(host; "bridge: {name}: others than its owner may write it");
    }
    Ok(Some(bytes))
}

// The tokens in the file of this name, with what is wrong with it said on standard error.
fn tokens_in(host: Host<'_>, name: &str) -> Result<TokenLines, Refused> {
    let bytes = bytes_of(host, name)?;
    if bytes.len() as u64 > MOST_BYTES {
        let _ = eprintln!(host; "bridge: {name}: more than {MOST_BYTES} bytes");
        return Err(Refused::Wrong);
    }
    let Ok(text) = str::from_utf8(&bytes) else {
        let _ = eprintln!(host; "bridge: {name}: no UTF-8");
        return Err(Refused::Wrong);
    };
    let lines = TokenLines::of(host.rt.alloc(), text)?;
    for number in &lines.wrong {
        let _ = eprintln!(host; "bridge: {name}: line {number}: neither a GUID nor a GUID and ack");
    }
    if lines.wrong.is_empty() {
        Ok(lines)
    } else {
        Err(Refused::Wrong)
    }
}

// The lines of the file of this name that `--tokens` has.
fn list_in(host: Host<'_>, name: &str) -> Result<TokenLines, Refused> {
    if name == "-" {
        print_line(
            &host,
            "--tokens: - is no FILE, and standard input isn't read",
        );
        return Err(Refused::Wrong);
    }
    tokens_in(host, name)
}

// The one token in the file of this name that `--out-token` has.
fn one_in(host: Host<'_>, name: &str) -> Result<String, Refused> {
    let lines = tokens_in(host, name)?;
    let list = lines.list.as_str();
    match list.strip_suffix("\n") {
        Some(token) if !token.contains('\n') && !token.contains(' ') => {
            let token = String::from_str(host.rt.alloc(), token)?;
            Ok(token)
        }
        _ => {
            let _ = eprintln!(host; "bridge: {name}: one GUID is wanted, and nothing else");
            Err(Refused::Wrong)
        }
    }
}

/// A file that words name, in whose name's place a sample stands.
#[derive(Drop)]
struct Named {
    /// Which of the words it is.
    at: usize,
    /// What stays before its text.
    kept: &'static str,
    name: String,
}

// The file that words name by an option, if they do. A sample of a token takes the name's place.
fn take_name(
    alloc: Global,
    words: &mut [String],
    option: &FileOption,
) -> Result<Option<Named>, AllocError>
    ensures within { IfOk result (λ named. IfSome named (λ file. file.at < length words.new)) }
    ensures count { length words.new ≡ length words.old }
{
    let Some(word) = file_word_in(words, option) else {
        return Ok(None);
    };
    let name = String::from_str(alloc, word.name)?;
    let (at, kept) = (word.at, word.kept);
    put_text(alloc, words, at, kept, SAMPLE)?;
    Ok(Some(Named { at, kept, name }))
}

// Puts the list of `--tokens` into the place of its file's name, and says where each token of it stands.
fn put_list(host: Host<'_>, words: &mut [String], list: Named) -> Result<TokenFile, Refused>
    requires within { list.at < length words.old }
    ensures count { length words.new ≡ length words.old }
{
    let alloc = host.rt.alloc();
    let Named { at, kept, name } = list;
    let lines = list_in(host, name.as_str())?;
    put_text(alloc, words, at, kept, lines.list.as_str())?;
    if wrong_words(alloc, words)? == Some(WordsFault::Tokens) {
        let _ = eprintln!(host; "bridge: {name}: no token, or more than 1000");
        return Err(Refused::Wrong);
    }
    let places = lines.places;
    Ok(TokenFile { name, places })
}

// Puts what the files hold that words name into their names' places, unless they are no command whatever these have: then none is read. It
// gives the file of `--tokens`, where one was read.
fn put_files(host: Host<'_>, words: &mut [String]) -> Result<Option<TokenFile>, Refused> {
    let alloc = host.rt.alloc();
    let list = take_name(alloc, words, &TOKENS)?;
    let out = take_name(alloc, words, &OUT_TOKEN)?;
    if (list.is_none() && out.is_none()) || wrong_words(alloc, words)?.is_some() {
        return Ok(None);
    }
    let file = match list {
        Some(list) => Some(put_list(host, words, list)?),
        None => None,
    };
    if let Some(Named { at, kept, name }) = out {
        let text = one_in(host, name.as_str())?;
        put_text(alloc, words, at, kept, text.as_str())?;
    }
    Ok(file)
}

/// Words of which none names a file of tokens.
#[derive(Drop)]
pub struct WithTokens {
    pub words: Vec<String>,
    /// The file of `--tokens`, with the line of each token, where there was one.
    pub file: Option<TokenFile>,
}

/// The words with what files hold in the places of their names, where they are those of a server with `--tokens FILE`, or of a command with
/// `--out-token @FILE`; all others stay. Where they are no command whatever the files have, none is read, and they stay no command.
///
/// A line of a file has a GUID, or a GUID and `ack`, with blanks at its ends and more than one between; or nothing, as one that begins
/// with `#`. That of `--tokens` has 1 to 1,000 tokens, and that of `--out-token` one, without `ack`; each has 131,072 bytes at most.
///
/// The error is the note with which the run ends then. Standard error has said why: each line that is wrong by its number, or why the file
/// couldn't be read. It is warned there where others than its owner may read or write it.
pub fn with_tokens(host: Host<'_>, mut words: Vec<String>) -> Result<WithTokens, Note> {
    match put_files(host, &mut words) {
        Ok(file) => Ok(WithTokens { words, file }),
        Err(Refused::Wrong) => Err(Note::Usage),
        Err(Refused::Unread) => Err(Note::DiskFault),
        Err(Refused::NoMemory) => {
            print_note(&(host, host.rt.alloc()), Note::NoMemory);
            Err(Note::NoMemory)
        }
    }
}

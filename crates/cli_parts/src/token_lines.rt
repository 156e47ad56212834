//! The lines of a file of tokens, as `--tokens` has them.
ghost use Rattle.std.specs.Prelude.{IfOk};
ghost use Rattle.cli_parts.specs.TokenPlaces.{AddsOf};

use bridge_words::is_token;
use edge_net::TokenPlace;
use std::alloc::{AllocError, Global};
use uuid::Uuid;

/// What stands in a file of tokens.
#[derive(Drop)]
pub(crate) struct TokenLines {
    /// The lines that have a token, each ended by LF.
    pub list: String,
    /// Where each of them stands.
    pub places: Vec<TokenPlace>,
    /// The numbers of the lines that have something else, the first of the file being 1.
    pub wrong: Vec<usize>,
}

// A line without the blanks at its ends, and with one space where others stand.
fn spaced(alloc: Global, line: &str) -> Result<String, AllocError> {
    let mut spaced = String::new(alloc);
    for word in line.split_ascii_whitespace() {
        if !spaced.is_empty() {
            spaced.push_str(" ")?;
        }
        spaced.push_str(word)?;
    }
    Ok(spaced)
}

// The number of the GUID that a line of a token begins with.
fn guid_in(line: &str) -> Option<u128> {
    let guid = line.strip_suffix(" ack").unwrap_or(line);
    Some(Uuid::try_parse(guid).ok()?.as_u128())
}

impl TokenLines {
    // Reads one more line, of this number. One that is blank or begins with `#` has nothing.
    fn add(&mut self, alloc: Global, number: usize, line: &str) -> Result<(), AllocError>
        ensures place { IfOk result (λ _. AddsOf number self.old.places.items self.new.places.items) }
    {
        let line = spaced(alloc, line)?;
        if line.is_empty() || line.as_str().starts_with('#') {
            return Ok(());
        }
        match guid_in(line.as_str()) {
            Some(guid) if is_token(line.as_str()) => {
                self.list.push_str(line.as_str())?;
                self.list.push_str("\n")?;
                self.places.push(TokenPlace { guid, line: number })?;
            }
            _ => self.wrong.push(number)?,
        }
        Ok(())
    }

    /// The lines of a text. The error says that no memory was found.
    pub(crate) fn of(alloc: Global, text: &str) -> Result<TokenLines, AllocError> {
        let mut lines = TokenLines {
            list: String::new(alloc),
            places: Vec::new(alloc),
            wrong: Vec::new(alloc),
        };
        for (before, line) in text.lines().enumerate() {
            lines.add(alloc, before.saturating_add(1), line)?;
        }
        Ok(lines)
    }
}

//! Which line of a file each token stands in.
ghost use Rattle.std.specs.Prelude.{◌≡◌};
ghost use Rattle.edge_net.specs.TokenPlaces.{line_of};

use crate::Matter;
use std::fmt;

/// A token that stands in a file.
#[derive(Clone, Copy)]
pub struct TokenPlace {
    /// The number of its GUID.
    pub guid: u128,
    /// The number of its line, the first of the file being 1.
    pub line: usize,
}

/// The file that tokens of senders were taken from. Nothing prints a token of it.
#[derive(Drop)]
pub struct TokenFile {
    /// The file's name, as it was called.
    pub name: String,
    /// The tokens, in the order of their lines.
    pub places: Vec<TokenPlace>,
}

/// The first line in which a token stands, if one has it.
pub(crate) fn line_of(places: &[TokenPlace], guid: u128) -> Option<usize>
    ensures { result ≡ line_of guid places.now }
{
    for place in places {
        if place.guid == guid {
            return Some(place.line);
        }
    }
    None
}

/// Where a token stands of which a line speaks, or nothing.
#[derive(Clone, Copy)]
pub(crate) struct Standing<'a> {
    place: Option<(usize, &'a str)>,
}

impl<'a> Standing<'a> {
    /// Where the token of what befell a sender stands, as far as that is known. How a connection ended says more than that.
    pub(crate) fn of(tokens: &'a Option<TokenFile>, matter: Matter) -> Standing<'a> {
        let place = match (tokens, matter) {
            (
                Some(file),
                Matter::RequestRefused {
                    line: Some(line),
                    end: None,
                    ..
                },
            ) => Some((line, file.name.as_str())),
            _ => None,
        };
        Standing { place }
    }
}

/// Words that follow what befell it.
impl fmt::Display for Standing<'_> {
    fn fmt<W: fmt::Write>(&self, f: &mut fmt::Formatter<W>) -> fmt::Result {
        match self.place {
            Some((line, name)) => write!(f, "; it stands in line {line} of {name}"),
            None => Ok(()),
        }
    }
}

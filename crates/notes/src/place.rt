//! A place of the net.
ghost use Rattle.std.specs.Prelude.{◌≡◌, IfOk};
ghost use Rattle.std.proofs.Common.{rules};
ghost use Rattle.std.specs.Cmp.Rules.{comparing};

use std::alloc::{AllocError, Global};
use std::marker::Model;

/// A place of the net that is bound or dialed, as its user names it, for example `127.0.0.1:2514`. Contracts see its bytes.
#[derive(Drop)]
pub struct Place {
    text: String,
}

impl Model for Place {
    ghost use Rattle.std.specs.Prelude.{ℕ, List, string_bytes};

    ghost Value = { List ℕ };

    ghost view = { λ place. string_bytes place.text };
}

impl Place {
    /// The place that a text names; whether there is one shows only where it is bound or dialed. An error says that no memory was
    /// found.
    pub fn of(alloc: Global, text: &str) -> Result<Place, AllocError>
        ensures { IfOk result (λ place. place ≡ text.now) }
    {
        Ok(Place {
            text: String::from_str(alloc, text)?,
        })
    }

    /// The place as a text.
    pub fn as_str(&self) -> &str
        ensures { result.now ≡ self.now }
    {
        self.text.as_str()
    }
}

impl PartialEq for Place {
    ghost use Rattle.std.specs.Str.{bytes_eq};

    ghost eq = { bytes_eq };

    ghost laws = { Prim.search (comparing, rules) };

    fn eq(&self, other: &Place) -> bool {
        self.text.as_str() == other.text.as_str()
    }
}

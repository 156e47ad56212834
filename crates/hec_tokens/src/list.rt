//! The list.
ghost use Rattle.std.specs.Prelude.{◌≡◌, []};
ghost use Rattle.std.proofs.Common.{rules};
ghost use Rattle.std.specs.Cmp.Rules.{comparing};

use std::marker::Model;

/// A token that stands in a list: the number of its GUID, and whether it uses acks.
#[derive(Clone, Copy, PartialEq, Eq)]
pub struct ListedToken {
    pub guid: u128,
    pub acks: bool,
}

/// Tokens in a list that stays in memory as long as the program runs. Contracts see the list.
#[derive(Drop)]
pub struct TokenList {
    listed: &'static [ListedToken],
}

impl Model for TokenList {
    ghost use Rattle.std.specs.Prelude.{List};
    ghost use Rattle.hec_tokens.specs.declared.list.ListedToken.{ListedToken};

    ghost Value = { List ListedToken };

    ghost view = { λ tokens. tokens.listed.now };
}

impl TokenList {
    /// No tokens. It takes no memory.
    pub fn none() -> TokenList
        ensures { result ≡ [] }
    {
        TokenList { listed: &[] }
    }

    /// These tokens, in their order. Their memory is never given back: make such a list once.
    pub fn of(tokens: Vec<ListedToken>) -> TokenList
        ensures { result ≡ tokens.items }
    {
        TokenList {
            listed: tokens.leak(),
        }
    }

    /// The same list once more, for one more who holds it. It takes no memory.
    pub fn share(&self) -> TokenList
        ensures { result ≡ self.now }
    {
        TokenList {
            listed: self.listed,
        }
    }

    /// The tokens, in their order.
    pub fn as_slice(&self) -> &[ListedToken]
        ensures { result.now ≡ self.now }
    {
        self.listed
    }
}

impl PartialEq for TokenList {
    ghost use Rattle.hec_tokens.specs.Listed.{is_same_list};

    ghost eq = { is_same_list };

    ghost laws = { Prim.search (comparing, rules) };

    fn eq(&self, other: &TokenList) -> bool {
        self.listed == other.listed
    }
}

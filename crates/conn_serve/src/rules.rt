//! The rules of a connection.
ghost use Rattle.std.specs.Prelude.{◌≡◌};

use edge_io::Proto;
use hec_tokens::TokenList;

/// By which rules a connection is served.
#[derive(PartialEq, Drop)]
pub struct Rules {
    /// The protocol that its sender speaks.
    pub proto: Proto,
    /// The token of the HTTP Event Collector whose requests are answered once they are durable.
    pub token: Option<u128>,
    /// The token whose requests are answered with an id, which the sender asks about.
    pub ack_token: Option<u128>,
    /// More tokens, each without or with acks. One that is listed with acks, or is the token with acks, uses them.
    pub listed: TokenList,
    /// Whether events of RELP that one read brings are stored as one group: 512 of them at most. Then a read of any
    /// protocol asks for at most 65,536 bytes. Else each is stored by itself, and a read asks for at most 8,192.
    pub group: bool,
}

impl Rules {
    /// The same rules once more, for one more connection. It takes no memory.
    pub fn share(&self) -> Rules
        ensures { result ≡ self.now }
    {
        Rules {
            proto: self.proto,
            token: self.token,
            ack_token: self.ack_token,
            listed: self.listed.share(),
            group: self.group,
        }
    }
}

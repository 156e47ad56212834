//! What is wrong with words that are no command and move nothing.
ghost use Rattle.std.specs.Prelude.{◌≡◌};
ghost use Rattle.words_faults.specs.Fault.{fault_text};

use thiserror::Error;

/// What is wrong with words that are no command and move nothing.
#[derive(Clone, Copy, PartialEq, Eq, Debug, Drop, Error)]
#[error("{}", self.text())]
pub enum WordsFault {
    /// No command is named.
    NoCommand,
    /// A word or an option that the command doesn't have.
    UnknownWord,
    /// A word that the command needs is missing.
    MissingWord,
    /// An option has no value.
    MissingValue,
    /// An option that takes no value has one.
    ExtraValue,
    /// An option is given twice.
    GivenTwice,
    /// SLOTS isn't 1 to 1,024.
    Slots,
    /// SIZE isn't 4,096 to 1,073,741,824.
    Size,
    /// PROTO is no protocol, also where it is the value of `--forward`.
    Proto,
    /// PLACE is empty, or the place of an option is.
    Place,
    /// NUMBER isn't below 2^31.
    Number,
    /// COUNT isn't 0 to 100,000.
    Count,
    /// TAG isn't 0 to 4,294,967,295.
    Tag,
    /// `--as` names no form.
    Form,
    /// `--token` is no GUID.
    Token,
    /// `--ack-token` is no GUID.
    AckToken,
    /// `--tokens` lists no tokens, more than 1,000, or has a line that is none.
    Tokens,
    /// `--tokens` is given beside `--token` or `--ack-token`.
    BothTokens,
    /// `--out-token` is no GUID.
    OutToken,
    /// `--out-channel` is no GUID.
    OutChannel,
    /// `--polls` isn't 1 to 1,000.
    Polls,
    /// `drain hec` or `--forward hec` without `--out-token`.
    NoOutToken,
    /// `drain hec` or `--forward hec` without `--out-channel`.
    NoOutChannel,
    /// `--workers` isn't 1 to 16.
    Workers,
    /// `--connections` isn't 1 to 1,024.
    Connections,
    /// `--connections` and `--workers` are both given.
    BothCounts,
    /// `--talks` isn't 1 to 67,108,864.
    Talks,
    /// `--talks` isn't 1 to 1,048,576, with `--connections`.
    TalksOfConnections,
    /// `serve` without a place at which connections come in.
    NoDoor,
    /// `--forward` without `--to`.
    NoTo,
    /// `--to` without `--forward`.
    NoForward,
}

impl WordsFault {
    /// The text for it: one line, without its end.
    pub fn text(self) -> &'static str
        ensures { result.now ≡ fault_text self }
    {
        match self {
            WordsFault::NoCommand => "no command is named",
            WordsFault::UnknownWord => "unknown word or option",
            WordsFault::MissingWord => "a word is missing",
            WordsFault::MissingValue => "an option has no value",
            WordsFault::ExtraValue => "an option takes no value",
            WordsFault::GivenTwice => "an option is given twice",
            WordsFault::Slots => "SLOTS: 1 to 1024",
            WordsFault::Size => "SIZE: 4096 to 1073741824",
            WordsFault::Proto => "PROTO: relp, lumberjack or hec",
            WordsFault::Place => "PLACE: empty",
            WordsFault::Number => "NUMBER: 0 to 2147483647",
            WordsFault::Count => "COUNT: 0 to 100000",
            WordsFault::Tag => "TAG: 0 to 4294967295",
            WordsFault::Form => "--as: relp, json or hec",
            WordsFault::Token => "--token: no GUID",
            WordsFault::AckToken => "--ack-token: no GUID",
            WordsFault::Tokens => "--tokens: 1 to 1000 lines, each a GUID or a GUID and ack",
            WordsFault::BothTokens => "--tokens: not beside --token or --ack-token",
            WordsFault::OutToken => "--out-token: no GUID",
            WordsFault::OutChannel => "--out-channel: no GUID",
            WordsFault::Polls => "--polls: 1 to 1000",
            WordsFault::NoOutToken => "hec: --out-token is needed",
            WordsFault::NoOutChannel => "hec: --out-channel is needed",
            WordsFault::Workers => "--workers: 1 to 16",
            WordsFault::Connections => "--connections: 1 to 1024",
            WordsFault::BothCounts => "--connections: not beside --workers",
            WordsFault::Talks => "--talks: 1 to 67108864",
            WordsFault::TalksOfConnections => "--talks: 1 to 1048576 with --connections",
            WordsFault::NoDoor => "serve: --relp, --lumberjack or --hec is needed",
            WordsFault::NoTo => "--forward: --to is needed",
            WordsFault::NoForward => "--to: --forward is needed",
        }
    }
}

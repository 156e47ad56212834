//! The commands.
ghost use Rattle.std.specs.Prelude.{◌≡◌, Ok, Some, None, map, string_bytes};
ghost use Rattle.bridge_words.specs.declared.command.Command.{Command};
ghost use Rattle.bridge_words.specs.Words.{IsCommand, IsNoCommand};

use crate::reading::{Asked, Unread, read};
use desk_access::Division;
use edge_io::Proto;
use hec_tokens::TokenList;
use notes::Place;
use std::alloc::{AllocError, Global};

/// How `list` prints an entry.
#[derive(Clone, Copy, PartialEq, Eq)]
pub enum ListForm {
    /// Its number, connection, index, unit and origin, and the length of its text.
    Plain,
    /// Its event as a text, as the body of a RELP `syslog` frame carries it.
    Text,
    /// Its event as a JSON object, as the payload of a Lumberjack `J` frame carries it.
    JsonObject,
    /// Its event as an event object of Splunk's HTTP Event Collector.
    HecObject,
}

/// What `drain` and `serve` forward to.
#[derive(Clone, Copy, PartialEq, Eq)]
pub enum Receiver {
    /// A receiver of RELP.
    Relp,
    /// A receiver of Lumberjack.
    Lumberjack,
    /// Splunk's HTTP Event Collector, with the token and on the channel of these numbers. A request of events is asked
    /// for `polls` times at most, 1 to 1,000.
    Hec {
        token: u128,
        channel: u128,
        polls: u32,
    },
}

/// Where a server forwards to.
#[derive(PartialEq, Drop)]
pub struct Relay {
    /// The protocol, with what a receiver of it is to be told.
    pub receiver: Receiver,
    /// The place, which is dialed.
    pub place: Place,
}

/// What a server is to do.
#[derive(PartialEq, Drop)]
pub struct Server {
    /// The place at which connections of RELP come in, if there is one. One of the three places is given.
    pub relp: Option<Place>,
    /// The place at which connections of Lumberjack come in.
    pub lumberjack: Option<Place>,
    /// The place at which connections of the HTTP Event Collector come in.
    pub hec: Option<Place>,
    /// The place at which those come in who ask how the spool stands.
    pub status: Option<Place>,
    /// How the numbers of connections are divided among the workers of all places: by `--connections` among 4,096, and else among 64.
    pub division: Division,
    /// How many workers serve each place, 1 to 16, or by `--connections` 1 to 1,024: as many connections are served there at once.
    pub workers: u32,
    /// How many connections each worker serves before it ends, 1 to 67,108,864, or by `--connections` 1 to 1,048,576.
    pub talks: u32,
    /// The token of the HTTP Event Collector whose requests are answered once they are durable.
    pub token: Option<u128>,
    /// The token of the HTTP Event Collector that uses acks.
    pub ack_token: Option<u128>,
    /// Tokens of the HTTP Event Collector in place of these two, each without or with acks, 1,000 at most.
    pub listed: TokenList,
    /// Whether events that came together are stored together: one pair of syncs for many of them.
    pub group: bool,
    /// Where what was stored is forwarded to, if it is.
    pub forward: Option<Relay>,
}

/// What the program is to do.
#[derive(PartialEq, Drop)]
pub enum Command {
    /// Make the device an empty spool of `slots` slots, 1 to 1,024, of `size` bytes, 4,096 to 1,073,741,824.
    Format {
        slots: u32,
        size: u64,
    },
    /// Print the entries that are not confirmed, each in this form.
    List {
        form: ListForm,
    },
    /// Store and answer the frames of the input, which are those of this protocol. The tokens are those that the HTTP
    /// Event Collector takes: one whose requests are answered once they are durable, and one that uses acks.
    Replay {
        proto: Proto,
        token: Option<u128>,
        ack_token: Option<u128>,
    },
    /// Forward the entries that are not confirmed to this receiver: at the place, which is dialed, or where there is
    /// none over the output, with the peer's replies in the input.
    Drain {
        receiver: Receiver,
        place: Option<Place>,
    },
    /// Run `count` generated events, 0 to 100,000, through a replay and a drain in memory, by this protocol. The events
    /// are those of this number, which is below 2^31.
    Load {
        proto: Proto,
        number: u32,
        count: u32,
    },
    /// Serve many connections at once, and forward meanwhile what they store.
    Serve {
        server: Server,
    },
}

impl Command {
    /// The command that the words are, or nothing where they are none, as those of `move` are, which has two devices:
    ///
    /// - `format SLOTS SIZE`, with numbers of 1 to 10 decimal digits, leading zeros allowed;
    /// - `list [--as FORM]`, with the form `relp`, `json` or `hec`;
    /// - `replay PROTO [--token GUID] [--ack-token GUID]`, with the protocol `relp`, `lumberjack` or `hec`;
    /// - `drain PROTO [PLACE] [--out-token GUID] [--out-channel GUID] [--polls N]`. `hec`
    ///   needs the token and the channel. Without `--polls` it is 60;
    /// - `load PROTO NUMBER COUNT`;
    /// - `serve [--relp PLACE] [--lumberjack PLACE] [--hec PLACE] [--status PLACE] [--workers N] [--connections N] [--talks N]
    ///   [--token GUID] [--ack-token GUID] [--tokens LIST] [--group] [--forward PROTO] [--to PLACE] [--out-token GUID]
    ///   [--out-channel GUID] [--polls N]`, with one of the first three places at least. `--workers` and `--connections` don't stand
    ///   together. Without both there are 4 workers, without `--talks` it is 67,108,864, or with `--connections` 1,048,576, and without
    ///   `--polls` 60. `--tokens` stands neither with `--token` nor with `--ack-token`. `--forward` and `--to` stand together, and
    ///   `--forward hec` needs the token and the channel that go out.
    ///
    /// A place is any text that isn't empty. LIST has 1 to 1,000 lines, each a GUID, or a GUID, one space and `ack`; LF ends a line, or
    /// CR and LF, but the last line may end with the text.
    ///
    /// Options stand in any order after the name, each once at most, as `--name value` or as `--name=value`. `--group` has no
    /// value. A word of two bytes or more that begins with `-` is an option, and no value, unless it stands after `--`. `--`
    /// may stand once after the name, and no option stands after it.
    ///
    /// The error says that no memory was found to read the words, or for the place.
    pub fn of(alloc: Global, words: &[String]) -> Result<Option<Command>, AllocError>
        ensures some { (command : Command) → result ≡ Ok (Some command) → IsCommand command (map string_bytes words.now) }
        ensures none { result ≡ Ok None → IsNoCommand (map string_bytes words.now) }
    {
        match read(alloc, words) {
            Ok(Asked::Command(command)) => Ok(Some(command)),
            Ok(Asked::Move(_)) | Err(Unread::Wrong(_)) => Ok(None),
            Err(Unread::NoMemory) => Err(AllocError),
        }
    }
}

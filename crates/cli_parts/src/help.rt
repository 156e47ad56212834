//! What is printed where words ask for help or for the version.
ghost use Rattle.std.specs.Prelude.{◌≡◌, ◌≢◌, ◌⊎◌, All, IfSome, MatchOption, None, codes, string_bytes};
ghost use Rattle.cli_parts.specs.declared.help.Question.{Question};
ghost use Rattle.cli_parts.specs.Help.{asked_by, IsFirst, IsSilent};

/// The version: the newest head of the changes that CHANGELOG.md tells of, which is their day, and a number after it where the day has
/// several.
const VERSION: &str = "bridge 2026-12-02";

/// The page of help: what FILE is, a line for each command, for each option and for each exit status. tests/pages compares it with the
/// manual.
const HELP: &str = "\
Receives log events, keeps them in FILE, acknowledges only what is durable, and forwards them.

FILE is the spool: a file of a fixed size, which `format` makes. A block device may be one.

Commands, as `bridge FILE COMMAND ..`:
  format SLOTS SIZE          makes FILE an empty spool of SLOTS slots of SIZE bytes each;
                             SIZE may end with K, M or G, as in 64M
  replay PROTO               serves standard input as one connection, and answers on standard output
  list                       prints the pending entries
  drain PROTO [PLACE]        forwards the pending entries, to PLACE or to standard output
  serve                      listens, serves many connections, and forwards meanwhile
  load PROTO NUMBER COUNT    tests itself in memory; FILE is not opened
  move TARGET TAG            moves the pending entries into TARGET, which is another spool
  skip NUMBER                prints one pending entry, and confirms it
  check                      reads FILE through, and says what is at fault; nothing is changed
  rescue [SLOTS SIZE]        prints what is sound in a FILE that is damaged, or stores it in another

PROTO is relp, lumberjack or hec. PLACE is an address or a host, a colon and a port.

Options, after the command's name:
  --as FORM             list: prints events as relp, json or hec
  --relp PLACE          serve: where connections of RELP come in
  --lumberjack PLACE    serve: where those of Lumberjack come in
  --hec PLACE           serve: where those of the HTTP Event Collector come in
  --status PLACE        serve: where HTTP asks how the spool stands: /metrics, /health
  --workers N           serve: how many connections at once at each place, 1 to 16 (4)
  --connections N       serve: the same, 1 to 1024, in place of --workers
  --talks N             serve: how many connections each worker serves, 1 to 67108864 (67108864);
                        with --connections 1 to 1048576 (1048576)
  --token GUID          replay, serve: the collector's token, answered once events are durable
  --ack-token GUID      replay, serve: the collector's token that uses ack ids
  --tokens FILE         serve: lines of such tokens in place of the two, with ack or without
  --group               serve: stores together what came together
  --forward PROTO       serve: forwards what was stored, by this protocol
  --to PLACE            serve: where it is forwarded to
  --out-token GUID      drain, serve: the token that a collector as receiver knows;
                        @FILE in place of GUID: the file that holds it
  --out-channel GUID    drain, serve: the channel of the requests to it, any GUID
  --polls N             drain, serve: how often it is asked about an ack id, 1 to 1000 (60)
  --idle SECONDS        serve: how long a sender may be silent, 1 to 86400 (600)
  --memory BYTES        serve: how much memory senders' connections may take, 16777216 to
                        8589934592 (268435456)
  --accept-proxy IPS    serve: senders come through these proxies alone, 1 to 8 addresses with
                        commas, which send the head of the PROXY protocol first
  --into TARGET         rescue: stores what it finds into TARGET, another spool
  --tag TAG             rescue: the tag of these entries there, 0 to 4294967295
  --quiet               any: standard error gets no line about the network
  --verbose             any: standard error says which connection each sender has
  --log-time            any: lines on standard error have the time before them

Exit statuses; a line on standard error says more:
   0  all was done
  64  the words are no command
  65  FILE is no spool, is damaged, or has another length
  66  what came in breaks its protocol
  67  there is no room
  68  the receiver refused, or closed
  69  the receiver never confirmed
  70  no memory
  71  a read failed
  72  a write failed
  73  a call on FILE failed, or it can't be opened
  74  the network failed
  75  what came in ended in a frame
  76  the spool was opened as often as it can be
  77  its numbers, its register or its ids are spent
  79  an entry of TARGET is another one, or the one to be skipped isn't pending
  80  FILE or TARGET is in use

The manual bridge(1) has the rest.";

/// A call of a command, which its help shows.
#[derive(Clone, Copy)]
struct Example {
    command: &'static str,
    call: &'static str,
}

// One of each command.
const EXAMPLES: [Example; 10] = [
    Example {
        command: "format",
        call: "bridge /var/lib/bridge/logs format 16 64M",
    },
    Example {
        command: "replay",
        call: "bridge /var/lib/bridge/logs replay relp < session.relp",
    },
    Example {
        command: "list",
        call: "bridge /var/lib/bridge/logs list --as json",
    },
    Example {
        command: "drain",
        call: "bridge /var/lib/bridge/logs drain relp logs.example:2514",
    },
    Example {
        command: "serve",
        call: "bridge /var/lib/bridge/logs serve --group --relp 127.0.0.1:2514 --forward relp --to logs.example:2514",
    },
    Example {
        command: "load",
        call: "bridge none load relp 0 1000",
    },
    Example {
        command: "move",
        call: "bridge /var/lib/bridge/logs move /srv/bridge/logs 0",
    },
    Example {
        command: "skip",
        call: "bridge /var/lib/bridge/logs skip 81235 >> skipped.json",
    },
    Example {
        command: "check",
        call: "bridge /var/lib/bridge/logs check",
    },
    Example {
        command: "rescue",
        call: "bridge copy rescue > rescued.json",
    },
];

/// A call of the command of this name, if it is one.
pub(crate) fn example_of(command: &str) -> Option<&'static str> {
    for example in EXAMPLES {
        if example.command == command {
            return Some(example.call);
        }
    }
    None
}

/// The version, as it is printed.
pub(crate) fn version() -> &'static str {
    VERSION
}

/// The version without the program's name.
pub fn version_day() -> &'static str {
    match VERSION.strip_prefix("bridge ") {
        Some(day) => day,
        None => VERSION,
    }
}

/// What words may ask for that are no command.
#[derive(Clone, Copy, PartialEq, Eq)]
pub(crate) enum Question {
    /// The page of help.
    Help,
    /// The version.
    Version,
}

impl Question {
    /// What is printed for it, without its last end of line.
    pub(crate) fn answer(self) -> &'static str {
        match self {
            Question::Help => HELP,
            Question::Version => VERSION,
        }
    }
}

/// What the word asks for: `--help` or `--version`.
pub(crate) fn question_of(word: &str) -> Option<Question>
    ensures { MatchOption result ((question : Question) → word.now ≢ asked_by question) (λ question. word.now ≡ asked_by question) }
{
    if word == "--help" {
        Some(Question::Help)
    } else if word == "--version" {
        Some(Question::Version)
    } else {
        None
    }
}

/// What the first of the words asks for that asks for something. No word after `--` does.
pub(crate) fn question_in(words: &[String]) -> Option<Question>
    ensures some { IfSome result (λ question. IsFirst string_bytes (asked_by question) words.now) }
    ensures none { result ≡ None → All (λ word. IsSilent (string_bytes word)) words.now ⊎ IsFirst string_bytes (codes "--") words.now }
{
    for word in words {
        if word.as_str() == "--" {
            return None;
        }
        if let Some(question) = question_of(word.as_str()) {
            return Some(question);
        }
    }
    None
}

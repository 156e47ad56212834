//! The replay: the stream of a load is served as a sender's connection.
ghost use Rattle.std.specs.Prelude.{◌≡◌, ◌≢◌, ℕ, List, length, IsTrue};
ghost use Rattle.spool_desk.specs.Alone.{alone_at, IsAt};
ghost use Rattle.desk_access.specs.Desk.{DeskState};
ghost use Rattle.conn_serve.specs.Terms.{terms_of};
ghost use Rattle.load_run.specs.Runs.{ReplaysTo, replay_as, terms};

use crate::catching::Catch;
use crate::disk::SureDisk;
use crate::feeding::Feed;
use crate::stream::TOKEN;
use conn_serve::{Rules, attend};
use edge_io::{Both, Proto};
use event_form::Talk;
use hec_tokens::TokenList;
use spool_desk::Alone;
use std::alloc::Global;

/// The number of the connection, the first one of the spool's first run.
const CONN: u64 = 1 << 32;

/// What came of the connection.
#[derive(Clone, Copy)]
pub(crate) struct Served {
    /// How it ended.
    pub(crate) talk: Talk,
    /// How many entries were taken.
    pub(crate) taken: u64,
    /// How many bytes were written.
    pub(crate) written: u64,
    /// Whether a write found no memory.
    pub(crate) starved: bool,
}

// The rules of the connection: the collector's requests are answered once they are durable, and each event of RELP is stored by itself.
fn rules(proto: Proto) -> Rules
    ensures proto { result.proto ≡ proto }
    ensures terms { terms_of result ≡ terms }
{
    Rules {
        proto,
        token: Some(TOKEN),
        ack_token: None,
        listed: TokenList::none(),
        group: false,
    }
}

/// Serves the stream as a connection over the desk.
pub(crate) fn replay(
    alloc: Global,
    proto: Proto,
    stream: Vec<u8>,
    access: &mut Alone<SureDisk>,
) -> Served
    ensures replays { (x : DeskState) → IsAt x (alone_at access.old)
        → (text : List ℕ) × (result.written ≡ length text) × ReplaysTo x (alone_at access.new) proto stream.items (replay_as result.taken result.talk text) }
    ensures read { result.talk ≢ Talk.ReadFault }
    ensures disk { result.talk ≢ Talk.DiskFault }
    ensures starved { result.talk ≡ Talk.WriteFault → IsTrue result.starved }
{
    let mut link = Both {
        source: Feed::of(stream),
        sink: Catch::of(alloc),
    };
    let attended = attend(alloc, &mut link, &rules(proto), access, CONN);
    Served {
        talk: attended.talk,
        taken: attended.taken,
        written: link.sink.taken().len() as u64,
        starved: link.sink.is_starved(),
    }
}

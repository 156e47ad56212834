//! What the words of `serve` ask for.
ghost use Rattle.std.specs.Prelude.{◌≡◌, ◌⊎◌, ◌≤◌, ◌↔◌, IsTrue, Err, Ok, IfOk, codes};
ghost use Rattle.desk_access.specs.Division.{each_of};
ghost use Rattle.words_faults.specs.declared.fault.WordsFault.{WordsFault};
ghost use Rattle.bridge_words.specs.declared.reading.Unread.TheVariants.{Wrong};
ghost use Rattle.bridge_words.specs.Values.{rows_in, division_in, workers_in, talks_in, relay_of};
ghost use Rattle.bridge_words.specs.Words.{HasDoor, AreDoors, HasRelayPolls, IsCrew, IsNamed, most_workers, relay_in};
ghost use Rattle.bridge_words.specs.Wrong.{WrongCounts, WrongDoors, WrongServe};

use crate::reading::{Unread, receiver_of};
use crate::tokens::{AskedTokens, tokens_in};
use crate::values::{flag_for, forward_in, guid_for, number_for, number_or, place_for, value_of};
use crate::{Command, Relay, Server};
use clap::ArgMatches;
use desk_access::Division;
use edge_io::Proto;
use notes::Place;
use std::alloc::Global;
use words_faults::WordsFault;

/// The places at which connections come in.
#[derive(Drop)]
struct Doors {
    relp: Option<Place>,
    lumberjack: Option<Place>,
    hec: Option<Place>,
}

impl Doors {
    // Whether one of them is given.
    fn has_one(&self) -> bool
        ensures { IsTrue result ↔ HasDoor self.now.relp self.now.lumberjack self.now.hec }
    {
        self.relp.is_some() || self.lumberjack.is_some() || self.hec.is_some()
    }
}

// The places at which connections come in: one at least.
fn doors_in(alloc: Global, matches: &ArgMatches<'_>) -> Result<Doors, Unread>
    ensures doors { IfOk result (λ doors. AreDoors doors.relp doors.lumberjack doors.hec (rows_in matches.now)) }
    ensures wrong { (fault : WordsFault) → result ≡ Err (Wrong fault) → WrongDoors fault (rows_in matches.now) }
{
    let doors = Doors {
        relp: place_for(alloc, matches, "relp")?,
        lumberjack: place_for(alloc, matches, "lumberjack")?,
        hec: place_for(alloc, matches, "hec")?,
    };
    if !doors.has_one() {
        return Err(Unread::Wrong(WordsFault::NoDoor));
    }
    Ok(doors)
}

// A protocol to forward by and a place to forward to stand together.
fn relay_of(
    proto: Option<Proto>,
    place: Option<Place>,
    token: Option<u128>,
    channel: Option<u128>,
    polls: u32,
) -> Result<Option<Relay>, WordsFault>
    ensures { result ≡ relay_of proto place token channel polls }
{
    match (proto, place) {
        (None, None) => Ok(None),
        (None, Some(_)) => Err(WordsFault::NoForward),
        (Some(_), None) => Err(WordsFault::NoTo),
        (Some(proto), Some(place)) => {
            let receiver = receiver_of(proto, token, channel, polls)?;
            Ok(Some(Relay { receiver, place }))
        },
    }
}

// Where a server forwards to.
fn relay_in(alloc: Global, matches: &ArgMatches<'_>) -> Result<Option<Relay>, Unread>
    ensures relay { IfOk result (λ relay. relay_in (rows_in matches.now) ≡ Ok relay) }
    ensures polls { IfOk result HasRelayPolls }
    ensures wrong { (fault : WordsFault) → result ≡ Err (Wrong fault) → relay_in (rows_in matches.now) ≡ Err fault }
{
    let proto = forward_in(matches)?;
    let place = place_for(alloc, matches, "to")?;
    let token = guid_for(matches, "out-token", WordsFault::OutToken)?;
    let channel = guid_for(matches, "out-channel", WordsFault::OutChannel)?;
    let polls = number_or(matches, "polls", 1, 1000, 60, WordsFault::Polls)?;
    let relay = relay_of(proto, place, token, channel, polls)?;
    Ok(relay)
}

/// How many workers serve each place, how many connections each of them, and how the numbers of these are divided.
#[derive(Clone, Copy)]
struct Crew {
    division: Division,
    workers: u32,
    talks: u32,
}

// How the numbers of connections are divided: by whether `--connections` is given, beside which `--workers` isn't.
fn division_in(matches: &ArgMatches<'_>) -> Result<Division, WordsFault>
    ensures { result ≡ division_in (rows_in matches.now) }
{
    match value_of(matches, "connections") {
        None => Ok(Division::Workers),
        Some(_) => match value_of(matches, "workers") {
            None => Ok(Division::Connections),
            Some(_) => Err(WordsFault::BothCounts),
        },
    }
}

// How many workers each place has: the value of `--connections` where that is given, or else that of `--workers`.
fn workers_in(matches: &ArgMatches<'_>, division: Division) -> Result<u32, WordsFault>
    ensures number { result ≡ workers_in division (rows_in matches.now) }
    ensures range { IfOk result (λ n. (1 ≤ n) × (n ≤ most_workers division)) }
{
    match division {
        Division::Workers => number_or(matches, "workers", 1, 16, 4, WordsFault::Workers),
        Division::Connections => {
            number_for(matches, "connections", 1, 1024, WordsFault::Connections)
        }
    }
}

// How many connections each worker serves: as many as it has numbers for, at most.
fn talks_in(matches: &ArgMatches<'_>, division: Division) -> Result<u32, WordsFault>
    ensures number { result ≡ talks_in division (rows_in matches.now) }
    ensures range { IfOk result (λ n. (1 ≤ n) × (n ≤ each_of division)) }
{
    match division {
        Division::Workers => {
            let most = 67_108_864;
            number_or(matches, "talks", 1, most, most, WordsFault::Talks)
        }
        Division::Connections => {
            let most = 1_048_576;
            number_or(
                matches,
                "talks",
                1,
                most,
                most,
                WordsFault::TalksOfConnections,
            )
        }
    }
}

// How many workers serve each place, and how many connections each of them.
fn crew_in(matches: &ArgMatches<'_>) -> Result<Crew, WordsFault>
    ensures crew { IfOk result (λ crew. IsCrew crew.division crew.workers crew.talks (rows_in matches.now)) }
    ensures wrong { (fault : WordsFault) → result ≡ Err fault
        → (division_in (rows_in matches.now) ≡ Err fault) ⊎ WrongCounts fault (rows_in matches.now) }
{
    let division = division_in(matches)?;
    let workers = workers_in(matches, division)?;
    let talks = talks_in(matches, division)?;
    Ok(Crew {
        division,
        workers,
        talks,
    })
}

/// `serve [--relp P] [--lumberjack P] [--hec P] [--status P] [--workers N] [--connections N] [--talks N] [--token G]
/// [--ack-token G] [--tokens LIST] [--group] [--forward PROTO] [--to P] [--out-token G] [--out-channel G] [--polls N]`
pub(crate) fn serve_in(alloc: Global, matches: &ArgMatches<'_>) -> Result<Command, Unread>
    ensures command { IfOk result (IsNamed (codes "serve") (rows_in matches.now)) }
    ensures wrong { (fault : WordsFault) → result ≡ Err (Wrong fault) → WrongServe fault (rows_in matches.now) }
{
    let doors = doors_in(alloc, matches)?;
    let crew = crew_in(matches)?;
    let tokens = tokens_in(alloc, matches)?;
    let forward = relay_in(alloc, matches)?;
    let status = place_for(alloc, matches, "status")?;
    let Doors {
        relp,
        lumberjack,
        hec,
    } = doors;
    let AskedTokens {
        token,
        ack_token,
        listed,
    } = tokens;
    Ok(Command::Serve {
        server: Server {
            relp,
            lumberjack,
            hec,
            status,
            division: crew.division,
            workers: crew.workers,
            talks: crew.talks,
            token,
            ack_token,
            listed,
            group: flag_for(matches, "group"),
            forward,
        },
    })
}

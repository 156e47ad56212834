//! What a server says as it begins.
use crate::help::version;
use bridge_words::{Command, Server};
use libc::types::rlimit;
use std::alloc::{AllocError, Global};

// How many descriptors a server takes beside those of its senders, at most: of 64 who ask for numbers, of the sockets that listen, of the
// receiver, of FILE and of the standard streams.
const OTHERS: u64 = 100;

// How many descriptors the process may have open. `None`: the system doesn't say.
fn most_descriptors() -> Option<u64> {
    let mut limit = rlimit {
        rlim_cur: 0,
        rlim_max: 0,
    };
    if libc::getrlimit(libc::RLIMIT_NOFILE, &mut limit) == 0 {
        Some(limit.rlim_cur)
    } else {
        None
    }
}

// The places at which senders connect, each after the protocol by which they speak there, and how many there are.
fn places_of(alloc: Global, server: &Server) -> Result<(String, u64), AllocError> {
    let mut text = String::new(alloc);
    let mut count = 0u64;
    for (name, place) in [
        ("relp", &server.relp),
        ("lumberjack", &server.lumberjack),
        ("hec", &server.hec),
    ] {
        if let Some(place) = place {
            let comma = if count > 0 { ", " } else { "" };
            let place = place.as_str();
            write!(text, "{comma}{name} at {place}")?;
            count = count.saturating_add(1);
        }
    }
    Ok((text, count))
}

/// Says which version serves which FILE, at which places senders connect by which protocol, how many at once, and how many descriptors that
/// may take of those that there may be; and in a line of its own where they are too few. Of words that ask for no server, and where no memory
/// is found, it says nothing.
pub fn print_start(rt: &(impl AllocGlobal + Eprint), file: &str, words: &[String]) {
    let alloc = rt.alloc();
    let Ok(Some(Command::Serve { server })) = Command::of(alloc, words) else {
        return;
    };
    let Ok((places, count)) = places_of(alloc, &server) else {
        return;
    };
    let each = server.workers;
    let needed = count.saturating_mul(u64::from(each)).saturating_add(OTHERS);
    let version = version();
    let most = most_descriptors().unwrap_or(u64::MAX);
    let _ = eprintln!(rt;
        "bridge: {version} serves {file}: {places}; {each} connections at once at each, {needed} descriptors of {most}"
    );
    if most < needed {
        let _ = eprintln!(rt;
            "bridge: {needed} descriptors may be needed, and there are {most}: raise the limit"
        );
    }
}

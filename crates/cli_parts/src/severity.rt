//! How grave a line on standard error is, for a journal.
use std::os::unix::fs::MetadataExt;
use std::rt::Env;
use std::{env, fs, str};

// How many bytes the name of a stream has at most: two numbers of 64 bits and a colon.
const MOST_NAMED: usize = 41;

// Lines of what goes as it should begin so, and have this: `bridge: run 7 was the last` is how a command failed.
const INFORMS: [(&str, &str); 5] = [
    ("bridge: listening on ", ""),
    ("bridge: bridge ", ""),
    ("bridge: run ", " begins: "),
    ("bridge: connection ", " is of sender "),
    ("bridge: FILE has room again", ""),
];

// A line that says that FILE isn't well ends so.
const UNTIL_WELL: &str = " until FILE is well again";

// Lines about a peer, and about room, begin so: bridge itself goes on.
const WARNS: [&str; 5] = [
    "bridge: sender ",
    "bridge: senders at ",
    "bridge: senders wait ",
    "bridge: receiver ",
    "bridge: FILE has no room",
];

// Other lines about what passes, or is served late, end so.
const WARNS_LAST: [&str; 4] = [
    "; waiting",
    "; served late",
    " were dropped here",
    ": raise the limit",
];

/// What stands before a line so that a journal knows how grave it is: `<3>` for an error, `<4>` for a warning, `<6>` for what informs
/// (sd-daemon(3)).
pub(crate) fn prefix_of(line: &str) -> &'static str {
    if line.contains(" is well again") && !line.ends_with(UNTIL_WELL) {
        return "<6>";
    }
    for (start, part) in INFORMS {
        if line.starts_with(start) && line.contains(part) {
            return "<6>";
        }
    }
    for start in WARNS {
        if line.starts_with(start) {
            return "<4>";
        }
    }
    for end in WARNS_LAST {
        if line.ends_with(end) {
            return "<4>";
        }
    }
    "<3>"
}

/// Whether standard error is the journal's: the stream of the device and the inode that JOURNAL_STREAM names (systemd.exec(5)).
pub(crate) fn is_journal(rt: &HostRuntime) -> bool {
    let mut room = [0u8; MOST_NAMED];
    let Ok(len) = rt.var("JOURNAL_STREAM", &mut room) else {
        return false;
    };
    let Ok(named) = str::from_utf8(&room[..len]) else {
        return false;
    };
    let (Some((device, inode)), Ok(own)) = (named.split_once(':'), fs::metadata(rt, "/dev/stderr"))
    else {
        return false;
    };
    device.parse::<u64>() == Ok(own.dev()) && inode.parse::<u64>() == Ok(own.ino())
}

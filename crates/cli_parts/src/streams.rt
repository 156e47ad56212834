//! The standard streams, where some of them are closed.
use std::fs::{File, OpenOptions};
use std::io;

/// Takes the numbers of the standard streams that are closed, so that FILE isn't opened as one of them: a read of
/// such a stream then gives nothing, and a write to it fails. They are taken as long as what this returns is held.
pub fn hold_streams(rt: &HostRuntime) -> [io::Result<File>; 3] {
    let mut options = OpenOptions::new();
    options.read(true);
    [
        options.open(rt, "/dev/null"),
        options.open(rt, "/dev/null"),
        options.open(rt, "/dev/null"),
    ]
}

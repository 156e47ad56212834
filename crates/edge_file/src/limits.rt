//! How long a file may be that this program writes.
// What `getrlimit` is asked for: the size of a file, on Linux.
const FILE_SIZE: i32 = 1;

/// Whether a file of so many bytes is longer than this program may write: the system would end the program at a write behind its limit,
/// also where that makes the file no longer. Where the system doesn't say, it isn't.
pub fn is_over_limit(len: u64) -> bool {
    let mut limit = libc::types::rlimit {
        rlim_cur: 0,
        rlim_max: 0,
    };
    libc::getrlimit(FILE_SIZE, &mut limit) == 0 && len > limit.rlim_cur
}

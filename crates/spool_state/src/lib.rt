//! What a device of a fixed length says of its spool: the segments of entries, the run and the
//! numbers that are known as confirmed, and which bytes stand for them. The crate has no code: the
//! crates that read and write the device promise their effect in these words. `docs/DEVICE.md` tells
//! the layout in prose.
#![tactic(auto)]

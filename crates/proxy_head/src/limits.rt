//! How a head begins, and how long it may be.

/// How a head of version 1 begins: `PROXY` and a space.
pub const LINE: [u8; 6] = [b'P', b'R', b'O', b'X', b'Y', b' '];

/// How a head of version 2 begins.
pub const SIGNATURE: [u8; 12] = [13, 10, 13, 10, 0, 13, 10, b'Q', b'U', b'I', b'T', 10];

/// How many bytes a line of version 1 has at most, its CR and LF included.
pub const MOST_LINE: usize = 107;

/// The last offset at which the CR of such a line may stand.
pub const LAST_CR: usize = 105;

/// The last offset at which its LF may stand.
pub const LAST_LF: usize = 106;

/// How many bytes of addresses and of what follows them a head of version 2 has at most.
pub const MOST_BLOCK: usize = 4_095;

/// How many bytes a head has at most: 16 and the most of a block.
pub const MOST_HEAD: usize = 4_111;

//! Parts of a list of bytes. Numbers are in network order, the greatest byte first.
ghost use Rattle.std.specs.Prelude.{◌≡◌, ◌+◌, ◌≤◌, length};
ghost use Rattle.std.specs.Int.{w32, w64, from_be_bytes, to_be_bytes};
ghost use Rattle.foundation.specs.Bytes.{part, put};

/// The number in the four bytes from offset `at` on.
pub fn u32_at(bytes: &[u8], at: usize) -> u32
    requires { at + 4 ≤ length bytes.now }
    ensures value { result ≡ from_be_bytes w32 (part at 4 bytes.now) }
    ensures bytes { to_be_bytes w32 result ≡ part at 4 bytes.now }
{
    let mut field = [0; 4];
    field.copy_from_slice(&bytes[at..at + 4]);
    u32::from_be_bytes(field)
}

/// The number in the eight bytes from offset `at` on.
pub fn u64_at(bytes: &[u8], at: usize) -> u64
    requires { at + 8 ≤ length bytes.now }
    ensures value { result ≡ from_be_bytes w64 (part at 8 bytes.now) }
    ensures bytes { to_be_bytes w64 result ≡ part at 8 bytes.now }
{
    let mut field = [0; 8];
    field.copy_from_slice(&bytes[at..at + 8]);
    u64::from_be_bytes(field)
}

/// Puts the piece over the bytes from offset `at` on.
pub fn overwrite(bytes: &mut [u8], at: usize, piece: &[u8])
    requires { at + length piece.now ≤ length bytes.old }
    ensures { bytes.new ≡ put at piece.now bytes.old }
{
    bytes[at..at + piece.len()].copy_from_slice(piece);
}

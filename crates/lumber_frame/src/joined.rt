//! The bytes of two lists, as if they were joined.
ghost use Rattle.std.specs.Prelude.{◌≡◌, ◌+◌, ◌<◌, ◌≤◌, ◌++◌, length, slice_index, slice_range};
ghost use Rattle.std.specs.Int.{from_be_bytes};
ghost use mir.Syntax.{w32};

/// The byte at a place.
pub fn byte_at(front: &[u8], back: &[u8], at: usize) -> u8
    requires { at < length front.now + length back.now }
    ensures { result ≡ slice_index (front.now ++ back.now) at }
{
    if at < front.len() {
        front[at]
    } else {
        back[at - front.len()]
    }
}

/// The number of four bytes from a place on, in network order.
pub fn number(bytes: &[u8], at: usize) -> u32
    requires { at + 4 ≤ length bytes.now }
    ensures { result ≡ from_be_bytes w32 (slice_range bytes.now at (at + 4)) }
{
    u32::from_be_bytes([bytes[at], bytes[at + 1], bytes[at + 2], bytes[at + 3]])
}

/// The number of four bytes from a place on, in network order.
pub fn number_at(front: &[u8], back: &[u8], at: usize) -> u32
    requires { at + 4 ≤ length front.now + length back.now }
    ensures { result ≡ from_be_bytes w32 (slice_range (front.now ++ back.now) at (at + 4)) }
{
    if at >= front.len() {
        return number(back, at - front.len());
    }
    u32::from_be_bytes([
        byte_at(front, back, at),
        byte_at(front, back, at + 1),
        byte_at(front, back, at + 2),
        byte_at(front, back, at + 3),
    ])
}

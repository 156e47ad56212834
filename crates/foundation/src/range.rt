//! The bytes of two lists, as if they were joined.
ghost use Rattle.std.specs.Prelude.{◌≡◌, ◌+◌, ◌≤◌, ◌++◌, length, IfOk, slice_range};

use std::alloc::{AllocError, Global};

/// A copy of the bytes from one offset up to another of `front` and then `back`. An error says that there
/// was no memory.
pub fn copy_range(
    alloc: Global,
    front: &[u8],
    back: &[u8],
    from: usize,
    to: usize,
) -> Result<Vec<u8>, AllocError>
    requires order { from ≤ to }
    requires inside { to ≤ length front.now + length back.now }
    ensures { IfOk result (λ bytes. bytes.items ≡ slice_range (front.now ++ back.now) from to) }
{
    let n = front.len();
    if to <= n {
        Vec::from_slice(alloc, &front[from..to])
    } else if from >= n {
        Vec::from_slice(alloc, &back[from - n..to - n])
    } else {
        let mut bytes = Vec::from_slice(alloc, &front[from..])?;
        bytes.extend_from_slice(&back[..to - n])?;
        Ok(bytes)
    }
}

//! How much memory a connection takes.
ghost use Rattle.std.specs.Prelude.{◌≡◌, ◌↔◌, ◌+◌, ◌≤◌, IsTrue};
ghost use Rattle.conn_serve.specs.Memory.{need_of};

// How many bytes a connection holds at most that takes little memory.
const FEW: usize = 8_192;

// The memory of a short read, and the beginning of a window.
const LEAST: u64 = 16_384;

// How many bytes the smallest events take for each byte in which they come.
const EACH: u64 = 32;

/// Whether a read asks for no more than a short one.
pub fn is_short(asked: usize) -> bool
    ensures { IsTrue result ↔ (asked ≤ 8192) }
{
    asked <= FEW
}

/// How many bytes of memory a connection takes at most where its reads ask for `asked` bytes, so many are held of it and `more` come: the
/// `whole` that one by its protocol may take, or less where these are few.
pub fn need_of(whole: u64, asked: usize, held: usize, more: usize) -> u64
    ensures { result ≡ need_of whole asked (held + more) }
{
    if asked > FEW || more > FEW || held > FEW - more {
        return whole;
    }
    LEAST + EACH * (held + more) as u64
}

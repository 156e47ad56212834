//! The line that tells what a load came to.
ghost use Rattle.std.specs.Prelude.{◌≡◌, IfOk, string_bytes};
ghost use Rattle.load_run.specs.Line.{load_line};

use crate::Loaded;
use std::alloc::{AllocError, Global};

/// The line of these numbers: `N events, I bytes in, O bytes out, C confirmed, L left` and LF.
pub fn load_line(alloc: Global, loaded: &Loaded) -> Result<String, AllocError>
    ensures { IfOk result (λ line. string_bytes line ≡ load_line loaded.now) }
{
    let Loaded {
        events,
        bytes_in,
        bytes_out,
        confirmed,
        left,
    } = *loaded;
    format!(in alloc;
        "{events} events, {bytes_in} bytes in, {bytes_out} bytes out, {confirmed} confirmed, {left} left\n"
    )
}

//! The frames that open and close a session.
ghost use Rattle.std.specs.Prelude.{◌≡◌, ◌<◌, ◌≤◌, ◌^◌, length, IfOk};
ghost use Rattle.relp_sender.specs.Texts.{txnr_of, open_text, close_text};

use event_form::Blob;
use relp_frame::write_parts;
use std::alloc::{AllocError, Global};

/// The transaction number of the frame of the entry at this place.
pub(crate) fn txnr_of(place: u64) -> u32
    requires { place ≤ 2 ^ 63 }
    ensures { result ≡ txnr_of place }
{
    ((place + 1) % 999_999_999 + 1) as u32
}

/// The frame that opens the session.
#[tactic(auto, unfolding(crate::specs::Texts::open_text))]
pub(crate) fn open_text(alloc: Global) -> Result<Blob, AllocError>
    ensures value { IfOk result (λ text. text ≡ open_text) }
    ensures some { IfOk result (λ text. 0 < length text) }
{
    let mut out = Vec::new(alloc);
    write_parts(
        1,
        b"open",
        b"relp_version=0\nrelp_software=bridge,1,local\ncommands=syslog",
        &mut out,
    )?;
    Ok(Blob::of(out))
}

/// The frame that closes the session after so many entries.
#[tactic(auto, unfolding(crate::specs::Texts::close_text))]
pub(crate) fn close_text(alloc: Global, place: u64) -> Result<Blob, AllocError>
    requires { place ≤ 2 ^ 63 }
    ensures value { IfOk result (λ text. text ≡ close_text place) }
    ensures some { IfOk result (λ text. 0 < length text) }
{
    let mut out = Vec::new(alloc);
    write_parts(txnr_of(place), b"close", b"", &mut out)?;
    Ok(Blob::of(out))
}

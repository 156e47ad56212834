//! Lumberjack, version 2, as a session sends it.
ghost use Rattle.std.specs.Prelude.{◌≡◌, true};
ghost use Rattle.lumber_sender.specs.Sender.{extent, given};
ghost use Rattle.lumber_sender.specs.Turns.{spent};
ghost use Rattle.forward_core.specs.Lumber.{HasSent, lumberjack};
ghost use Rattle.forward_core.specs.Outlet.{Ended};
ghost use Rattle.forward_core.specs.Settings.{unset};

use crate::outgoing::Outgoing;
use event_form::{Entry, Turn};
use lumber_sender::LumberSender;
use std::alloc::AllocError;

impl Outgoing for LumberSender {
    ghost has_sent = { HasSent };

    ghost ends = { λ settings entries bytes out told also sent. Ended lumberjack entries bytes out told also sent };

    ghost hints = { λ bytes. ⊥ };

    ghost settings = { λ s. unset };

    ghost first = { λ s. s.first };

    ghost given = { given };

    ghost told = { λ s. s.told };

    ghost finished = { λ s. s.finished ≡ true };

    ghost asked = { λ s. s.asked ≡ true };

    ghost extent = { extent };

    ghost spent = { spent };

    fn give(&mut self, number: u64, entries: Vec<Entry>) {
        LumberSender::give(self, number, entries)
    }

    fn finish(&mut self) {
        LumberSender::finish(self)
    }

    fn feed(&mut self, piece: &[u8]) -> Result<(), AllocError> {
        LumberSender::feed(self, piece)
    }

    fn turn(&mut self) -> Result<Turn, AllocError> {
        LumberSender::turn(self)
    }
}

//! RELP as a session sends it.
ghost use Rattle.std.specs.Prelude.{◌≡◌, ◌+◌, length, true};
ghost use Rattle.relp_sender.specs.Sender.{given};
ghost use Rattle.relp_sender.specs.Spending.{spent};
ghost use Rattle.forward_core.specs.Outlet.{Ended};
ghost use Rattle.forward_core.specs.Relp.{HasSent, Hints, relp};
ghost use Rattle.forward_core.specs.Settings.{unset};

use crate::outgoing::Outgoing;
use event_form::{Entry, Turn};
use relp_sender::RelpSender;
use std::alloc::AllocError;

impl Outgoing for RelpSender {
    ghost has_sent = { HasSent };

    ghost ends = { λ settings entries bytes out told also sent. Ended relp entries bytes out told also sent };

    ghost hints = { Hints };

    ghost settings = { λ s. unset };

    ghost first = { λ s. s.first };

    ghost given = { given };

    ghost told = { λ s. s.told };

    ghost finished = { λ s. s.finished ≡ true };

    ghost asked = { λ s. s.asked ≡ true };

    ghost extent = { λ s. s.reader.at + length s.reader.rest };

    ghost spent = { spent };

    fn give(&mut self, number: u64, entries: Vec<Entry>) {
        RelpSender::give(self, number, entries)
    }

    fn finish(&mut self) {
        RelpSender::finish(self)
    }

    fn feed(&mut self, piece: &[u8]) -> Result<(), AllocError> {
        RelpSender::feed(self, piece)
    }

    fn turn(&mut self) -> Result<Turn, AllocError> {
        RelpSender::turn(self)
    }
}

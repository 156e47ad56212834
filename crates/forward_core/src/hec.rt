//! Splunk's collector as a session sends to it.
ghost use Rattle.std.specs.Prelude.{◌≡◌, true};
ghost use Rattle.hec_sender.specs.Sender.{extent, given};
ghost use Rattle.hec_sender.specs.Turns.{spent};
ghost use Rattle.forward_core.specs.Hec.{HasSent, collector, settings_of};
ghost use Rattle.forward_core.specs.Outlet.{Ended};

use crate::outgoing::Outgoing;
use event_form::{Entry, Turn};
use hec_sender::HecSender;
use std::alloc::AllocError;

impl Outgoing for HecSender {
    ghost has_sent = { HasSent };

    ghost ends = { λ settings entries bytes out told also sent. Ended (collector settings) entries bytes out told also sent };

    ghost hints = { λ bytes. ⊥ };

    ghost settings = { settings_of };

    ghost first = { λ s. s.first };

    ghost given = { given };

    ghost told = { λ s. s.done };

    ghost finished = { λ s. s.finished ≡ true };

    ghost asked = { λ s. s.asked ≡ true };

    ghost extent = { extent };

    ghost spent = { spent };

    fn give(&mut self, number: u64, entries: Vec<Entry>) {
        HecSender::give(self, number, entries)
    }

    fn finish(&mut self) {
        HecSender::finish(self)
    }

    fn feed(&mut self, piece: &[u8]) -> Result<(), AllocError> {
        HecSender::feed(self, piece)
    }

    fn turn(&mut self) -> Result<Turn, AllocError> {
        HecSender::turn(self)
    }
}

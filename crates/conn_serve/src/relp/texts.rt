//! The texts of a connection.
ghost use Rattle.std.specs.Prelude.{◌≡◌, OnOk};
ghost use Rattle.relp_session.specs.Answer.{hint};
ghost use Rattle.relp_session.specs.Row.{answer_text};

use relp_session::{RelpActRef, write_answer, write_hint};
use std::alloc::{AllocError, Global};

/// The memory for the answers to frames that store nothing, and for the hint. Each of them uses it again.
#[derive(Drop)]
pub struct Texts {
    /// The answer that was spelled last.
    pub answer: Vec<u8>,
}

impl Texts {
    /// It takes no memory.
    pub fn new(alloc: Global) -> Texts {
        Texts {
            answer: Vec::new(alloc),
        }
    }

    /// Spells the text by which an act is answered.
    pub fn spell(&mut self, act: RelpActRef<'_>) -> Result<(), AllocError>
        ensures { OnOk result (self.new.answer.items ≡ answer_text act.entry) }
    {
        self.answer.clear();
        write_answer(act, &mut self.answer)
    }

    /// Spells the hint that the connection ends.
    pub fn spell_hint(&mut self) -> Result<(), AllocError>
        ensures { OnOk result (self.new.answer.items ≡ hint) }
    {
        self.answer.clear();
        write_hint(&mut self.answer)
    }
}

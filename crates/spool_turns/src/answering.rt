//! Letters that are answered under the lock.
ghost use Rattle.std.specs.Prelude.{◌≡◌, ◌⊎◌, ◌+◌, ◌^◌, ◌<◌, ◌≤◌, true, false, [], ◌++◌, length, take, reverse, All};
ghost use Rattle.std.specs.Vec.{vec_len, vec_capacity};
ghost use Rattle.event_form.specs.Entry.{IsEntry};
ghost use Rattle.spool_desk.specs.Fitting.{FitsInRoom};

use crate::joint::gather;
use crate::letter::{Answer, Letter};
use crate::naming::Naming;
use crate::shared::Shared;
use crate::turn::Turn;
use desk_access::Access;
use edge_disk::Disk;
use event_form::Entry;
use spool_answers::{Receipt, TakeFault};
use spool_desk::Alone;
use std::marker::{Brand, PhantomData};
use std::sync::Wait;

// How many of the entries are taken alone: all of them, or where a front is allowed those that have room.
fn count_of<D: Disk>(alone: &Alone<D>, entries: &[Entry], front: bool) -> usize
    requires some { 0 < length entries.now }
    requires few { length entries.now < 2 ^ 32 }
    requires limits { All IsEntry entries.now }

    ensures within { (0 < result) × (result ≤ length entries.now) }
    ensures whole { front ≡ false → result ≡ length entries.now }
    ensures fits { front ≡ true → (result ≡ 1) ⊎ FitsInRoom alone.now.desk.spool.doubt alone.now.desk.spool.memory (take result entries.now) }
{
    if front {
        alone.fitting(entries)
    } else {
        entries.len()
    }
}

impl<D: Disk, J: Naming> Turn<D, J> {
    /// Takes what a pass handed in, or a front of it where that is allowed, and answers its letter.
    fn answer<R: Wait>(&mut self, rt: &R, desk: &Shared<D, J>, letter: Letter<J>) -> Answer<D, J>
        ensures { result ≡ letter }
    {
        let Letter {
            mut seat,
            number,
            entries,
            front,
            of,
        } = letter;
        let all: &[Entry] = &entries;
        let count = count_of(&self.alone, all, front);
        let taken = &all[..count];
        let answer = self.alone.take(taken);
        desk.journal
            .lock(rt)
            .enter::<Brand, &[Entry], Result<Receipt, TakeFault>>(
                &desk.table.shared,
                &desk.twins.shared,
                &mut self.alone,
                &mut self.twin,
                &mut seat,
                &taken,
                &answer,
            );
        Answer {
            seat,
            number,
            entries,
            count,
            answer,
            of,
            over: PhantomData,
        }
    }

    // Answers the last letters: those whose entries have room as one group together, or else the last one.
    fn answer_last<R: Wait>(
        &mut self,
        rt: &R,
        desk: &Shared<D, J>,
        letters: &mut Vec<Letter<J>>,
        answers: &mut Vec<Answer<D, J>>,
    )
        requires grouped { J.began.grouped ≡ true }
        requires some { 0 < vec_len letters.old }
        requires room { vec_len answers.old + vec_len letters.old ≤ vec_capacity answers.old }

        ensures answers { answers.new.items ++ reverse letters.new.items ≡ answers.old.items ++ reverse letters.old.items }
        ensures fewer { vec_len letters.new < vec_len letters.old }
        ensures room { vec_len answers.new + vec_len letters.new ≤ vec_capacity answers.new }
        ensures capacity { (vec_capacity answers.new ≡ vec_capacity answers.old) × (vec_capacity letters.new ≡ vec_capacity letters.old) }
    {
        let Some(group) = gather(&self.alone, letters) else {
            let letter = letters.take_last();
            let answer = self.answer(rt, desk, letter);
            answers.push_reserved(answer);
            return;
        };
        let (before, answer) = group.store(&mut self.alone);
        desk.journal.lock(rt).answer_group(
            &desk.table.shared,
            &desk.twins.shared,
            &mut self.alone,
            &mut self.twin,
            before,
            answer,
            group,
            answers,
        );
    }

    /// Stores what the letters bring, and answers them in their order. Letters whose entries have room together are stored as one group,
    /// in one change of the disk.
    pub(crate) fn answer_all<R: Wait>(
        &mut self,
        rt: &R,
        desk: &Shared<D, J>,
        letters: &mut Vec<Letter<J>>,
        answers: &mut Vec<Answer<D, J>>,
    )
        requires grouped { J.began.grouped ≡ true }
        requires room { vec_len answers.old + vec_len letters.old ≤ vec_capacity answers.old }

        ensures answers { answers.new.items ≡ answers.old.items ++ letters.old.items }
        ensures none { letters.new.items ≡ [] }
        ensures capacity { (vec_capacity answers.new ≡ vec_capacity answers.old) × (vec_capacity letters.new ≡ vec_capacity letters.old) }
    {
        letters.reverse();
        while !letters.is_empty() {
            self.answer_last(rt, desk, letters, answers);
        }
    }
}

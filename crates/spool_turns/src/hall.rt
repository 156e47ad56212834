//! Where callers leave what is to be stored, and find the answers.
ghost use Rattle.std.specs.Prelude.{◌≡◌, ◌<◌, ◌≤◌, vec_len, IfOk, IfSome};
ghost use Rattle.std.specs.Vec.{vec_capacity};

use crate::letter::{Answer, Letter};
use crate::naming::Naming;
use edge_disk::Disk;
use std::alloc::{AllocError, Global};
use std::sync::{Condvar, Mutex, Wait};

/// What the caller that leads works with: places for the letters that it answers and for the answers, each with room for one of every pass.
/// There is one tray, and who has it leads.
#[derive(Drop)]
pub(crate) struct Tray<D: Disk, J: Naming> {
    pub(crate) letters: Vec<Letter<J>>,
    pub(crate) answers: Vec<Answer<D, J>>,
    ghost letters_have_room: { J.seats ≤ vec_capacity letters },
    ghost answers_have_room: { J.seats ≤ vec_capacity answers },
    ghost none_answered: { vec_len answers ≡ 0 },
}

/// What lies in the hall: the tray where nobody leads, and at the place of each pass what it handed in and what came back.
#[derive(Drop)]
struct Waiting<D: Disk, J: Naming> {
    tray: Option<Tray<D, J>>,
    letters: Vec<Option<Letter<J>>>,
    answers: Vec<Option<Answer<D, J>>>,
    ghost letters_are: { vec_len letters ≡ J.seats },
    ghost answers_are: { vec_len answers ≡ J.seats },
}

impl<D: Disk, J: Naming> Waiting<D, J> {
    // Leaves the letter at its place.
    fn leave(&mut self, letter: Letter<J>) {
        let place = letter.number as usize;
        self.letters[place] = Some(letter);
    }

    // The letter at that place, if one is there.
    fn letter_at(&mut self, place: usize) -> Option<Letter<J>>
        requires { place < J.seats }
    {
        self.letters[place].take()
    }

    // The answer for the pass of that number, if it is there.
    fn answer_for(&mut self, number: u32) -> Option<Answer<D, J>>
        requires { number < J.seats }
        ensures { IfSome result (λ answer. answer ≡ number) }
    {
        let answer = self.answers[number as usize].take()?;
        if answer.number == number {
            Some(answer)
        } else {
            None
        }
    }

    // Moves the letters to the tray, in the order of their numbers.
    fn fill(&mut self, letters: Vec<Letter<J>>) -> Vec<Letter<J>>
        requires room { J.seats ≤ vec_capacity letters }

        ensures room { J.seats ≤ vec_capacity result }
        ensures few { vec_len result ≤ J.seats }
    {
        let mut letters = letters;
        letters.clear();
        for place in 0..self.letters.len() {
            if let Some(letter) = self.letter_at(place) {
                letters.push_reserved(letter);
            }
        }
        letters
    }

    // Puts the answers at their places, and the tray back.
    fn take_in(&mut self, letters: Vec<Letter<J>>, answers: Vec<Answer<D, J>>)
        requires letters { J.seats ≤ vec_capacity letters }
        requires answers { J.seats ≤ vec_capacity answers }
    {
        let answers = self.empty(answers);
        self.tray = Some(Tray { letters, answers });
    }

    // Puts the answers at their places.
    fn empty(&mut self, answers: Vec<Answer<D, J>>) -> Vec<Answer<D, J>>
        requires room { J.seats ≤ vec_capacity answers }

        ensures room { J.seats ≤ vec_capacity result }
        ensures none { vec_len result ≡ 0 }
    {
        let mut answers = answers;
        while let Some(answer) = answers.pop() {
            let place = answer.number as usize;
            self.answers[place] = Some(answer);
        }
        answers
    }
}

/// Where callers leave what is to be stored, and find the answers. Its lock is held for moments only, and by nobody who then waits for the
/// desk.
#[derive(Drop)]
pub(crate) struct Hall<D: Disk, J: Naming> {
    waiting: Mutex<Waiting<D, J>>,
    told: Condvar,
}

// So many places, in each of which lies nothing.
fn places<T>(alloc: Global, seats: u32) -> Result<Vec<Option<T>>, AllocError>
    ensures { IfOk result (λ places. vec_len places ≡ seats) }
{
    let mut places = Vec::with_capacity(alloc, seats as usize)?;
    for _ in 0..seats {
        places.push_reserved(None);
    }
    Ok(places)
}

impl<D: Disk, J: Naming> Hall<D, J> {
    /// An empty hall with a place for each pass. The error comes only for want of memory.
    pub(crate) fn new(alloc: Global, seats: u32) -> Result<Hall<D, J>, AllocError>
        requires { seats ≡ J.seats }
    {
        let tray = Tray {
            letters: Vec::with_capacity(alloc, seats as usize)?,
            answers: Vec::with_capacity(alloc, seats as usize)?,
        };
        let waiting = Waiting {
            tray: Some(tray),
            letters: places(alloc, seats)?,
            answers: places(alloc, seats)?,
        };
        Ok(Hall {
            waiting: Mutex::new(waiting),
            told: Condvar::new(),
        })
    }

    /// Leaves a letter. Who leads next answers it.
    pub(crate) fn leave<R: Wait>(&self, rt: &R, letter: Letter<J>) {
        self.waiting.lock(rt).leave(letter);
    }

    /// Waits until the answer for the pass of that number is there, or nobody leads. Then the caller gets the tray, and leads.
    pub(crate) fn wait_for<R: Wait>(&self, rt: &R, number: u32) -> Result<Answer<D, J>, Tray<D, J>>
        requires { number < J.seats }
        ensures { IfOk result (λ answer. answer ≡ number) }
    {
        let mut waiting = self.waiting.lock(rt);
        for _ in rt.forever() {
            let there = &mut *waiting;
            if let Some(answer) = there.answer_for(number) {
                return Ok(answer);
            }
            if let Some(tray) = there.tray.take() {
                return Err(tray);
            }
            waiting = self.told.wait(rt, waiting);
        }
        unreachable!()
    }

    /// All letters that were left, in the order of their numbers, in a vector with room for them.
    pub(crate) fn letters<R: Wait>(&self, rt: &R, room: Vec<Letter<J>>) -> Vec<Letter<J>>
        requires room { J.seats ≤ vec_capacity room }

        ensures room { J.seats ≤ vec_capacity result }
        ensures few { vec_len result ≤ J.seats }
    {
        self.waiting.lock(rt).fill(room)
    }

    /// Puts the answers at their places, and the tray back. Who waits looks again.
    pub(crate) fn give_back<R: Wait>(
        &self,
        rt: &R,
        letters: Vec<Letter<J>>,
        answers: Vec<Answer<D, J>>,
    )
        requires letters { J.seats ≤ vec_capacity letters }
        requires answers { J.seats ≤ vec_capacity answers }
    {
        self.waiting.lock(rt).take_in(letters, answers);
        self.told.notify_all();
    }
}

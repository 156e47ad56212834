//! Links that hold back what they give until other links were written an answer.
ghost use Rattle.std.specs.Prelude.{◌≡◌, ◌≤◌, None, length, refl};

use edge_io::{Link, Object, ReadFault, Sink, Source, WriteFault};
use std::alloc::Global;
use std::sync::atomic::{AtomicBool, Ordering};

/// How often a link looks whether it may go on. Then its read fails.
const TRIES: u64 = 200_000_000;

/// What a link gives once the answers of these links were written, each named by its mark.
#[derive(Clone, Copy)]
pub(crate) struct Part {
    pub(crate) bytes: &'static [u8],
    pub(crate) after: &'static [usize],
}

/// A link: the place at which it comes in or is dialed, what it gives, and the answer to it, which begins what is written to it and
/// which this mark tells.
#[derive(Clone, Copy)]
pub(crate) struct Plan {
    pub(crate) place: &'static str,
    pub(crate) parts: &'static [Part],
    pub(crate) answer: &'static [u8],
    pub(crate) mark: usize,
}

/// A link by a plan.
#[derive(Drop)]
pub(crate) struct Held<'a> {
    plan: &'static Plan,
    marks: &'a [AtomicBool],
    /// How many parts were given whole, and how many bytes of the next one were.
    at: usize,
    given: usize,
    pub(crate) written: Vec<u8>,
    pub(crate) read_faults: u64,
    pub(crate) write_faults: u64,
}

/// Whether all of these marks are set.
pub(crate) fn are_set(marks: &[AtomicBool], these: &[usize]) -> bool {
    for place in these {
        match marks.get(*place) {
            Some(mark) if mark.load(Ordering::SeqCst) => {}
            _ => return false,
        }
    }
    true
}

/// Whether all of these marks come to be set.
pub(crate) fn come(marks: &[AtomicBool], these: &[usize]) -> bool {
    for _ in 0..TRIES {
        if are_set(marks, these) {
            return true;
        }
    }
    false
}

/// Sets the mark, if there is one.
pub(crate) fn set(marks: &[AtomicBool], place: usize) {
    if let Some(mark) = marks.get(place) {
        mark.store(true, Ordering::SeqCst);
    }
}

// Copies the bytes from the place on, as many as there is room for, and answers how many.
fn give(bytes: &[u8], at: usize, buf: &mut [u8]) -> usize
    ensures { result ≤ length buf.new }
{
    let rest = &bytes[at.min(bytes.len())..];
    let n = rest.len().min(buf.len());
    buf[..n].copy_from_slice(&rest[..n]);
    n
}

impl<'a> Held<'a> {
    /// A link by this plan, of which nothing was given and to which nothing was written.
    pub(crate) fn by(alloc: Global, plan: &'static Plan, marks: &'a [AtomicBool]) -> Held<'a>
        ensures reads { result.read_faults ≡ 0 }
        ensures writes { result.write_faults ≡ 0 }
    {
        Held {
            plan,
            marks,
            at: 0,
            given: 0,
            written: Vec::new(alloc),
            read_faults: 0,
            write_faults: 0,
        }
    }
}

impl Object for Held<'_> {
    ghost same = { λ _ _. Unit {0} };

    ghost same_refl = { λ _. tt };

    ghost same_trans = { λ _ _ _ _ _. tt };
}

impl Source for Held<'_> {
    ghost given = { λ _. None };

    ghost left = { λ _. None };

    ghost read_faults = { λ link. link.read_faults };

    ghost read_apart = { λ x y. y.write_faults ≡ x.write_faults };

    ghost read_apart_refl = { λ _. Prim.cc };

    ghost read_apart_trans = { λ x y z p q. Prim.cc };

    /// Gives the next bytes of the part. The first read of a part waits until it may be given.
    fn read(&mut self, buf: &mut [u8]) -> Result<usize, ReadFault> {
        let Some(part) = self.plan.parts.get(self.at) else {
            return Ok(0);
        };
        if self.given == 0 && !come(self.marks, part.after) {
            self.read_faults = self.read_faults.saturating_add(1);
            return Err(ReadFault);
        }
        let n = give(part.bytes, self.given, buf);
        self.given = self.given.saturating_add(n);
        if self.given >= part.bytes.len() {
            self.given = 0;
            self.at = self.at.saturating_add(1);
        }
        Ok(n)
    }
}

impl Sink for Held<'_> {
    ghost taken = { λ _. None };

    ghost permits = { λ _ _. Unit {0} };

    ghost write_faults = { λ link. link.write_faults };

    ghost write_apart = { λ x y. y.read_faults ≡ x.read_faults };

    ghost permits_last = { λ _ _ _. (λ _ _. tt, λ _. refl) };

    ghost apart_refl = { λ _. Prim.cc };

    ghost apart_trans = { λ x y z p q. Prim.cc };

    /// Takes the piece whole, if there is memory for it, and sets the mark once the answer was written.
    fn write(&mut self, piece: &[u8]) -> Result<usize, WriteFault> {
        if self.written.extend_from_slice(piece).is_err() {
            self.write_faults = self.write_faults.saturating_add(1);
            return Err(WriteFault);
        }
        if self.written.starts_with(self.plan.answer) {
            set(self.marks, self.plan.mark);
        }
        Ok(piece.len())
    }
}

impl Link for Held<'_> {
    ghost dialed = { λ _. None };

    ghost reads_keep = { λ x y same. (Prim.cc, same, Prim.cc) };

    ghost writes_keep = { λ x y same. (Prim.cc, Prim.cc, same, Prim.cc) };
}

/// Links, doors and monitors may be moved to another thread: each impl owes the proof.
pub(crate) trait Movable: Send {}

impl Movable for Held<'_> {}

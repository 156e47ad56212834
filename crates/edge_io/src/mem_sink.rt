//! A sink in memory.
ghost use Rattle.std.specs.Prelude.{◌≡◌};

use crate::script::Script;
use crate::{Object, Sink, WriteFault};
use std::alloc::Global;

/// A sink that keeps what it takes, and whose writes fail at the calls that it was given, and where it
/// finds no memory. It tells all its bytes.
#[derive(Drop)]
pub struct MemSink {
    bytes: Vec<u8>,
    script: Script,
    faults: u64,
    starved: u64,
}

impl MemSink {
    ghost use Rattle.std.specs.Prelude.{Some, []};
    ghost use Rattle.edge_io.specs.Script.{call_number, failing_numbers};
    ghost use Rattle.edge_io.specs.MemSink.{taken_of, faults_of, script_of, starved_of};

    /// A sink that takes each piece whole. `failing` lists the numbers, from 0, of the writes that fail,
    /// in any order. Such a write counts a fault and changes nothing else. A write that was to pass and
    /// finds no memory does the same, and `starved` counts it too. A write whose number is beyond a u64
    /// is to pass.
    pub fn of(alloc: Global, failing: Vec<u64>) -> MemSink
        ensures taken { ⟦<MemSink as Sink>⟧.taken result ≡ Some [] }
        ensures none { ⟦<MemSink as Sink>⟧.write_faults result ≡ 0 }
        ensures fed { starved_of result ≡ 0 }
        ensures failing { failing_numbers (script_of result) ≡ failing.items }
        ensures first { call_number (script_of result) ≡ 0 }
    {
        MemSink {
            bytes: Vec::new(alloc),
            script: Script::of(failing),
            faults: 0,
            starved: 0,
        }
    }

    /// The bytes taken so far.
    pub fn taken(&self) -> &[u8]
        ensures { ⟦<MemSink as Sink>⟧.taken self.now ≡ Some result.now }
    {
        &self.bytes
    }

    /// How many writes have failed.
    pub(crate) fn faults(&self) -> u64
        ensures { result ≡ faults_of self.now }
    {
        self.faults
    }

    /// The bytes taken.
    pub(crate) fn into_taken(self) -> Vec<u8>
        ensures { result.items ≡ taken_of self }
    {
        self.bytes
    }

    /// How many writes were to pass and found no memory.
    pub fn starved(&self) -> u64
        ensures { result ≡ starved_of self.now }
    {
        self.starved
    }
}

impl Object for MemSink {
    ghost same = { λ _ _. Unit {0} };

    ghost same_refl = { λ _. tt };

    ghost same_trans = { λ _ _ _ _ _. tt };
}

impl Sink for MemSink {
    ghost use Rattle.std.specs.Prelude.{◌<◌, ◌≤◌, Some, IfOk, length};
    ghost use Rattle.std.specs.Io.KnownBytes.{WriteAppends};
    ghost use Rattle.foundation.specs.Faults.{HasCause};
    ghost use Rattle.edge_io.specs.MemSink.{taken_of, faults_of, WritesExactly};

    ghost taken = { λ sink. Some (taken_of sink) };

    ghost permits = { λ _ _. Unit {0} };

    ghost write_faults = { λ sink. faults_of sink };

    ghost write_apart = { λ _ _. Unit {0} };

    ghost permits_last = { λ _ _ _. (λ _ _. tt, λ none. absurd Prim.cc) };

    ghost apart_refl = { λ _. tt };

    ghost apart_trans = { λ _ _ _ _ _. tt };

    /// The write takes the whole piece. It fails where its number is listed, and else only where it
    /// finds no memory, which `starved` counts.
    fn write(&mut self, piece: &[u8]) -> Result<usize, WriteFault>
        ensures bound { IfOk result (λ n. n ≤ length piece.now) }
        ensures some { 0 < length piece.now → IfOk result (λ n. 0 < n) }
        ensures taken { WriteAppends (Some (taken_of self.old)) (Some (taken_of self.new)) result piece.now }
        ensures cause { HasCause (faults_of self.old) (faults_of self.new) result }
        ensures exact { WritesExactly self.old self.new piece.now result }
    {
        if self.script.next_fails() {
            self.faults = self.faults.saturating_add(1);
            return Err(WriteFault);
        }
        match self.bytes.extend_from_slice(piece) {
            Ok(()) => Ok(piece.len()),
            Err(_) => {
                self.starved = self.starved.saturating_add(1);
                self.faults = self.faults.saturating_add(1);
                Err(WriteFault)
            }
        }
    }
}

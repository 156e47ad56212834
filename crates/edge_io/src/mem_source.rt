//! A source in memory.
ghost use Rattle.std.specs.Prelude.{◌≡◌, ◌-◌, ◌<◌, ◌≤◌, min, take, drop, length};

use crate::script::Script;
use crate::{Object, ReadFault, Source};

/// A source that gives bytes that it was made with, and whose reads fail at the calls that it was given.
/// It tells all its bytes.
#[derive(Drop)]
pub struct MemSource {
    bytes: Vec<u8>,
    at: usize,
    step: usize,
    script: Script,
    faults: u64,
    ghost some: { 0 < step },
    ghost within: { at ≤ length bytes.items },
}

// Copies the next bytes, at most `step` of them, and answers how many.
fn give(bytes: &[u8], at: usize, step: usize, buf: &mut [u8]) -> usize
    requires { at ≤ length bytes.now }
    ensures count { result ≡ min step (min (length buf.old) (length bytes.now - at)) }
    ensures gave { take result buf.new ≡ take result (drop at bytes.now) }
    ensures rest { drop result buf.new ≡ drop result buf.old }
{
    let n = step.min(buf.len()).min(bytes.len() - at);
    buf[..n].copy_from_slice(&bytes[at..at + n]);
    n
}

impl MemSource {
    ghost use Rattle.std.specs.Prelude.{Some, []};
    ghost use Rattle.edge_io.specs.Script.{call_number, failing_numbers};
    ghost use Rattle.edge_io.specs.MemSource.{given_of, left_of, faults_of, script_of, step_of};

    /// A source that gives these bytes, at most `step` in a read; `step` is above 0. `failing` lists the
    /// numbers, from 0, of the reads that fail, in any order. Such a read counts a fault and changes
    /// nothing else. A read whose number is beyond a u64 passes.
    pub fn of(bytes: Vec<u8>, step: usize, failing: Vec<u64>) -> MemSource
        requires { 0 < step }
        ensures given { ⟦<MemSource as Source>⟧.given result ≡ Some [] }
        ensures left { ⟦<MemSource as Source>⟧.left result ≡ Some bytes.items }
        ensures none { ⟦<MemSource as Source>⟧.read_faults result ≡ 0 }
        ensures step { step_of result ≡ step }
        ensures failing { failing_numbers (script_of result) ≡ failing.items }
        ensures first { call_number (script_of result) ≡ 0 }
    {
        MemSource {
            bytes,
            at: 0,
            step,
            script: Script::of(failing),
            faults: 0,
        }
    }

    /// How many bytes are left.
    pub(crate) fn left(&self) -> u64
        ensures { result ≡ length (left_of self.now) }
    {
        (self.bytes.len() - self.at) as u64
    }

    /// How many reads have failed.
    pub(crate) fn faults(&self) -> u64
        ensures { result ≡ faults_of self.now }
    {
        self.faults
    }

    /// The bytes given.
    pub(crate) fn into_given(self) -> Vec<u8>
        ensures { result.items ≡ given_of self }
    {
        let mut bytes = self.bytes;
        bytes.truncate(self.at);
        bytes
    }
}

impl Object for MemSource {
    ghost same = { λ _ _. Unit {0} };

    ghost same_refl = { λ _. tt };

    ghost same_trans = { λ _ _ _ _ _. tt };
}

impl Source for MemSource {
    ghost use Rattle.std.specs.Prelude.{Some, IfOk};
    ghost use Rattle.std.specs.Io.KnownBytes.{ReadConsumes, WriteAppends};
    ghost use Rattle.foundation.specs.Faults.{HasCause};
    ghost use Rattle.edge_io.specs.MemSource.{given_of, left_of, faults_of, ReadsExactly};

    ghost given = { λ source. Some (given_of source) };

    ghost left = { λ source. Some (left_of source) };

    ghost read_faults = { λ source. faults_of source };

    ghost read_apart = { λ _ _. Unit {0} };

    ghost read_apart_refl = { λ _. tt };

    ghost read_apart_trans = { λ _ _ _ _ _. tt };

    /// The read fails exactly where its number is listed, and else gives as many bytes as the step, the
    /// buffer and the bytes that are left allow.
    fn read(&mut self, buf: &mut [u8]) -> Result<usize, ReadFault>
        requires { 0 < length buf.old }
        ensures bound { IfOk result (λ n. n ≤ length buf.new) }
        ensures given { WriteAppends (Some (given_of self.old)) (Some (given_of self.new)) result buf.new }
        ensures left { ReadConsumes (Some (left_of self.old)) (Some (left_of self.new)) result buf.new }
        ensures cause { HasCause (faults_of self.old) (faults_of self.new) result }
        ensures exact { ReadsExactly self.old self.new buf.old buf.new result }
    {
        if self.script.next_fails() {
            self.faults = self.faults.saturating_add(1);
            return Err(ReadFault);
        }
        let n = give(&self.bytes, self.at, self.step, buf);
        self.at += n;
        Ok(n)
    }
}

//! Bytes in memory, with a record of what a crash may leave of them.
ghost use Rattle.std.specs.Prelude.{◌≡◌, ◌+◌, ◌≤◌, length, IsTrue, OnOk, OnErr};
ghost use Rattle.edge_memory.specs.Held.{new_held, with_note, after_write, after_sync, IsCover, IsSound};
ghost use Rattle.edge_memory.specs.Crashing.{IsLeft};

use crate::Crash;
use crate::crash::fill;
use foundation::overwrite;
use std::alloc::AllocError;
use std::marker::Model;
use std::mem;

/// A time between two syncs in which something was written.
#[derive(Drop)]
struct Epoch {
    /// What was durable then.
    durable: Vec<u8>,
    /// The ranges that were written, the last one first: each an offset and a number of bytes.
    ranges: Vec<(usize, usize)>,
}

impl Model for Epoch {
    ghost use Rattle.edge_memory.specs.Held.{Epoch};

    ghost Value = { Epoch };

    ghost view = { λ e. record { durable = e.durable.items; ranges = e.ranges.items } };
}

/// The bytes, and what is needed to tell each image. The record grows by one copy of the bytes for each
/// sync with a write before it.
#[derive(Drop)]
pub(crate) struct Store {
    recorded: bool,
    bytes: Vec<u8>,
    /// What was durable at the first write since the last sync. It says nothing while there are no ranges.
    durable: Vec<u8>,
    ranges: Vec<(usize, usize)>,
    past: Vec<Epoch>,
}

impl Model for Store {
    ghost use Rattle.edge_memory.specs.Held.{Held};
    ghost use Rattle.edge_memory.specs.StoreView.{durable_bytes};

    ghost Value = { Held };

    ghost view = { λ s. record {
      recorded = s.recorded;
      reads = s.bytes.items;
      durable = durable_bytes s.ranges.items s.durable.items s.bytes.items;
      ranges = s.ranges.items;
      past = s.past.items;
    } };
}

impl Store {
    pub(crate) fn new(bytes: Vec<u8>, recorded: bool) -> Store
        ensures { result ≡ new_held recorded bytes.items }
    {
        let alloc = *bytes.allocator();
        Store {
            recorded,
            bytes,
            durable: Vec::new(alloc),
            ranges: Vec::new(alloc),
            past: Vec::new(alloc),
        }
    }

    pub(crate) fn bytes(&self) -> &[u8]
        ensures { result.now ≡ self.now.reads }
    {
        &self.bytes
    }

    /// Writes the piece at the front of the `len` bytes from `at` on. A crash may tear all of that
    /// range.
    pub(crate) fn write(&mut self, at: usize, len: usize, piece: &[u8]) -> Result<(), AllocError>
        requires sound { IsSound self.old }
        requires range { at + len ≤ length self.old.reads }
        requires piece { length piece.now ≤ len }

        ensures ok { OnOk result (self.new ≡ after_write at len piece.now self.old) }
        ensures err { OnErr result (self.new ≡ self.old) }
        ensures kept { OnErr result (IsTrue self.old.recorded) }
        ensures sound { IsSound self.new }
    {
        self.note(at, len)?;
        overwrite(&mut self.bytes, at, piece);
        Ok(())
    }

    // Notes a range where there is a record, and what was durable at the first one since a sync.
    fn note(&mut self, at: usize, len: usize) -> Result<(), AllocError>
        ensures ok { OnOk result (self.new ≡ with_note self.old.recorded at len self.old) }
        ensures err { OnErr result (self.new ≡ self.old) }
        ensures kept { OnErr result (IsTrue self.old.recorded) }
    {
        if !self.recorded {
            return Ok(());
        }
        if self.ranges.is_empty() {
            let durable = self.bytes.to_vec(*self.bytes.allocator())?;
            self.ranges.insert(0, (at, len))?;
            self.durable = durable;
            return Ok(());
        }
        self.ranges.insert(0, (at, len))?;
        Ok(())
    }

    /// Makes all bytes durable. What a crash might have left until now is past.
    pub(crate) fn sync(&mut self) -> Result<(), AllocError>
        requires { IsSound self.old }
        ensures ok { OnOk result (self.new ≡ after_sync self.old) }
        ensures err { OnErr result (self.new ≡ self.old) }
        ensures kept { OnErr result (IsTrue self.old.recorded) }
    {
        if self.ranges.is_empty() {
            return Ok(());
        }
        self.past.reserve(1)?;
        let alloc = *self.past.allocator();
        self.past.push_reserved(Epoch {
            durable: mem::replace(&mut self.durable, Vec::new(alloc)),
            ranges: mem::replace(&mut self.ranges, Vec::new(alloc)),
        });
        Ok(())
    }

    /// What a crash leaves.
    pub(crate) fn crash(self, choice: Crash) -> Vec<u8>
        requires { IsSound self }
        ensures image { IsCover self.durable self.ranges result.items }
        ensures left { IsLeft choice self result.items }
    {
        let Store {
            recorded: _,
            mut bytes,
            durable,
            ranges,
            past: _,
        } = self;
        if ranges.is_empty() {
            return bytes;
        }
        match choice {
            Crash::Synced => durable,
            Crash::Written => bytes,
            Crash::Filled(byte) => {
                fill(&mut bytes, &ranges, byte);
                bytes
            }
        }
    }
}

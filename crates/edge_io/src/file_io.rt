//! The adapter over std's readers and writers.
ghost use Rattle.std.specs.Prelude.{◌≡◌, ◌≤◌, IfOk, length, take};
ghost use Rattle.std.specs.Io.KnownBytes.{Appends};

use crate::{Link, Object, ReadFault, Sink, Source, WriteFault};
use std::io::{self, Read, Write};

/// A source over std's reader and a sink over std's writer, as a file, a pipe or a terminal. It counts
/// its errors and tells no bytes: that the bytes go out and come in as the operating system has them is
/// trusted.
#[derive(Drop)]
pub struct FileIo<T: Drop> {
    inner: T,
    read_errors: u64,
    write_errors: u64,
}

impl<T: Drop> FileIo<T> {
    ghost use Rattle.edge_io.specs.FileIo.{inner_of, read_errors_of, write_errors_of};

    /// An adapter with no error so far.
    pub fn of(inner: T) -> FileIo<T>
        ensures inner { inner_of result ≡ inner }
        ensures reads { read_errors_of result ≡ 0 }
        ensures writes { write_errors_of result ≡ 0 }
    {
        FileIo {
            inner,
            read_errors: 0,
            write_errors: 0,
        }
    }

    /// How many reads were errors.
    pub fn read_errors(&self) -> u64
        ensures { result ≡ read_errors_of self.now }
    {
        self.read_errors
    }

    /// How many writes were errors.
    pub fn write_errors(&self) -> u64
        ensures { result ≡ write_errors_of self.now }
    {
        self.write_errors
    }
}

impl<T: Drop> Object for FileIo<T> {
    ghost same = { λ _ _. Unit {0} };

    ghost same_refl = { λ _. tt };

    ghost same_trans = { λ _ _ _ _ _. tt };
}

impl<T: Read + Drop> Source for FileIo<T> {
    ghost use Rattle.std.specs.Prelude.{◌<◌, None};
    ghost use Rattle.std.specs.Io.KnownBytes.{ReadConsumes};
    ghost use Rattle.foundation.specs.Faults.{HasCause};
    ghost use Rattle.edge_io.specs.Counts.{CountsFault};
    ghost use Rattle.edge_io.specs.FileIo.{inner_of, read_errors_of, write_errors_of};

    ghost given = { λ _. None };

    ghost left = { λ _. None };

    ghost read_faults = { λ file. read_errors_of file };

    ghost read_apart = { λ x y. write_errors_of y ≡ write_errors_of x };

    ghost read_apart_refl = { λ _. Prim.cc };

    ghost read_apart_trans = { λ x y z p q. Prim.cc };

    /// A read of the reader. Each error of it is a fault, an interrupted call's too.
    fn read(&mut self, buf: &mut [u8]) -> Result<usize, ReadFault>
        requires { 0 < length buf.old }
        ensures bound { IfOk result (λ n. n ≤ length buf.new) }
        ensures cause { HasCause (read_errors_of self.old) (read_errors_of self.new) result }
        ensures apart { write_errors_of self.new ≡ write_errors_of self.old }
        ensures counts { CountsFault (read_errors_of self.old) (read_errors_of self.new) result }
        // Where the reader itself tells its bytes, they are what is read.
        ensures passed { ReadConsumes (T.remaining (inner_of self.old))
            (T.remaining (inner_of self.new)) result buf.new }
    {
        match self.inner.read(buf) {
            Ok(n) => Ok(n),
            Err(_) => {
                self.read_errors = self.read_errors.saturating_add(1);
                Err(ReadFault)
            }
        }
    }
}

// Writes the start of the piece, and sends on at once what the writer may keep in a buffer: a peer may
// wait for it, and an error must not come too late to be told.
fn write_through<T: Write>(inner: &mut T, piece: &[u8]) -> io::Result<usize>
    ensures bound { IfOk result (λ n. n ≤ length piece.now) }
    ensures passed { IfOk result (λ n. Appends (T.contents inner.old) (T.contents inner.new) (take n piece.now)) }
{
    let n = inner.write(piece)?;
    inner.flush()?;
    Ok(n)
}

impl<T: Write + Drop> Sink for FileIo<T> {
    ghost use Rattle.std.specs.Prelude.{refl, ◌<◌, None};
    ghost use Rattle.foundation.specs.Faults.{HasCause};
    ghost use Rattle.edge_io.specs.Counts.{CountsFault};
    ghost use Rattle.edge_io.specs.FileIo.{inner_of, read_errors_of, write_errors_of};

    ghost taken = { λ _. None };

    ghost permits = { λ _ _. Unit {0} };

    ghost write_faults = { λ file. write_errors_of file };

    ghost write_apart = { λ x y. read_errors_of y ≡ read_errors_of x };

    ghost permits_last = { λ _ _ _. (λ _ _. tt, λ _. refl) };

    ghost apart_refl = { λ _. Prim.cc };

    ghost apart_trans = { λ x y z p q. Prim.cc };

    /// A write to the writer, flushed at once. Each error of it or of the flush is a fault, and so is 0
    /// bytes for a piece that isn't empty.
    fn write(&mut self, piece: &[u8]) -> Result<usize, WriteFault>
        ensures bound { IfOk result (λ n. n ≤ length piece.now) }
        ensures some { 0 < length piece.now → IfOk result (λ n. 0 < n) }
        ensures cause { HasCause (write_errors_of self.old) (write_errors_of self.new) result }
        ensures apart { read_errors_of self.new ≡ read_errors_of self.old }
        ensures counts { CountsFault (write_errors_of self.old) (write_errors_of self.new) result }
        // Where the writer itself tells its bytes, they are what is written. After a fault they may be
        // there too, since the flush comes last.
        ensures passed { IfOk result (λ n. Appends (T.contents (inner_of self.old))
            (T.contents (inner_of self.new)) (take n piece.now)) }
    {
        match write_through(&mut self.inner, piece) {
            Ok(n) if n > 0 || piece.is_empty() => Ok(n),
            _ => {
                self.write_errors = self.write_errors.saturating_add(1);
                Err(WriteFault)
            }
        }
    }
}

impl<T: Read + Write + Drop> Link for FileIo<T> {
    ghost use Rattle.std.specs.Prelude.{None};

    ghost dialed = { λ _. None };

    ghost reads_keep = { λ x y same. (Prim.cc, same, Prim.cc) };

    ghost writes_keep = { λ x y same. (Prim.cc, Prim.cc, same, Prim.cc) };
}

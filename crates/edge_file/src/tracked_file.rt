//! A file whose syncs may fail, and are made good before anything else is done with it.
ghost use Rattle.std.specs.Prelude.{◌≡◌, ◌+◌, ◌^◌, ◌<◌, ◌≤◌, [], true, false, IsTrue, length, ℕ, OnErr, OnOk};
ghost use Rattle.edge_file.specs.ByteRange.{is_within, is_covered};

use crate::claim::Claim;
use crate::held_part::PAGE;
use crate::home::Home;
use crate::opening::Opened;
use crate::{Access, ByteRange, Sharing, Unsynced};
use std::fs::File;
use std::io::{self, ErrorKind, Seek, SeekFrom};
use std::os::unix::fs::FileExt;

// How long a look at the file's path lasts, in milliseconds. One costs as much as a short write, and makes the next write cost more: the
// system then notes a time of the file's change for it.
const LOOK_MILLIS: u64 = 100;

/// A file of a fixed length, and what was written to it since its last good sync.
///
/// Linux may drop what was written when a sync of it fails: the sync fails once, a read still gives the bytes
/// from memory, and the next sync succeeds, though the bytes never reached the disk. So after a sync or a write
/// that failed each call first reads what was written since the last good sync, writes it back and syncs, and
/// fails while that fails. Then the disk holds what a read gives, also where the system gives back what was
/// there before.
#[derive(Drop)]
pub(crate) struct TrackedFile {
    file: File,
    len: u64,
    home: Home,
    // What is locked of a block device, as long as it is open.
    claim: Claim,
    // What it was opened for, and with whom it is shared.
    access: Access,
    sharing: Sharing,
    unsynced: Unsynced,
    // A sync or a write failed, and what was written hasn't been made good since.
    is_failing: bool,
    // When its path is looked at again, in milliseconds of its clock.
    next_look: u64,
    ghost fits: { len < 2 ^ 64 },
}

impl TrackedFile {
    /// What was opened, of which nothing waits for a sync.
    pub(crate) fn new(opened: Opened) -> TrackedFile
        ensures len { result.len ≡ opened.len }
        ensures id { result.home.id ≡ opened.home.id }
        ensures access { result.access ≡ opened.access }
        ensures sharing { result.sharing ≡ opened.sharing }
    {
        let Opened {
            file,
            len,
            home,
            claim,
            access,
            sharing,
        } = opened;
        TrackedFile {
            file,
            len,
            home,
            claim,
            access,
            sharing,
            unsynced: Unsynced::new(),
            is_failing: false,
            next_look: 0,
        }
    }

    /// How many bytes it had as it was opened.
    pub(crate) fn len(&self) -> u64
        ensures { result ≡ self.now.len }
    {
        self.len
    }

    /// Reads the bytes from offset `at` on until the buffer is full. Fails where the file has become shorter.
    pub(crate) fn read_at(&mut self, at: u64, buf: &mut [u8]) -> io::Result<()>
        ensures len { self.new.len ≡ self.old.len }
        ensures good { OnOk result (self.new.is_failing ≡ false) }
    {
        self.make_good()?;
        self.file.read_exact_at(buf, at)
    }

    /// Writes the piece over the bytes from offset `at` on. Fails where the file has become shorter, since the
    /// system would make it longer again, and where it was at its path no more a tenth of a second ago.
    pub(crate) fn write_at(&mut self, at: u64, piece: &[u8]) -> io::Result<()>
        requires { at + length piece.now ≤ self.old.len }
        ensures len { self.new.len ≡ self.old.len }
        ensures good { OnOk result (self.new.is_failing ≡ false) }
        ensures noted { OnOk result ((i : ℕ) → at ≤ i → i < at + length piece.now → IsTrue (is_covered self.new.unsynced i)) }
    {
        self.make_good()?;
        if self.has_gone() {
            return Err(io::Error::from(ErrorKind::NotFound));
        }
        self.look_at_len()?;
        self.note(ByteRange::new(at, piece.len() as u64))?;
        self.write_file(at, piece)
    }

    /// Makes durable what was written. Fails where the file was at its path no more a tenth of a second ago: what is durable in it then is
    /// gone with this program.
    pub(crate) fn sync(&mut self) -> io::Result<()>
        ensures len { self.new.len ≡ self.old.len }
        ensures good { OnOk result (self.new.is_failing ≡ false) }
        ensures durable { OnOk result (self.new.unsynced ≡ []) }
        ensures failing { OnErr result (self.new.is_failing ≡ true) }
        ensures kept { OnErr result (self.new.unsynced ≡ self.old.unsynced) }
    {
        if self.is_failing {
            return self.write_back_all();
        }
        if self.has_gone() {
            self.is_failing = true;
            return Err(io::Error::from(ErrorKind::NotFound));
        }
        self.sync_file()
    }

    // Before anything is done: what a call that failed left is made good.
    fn make_good(&mut self) -> io::Result<()>
        ensures len { self.new.len ≡ self.old.len }
        ensures good { OnOk result (self.new.is_failing ≡ false) }
        ensures failing { OnErr result (self.new.is_failing ≡ true) }
        ensures kept { OnErr result (self.new.unsynced ≡ self.old.unsynced) }
    {
        if self.is_failing {
            self.write_back_all()?;
        }
        Ok(())
    }

    // What was written since the last good sync is read, written back and synced. Where that fails, all of it
    // stays to be done.
    fn write_back_all(&mut self) -> io::Result<()>
        requires { self.old.is_failing ≡ true }
        ensures len { self.new.len ≡ self.old.len }
        ensures good { OnOk result (self.new.is_failing ≡ false) }
        ensures durable { OnOk result (self.new.unsynced ≡ []) }
        ensures failing { OnErr result (self.new.is_failing ≡ true) }
        ensures kept { OnErr result (self.new.unsynced ≡ self.old.unsynced) }
    {
        if self.home.is_left() {
            return Err(io::Error::from(ErrorKind::NotFound));
        }
        self.look_at_len()?;
        for range in self.unsynced.ranges() {
            write_back(&self.file, *range)?;
        }
        self.sync_file()
    }

    // Before a range is written. Where it has no room, what was written before is synced first.
    fn note(&mut self, range: ByteRange) -> io::Result<()>
        ensures len { self.new.len ≡ self.old.len }
        ensures noted { OnOk result ((i : ℕ) → IsTrue (is_within range i) → IsTrue (is_covered self.new.unsynced i)) }
    {
        if self.unsynced.note(range) {
            return Ok(());
        }
        self.sync()?;
        // (after which there is room)
        let _ = self.unsynced.note(range);
        Ok(())
    }

    // Writes a piece whose range is noted. Some of it may come through where that fails.
    fn write_file(&mut self, at: u64, piece: &[u8]) -> io::Result<()>
        ensures len { self.new.len ≡ self.old.len }
        ensures good { OnOk result (self.new.is_failing ≡ false) }
        ensures failing { OnErr result (self.new.is_failing ≡ true) }
        ensures kept { self.new.unsynced ≡ self.old.unsynced }
    {
        let written = self.file.write_all_at(piece, at);
        self.is_failing = written.is_err();
        written
    }

    // Syncs, and then nothing waits for a sync.
    fn sync_file(&mut self) -> io::Result<()>
        ensures len { self.new.len ≡ self.old.len }
        ensures good { OnOk result (self.new.is_failing ≡ false) }
        ensures durable { OnOk result (self.new.unsynced ≡ []) }
        ensures failing { OnErr result (self.new.is_failing ≡ true) }
        ensures kept { OnErr result (self.new.unsynced ≡ self.old.unsynced) }
    {
        let synced = self.file.sync_data();
        self.is_failing = synced.is_err();
        if synced.is_ok() {
            self.unsynced.clear();
        }
        synced
    }

    // Whether the file was at its path no more as it was looked last, a tenth of a second ago at most. Without a clock it is looked now.
    fn has_gone(&mut self) -> bool
        ensures { self.new ≡ record self.old { next_look = self.new.next_look } }
    {
        let now = self.home.millis();
        if let Some(now) = now
            && now < self.next_look
        {
            return false;
        }
        if self.home.is_left() {
            return true;
        }
        self.next_look = now.unwrap_or(0).saturating_add(LOOK_MILLIS);
        false
    }

    // Fails where the file has become shorter.
    fn look_at_len(&mut self) -> io::Result<()>
        ensures { self.new ≡ record self.old { file = self.new.file } }
    {
        if end_of(&mut self.file)? < self.len {
            return Err(io::Error::from(ErrorKind::UnexpectedEof));
        }
        Ok(())
    }
}

/// The offset of a file's or a block device's end.
pub(crate) fn end_of(file: &mut File) -> io::Result<u64> {
    file.seek(SeekFrom::End(0))
}

// Writes what a read of the range gives over it, by its pages. One that can't be read gets zeros: nothing that was acknowledged stands in a
// range that waits for a sync, and a disk may take what is written where it gives nothing any more.
fn write_back(file: &File, range: ByteRange) -> io::Result<()> {
    let mut page = [0; PAGE];
    let mut at = range.from;
    while at < range.to {
        let size = (range.to - at).min(PAGE as u64 - at % PAGE as u64);
        let part = &mut page[..size as usize];
        if let Err(error) = file.read_exact_at(part, at) {
            if error.kind() == ErrorKind::UnexpectedEof {
                return Err(error);
            }
            part.fill(0);
        }
        file.write_all_at(part, at)?;
        at += size;
    }
    Ok(())
}

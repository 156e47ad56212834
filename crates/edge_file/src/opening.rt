//! How a file is opened as a disk: its lock, its length, and its name in its folder.
ghost use Rattle.std.specs.Prelude.{◌≡◌, ◌⊎◌, ◌<◌, IfOk};
ghost use Rattle.edge_file.specs.Opened.{IsHeld, IsHeldAs, AreTwo};
ghost use Rattle.edge_file.specs.declared.open_fault.Sharing.TheVariants.{Exclusive, Shared};
ghost use Rattle.edge_file.specs.declared.unlocked.Access.TheVariants.{ToRead, ToWrite};

use crate::claim::{Claim, lock};
use crate::file_id::FileId;
use crate::home::Home;
use crate::limits::is_over_limit;
use crate::tracked_file::end_of;
use crate::unlocked::Unlocked;
use crate::{Access, OpenFault, PairFault, Sharing};
use std::fs::{self, File, OpenOptions};
use std::io;
use std::os::fd::AsRawFd;
use std::os::unix::fs::FileTypeExt;
use std::path::Path;

/// A file or a block device that is open, and locked as long as this is held.
#[derive(Drop)]
pub(crate) struct Opened {
    pub file: File,
    /// Its length in bytes.
    pub len: u64,
    /// Where it stands.
    pub home: Home,
    /// What is locked of a block device beside its node.
    pub claim: Claim,
    /// What it was opened for.
    pub access: Access,
    /// With whom it is shared.
    pub sharing: Sharing,
}

/// A file that exists, to be read and written, and locked. What a read gives is what the disk holds.
pub(crate) fn open_file(rt: &HostRuntime, path: &str, sharing: Sharing) -> Result<Opened, OpenFault>
    ensures { IfOk result (IsHeldAs ToWrite sharing) }
{
    let unlocked = Unlocked::open(rt, path, Access::ToWrite, false)?;
    hold_settled(rt, path, unlocked, sharing)
}

/// The file, locked for this program alone, and made where it isn't there; then only its owner may read and write it, from the first
/// moment on. One that is new or empty gets `len` zero bytes. Its length and its name are durable, and what a read gives is what the disk
/// holds.
pub(crate) fn make_file(rt: &HostRuntime, path: &str, len: u64) -> Result<Opened, OpenFault>
    ensures size { IfOk result (λ opened. opened.len ≡ len ⊎ 0 < opened.len) }
    ensures held { IfOk result (IsHeldAs ToWrite Exclusive) }
{
    let unlocked = Unlocked::open(rt, path, Access::ToWrite, true)?;
    let mut opened = hold(rt, path, unlocked, Sharing::Exclusive)?;
    opened.len = set_length(&opened.file, opened.len, len)?;
    settle(&opened.file)?;
    sync_folder(rt, path)?;
    Ok(opened)
}

/// A file or a block device that exists, opened to be read alone and locked beside others that share it. What a read gives is what the
/// system's memory has, also where the disk doesn't.
pub(crate) fn open_read_only(rt: &HostRuntime, path: &str) -> Result<Opened, OpenFault>
    ensures { IfOk result (IsHeldAs ToRead Shared) }
{
    let unlocked = Unlocked::open_to_read(rt, path)?;
    hold_settled(rt, path, unlocked, Sharing::Shared)
}

// Locks a file that was opened by this path.
fn hold(
    rt: &HostRuntime,
    path: &str,
    unlocked: Unlocked,
    sharing: Sharing,
) -> Result<Opened, OpenFault>
    ensures { IfOk result (IsHeld unlocked sharing) }
{
    let Unlocked {
        mut file,
        id,
        access,
    } = unlocked;
    lock(&file, sharing)?;
    let len = len_of(&mut file)?;
    if matches!(id, FileId::File { .. }) && sharing == Sharing::Exclusive && is_over_limit(len) {
        return Err(OpenFault::OverLimit);
    }
    let claim = Claim::new(rt, id, sharing)?;
    let home = Home::new(rt, path, id)?;
    Ok(Opened {
        file,
        len,
        home,
        claim,
        access,
        sharing,
    })
}

// The same; and what a read gives of a file that may be written is what the disk holds.
fn hold_settled(
    rt: &HostRuntime,
    path: &str,
    unlocked: Unlocked,
    sharing: Sharing,
) -> Result<Opened, OpenFault>
    ensures { IfOk result (IsHeld unlocked sharing) }
{
    let opened = hold(rt, path, unlocked, sharing)?;
    if opened.access == Access::ToWrite {
        settle(&opened.file)?;
    }
    Ok(opened)
}

// Has a read of the file give what the disk holds. A program that was killed while the disk was failing may have left in the system's memory
// what the disk never got, and what counts as written all the same. So the file is synced, which leaves nothing in memory that is to be
// written, and then the system is to forget what it has of it. The first sync may tell of what failed before; what a second one tells of
// is new.
fn settle(file: &File) -> Result<(), OpenFault> {
    if file.sync_all().is_err() && file.sync_all().is_err() {
        return Err(OpenFault::Unsynced);
    }
    let failed = libc::posix_fadvise(file.as_raw_fd(), 0, 0, libc::POSIX_FADV_DONTNEED);
    if failed != 0 {
        return Err(OpenFault::Other);
    }
    Ok(())
}

// A file that is open, and is to be locked, shared so.
#[derive(Drop)]
struct Wanted {
    unlocked: Unlocked,
    sharing: Sharing,
}

impl Wanted {
    // Locks the file, which was opened by this path.
    fn hold(self, rt: &HostRuntime, path: &str) -> Result<Opened, OpenFault>
        ensures { IfOk result (IsHeld self.unlocked self.sharing) }
    {
        hold_settled(rt, path, self.unlocked, self.sharing)
    }
}

// Locks two files, which were opened by these paths, unless they are one. Which of them is locked first depends on the files alone, and not on
// which is named first.
fn hold_two(
    rt: &HostRuntime,
    paths: [&str; 2],
    one: Wanted,
    other: Wanted,
) -> Result<(Opened, Opened), PairFault>
    ensures first { IfOk result (λ two. IsHeld one.unlocked one.sharing two.0) }
    ensures second { IfOk result (λ two. IsHeld other.unlocked other.sharing two.1) }
    ensures two { IfOk result (λ two. AreTwo two.0 two.1) }
{
    let [first, second] = paths;
    if one.unlocked.id == other.unlocked.id {
        return Err(PairFault::OneFile);
    }
    if one.unlocked.id < other.unlocked.id {
        let one = one.hold(rt, first).map_err(PairFault::First)?;
        let other = other.hold(rt, second).map_err(PairFault::Second)?;
        return Ok((one, other));
    }
    let other = other.hold(rt, second).map_err(PairFault::Second)?;
    let one = one.hold(rt, first).map_err(PairFault::First)?;
    Ok((one, other))
}

// A file that exists, opened to be read and written by this program alone, and not locked yet.
fn wanted_alone(rt: &HostRuntime, path: &str) -> Result<Wanted, OpenFault>
    ensures { IfOk result (λ wanted. (wanted.unlocked.access ≡ ToWrite) × (wanted.sharing ≡ Exclusive)) }
{
    let unlocked = Unlocked::open(rt, path, Access::ToWrite, false)?;
    Ok(Wanted {
        unlocked,
        sharing: Sharing::Exclusive,
    })
}

// A file that exists, opened to be read alone, beside others that share it, and not locked yet.
fn wanted_to_read(rt: &HostRuntime, path: &str) -> Result<Wanted, OpenFault>
    ensures { IfOk result (λ wanted. (wanted.unlocked.access ≡ ToRead) × (wanted.sharing ≡ Shared)) }
{
    let unlocked = Unlocked::open_to_read(rt, path)?;
    Ok(Wanted {
        unlocked,
        sharing: Sharing::Shared,
    })
}

/// Two files that exist, to be read and written, each locked for this program alone.
pub(crate) fn open_two(
    rt: &HostRuntime,
    first: &str,
    second: &str,
) -> Result<(Opened, Opened), PairFault>
    ensures first { IfOk result (λ two. IsHeldAs ToWrite Exclusive two.0) }
    ensures second { IfOk result (λ two. IsHeldAs ToWrite Exclusive two.1) }
    ensures two { IfOk result (λ two. AreTwo two.0 two.1) }
{
    let one = wanted_alone(rt, first).map_err(PairFault::First)?;
    let other = wanted_alone(rt, second).map_err(PairFault::Second)?;
    hold_two(rt, [first, second], one, other)
}

/// Two files that exist: the first opened to be read alone and locked beside others that share it, and the second to be read and written,
/// locked for this program alone.
pub(crate) fn open_beside(
    rt: &HostRuntime,
    first: &str,
    second: &str,
) -> Result<(Opened, Opened), PairFault>
    ensures first { IfOk result (λ two. IsHeldAs ToRead Shared two.0) }
    ensures second { IfOk result (λ two. IsHeldAs ToWrite Exclusive two.1) }
    ensures two { IfOk result (λ two. AreTwo two.0 two.1) }
{
    let read = wanted_to_read(rt, first).map_err(PairFault::First)?;
    let written = wanted_alone(rt, second).map_err(PairFault::Second)?;
    hold_two(rt, [first, second], read, written)
}

// The length in bytes of a file or a block device, whose metadata has none. Anything else, as a pipe, has no length.
fn len_of(file: &mut File) -> Result<u64, OpenFault> {
    let metadata = file.metadata()?;
    if metadata.file_type().is_block_device() {
        let end = end_of(file)?;
        return Ok(end);
    }
    if !metadata.is_file() {
        return Err(OpenFault::NoFile);
    }
    Ok(metadata.len())
}

// Gives a file of `size` bytes that is empty the length `len`, and returns which length it has. A block
// device has a length of its own.
fn set_length(file: &File, size: u64, len: u64) -> io::Result<u64>
    ensures { IfOk result (λ now. now ≡ len ⊎ 0 < now) }
{
    if size > 0 {
        return Ok(size);
    }
    file.set_len(len)?;
    Ok(len)
}

// Makes the name of a file durable, which it is only once its folder is synced. Where the name is a symbolic
// link's, the folder is that of the file that the link leads to: that is where a file was made.
fn sync_folder(rt: &HostRuntime, path: &str) -> io::Result<()> {
    if fs::symlink_metadata(rt, path)?.is_symlink() {
        let target = Path::new(path).canonicalize(rt)?;
        return sync_folder_of(rt, target.as_path());
    }
    sync_folder_of(rt, Path::new(path))
}

fn sync_folder_of(rt: &HostRuntime, path: Path<'_>) -> io::Result<()> {
    let folder = match path.parent() {
        Some(folder) if !folder.as_str().is_empty() => folder,
        _ => Path::new("."),
    };
    let mut options = OpenOptions::new();
    options.read(true);
    options.open(rt, folder)?.sync_all()
}

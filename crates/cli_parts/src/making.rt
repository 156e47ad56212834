//! How FILE is made.
ghost use Rattle.std.specs.Prelude.{◌≡◌, ◌⊎◌, ◌<◌, IfOk};
ghost use Rattle.edge_file.specs.FileDisk.{file_moment};

use edge_file::{FileDisk, OpenFault, is_over_limit};
use std::fs::{self, File, OpenOptions};
use std::io::{self, ErrorKind};
use std::os::unix::fs::{FileExt, MetadataExt, OpenOptionsExt};

// Who may read and write a FILE that is made: its owner alone, since it holds what senders log.
const MODE: u32 = 0o600;

// How many bytes are read and written at once.
const CHUNK: usize = 65_536;

// What the name of a FILE that is being made ends with.
const UNFINISHED: &str = ".unfinished";

/// Opens FILE as a device, for this program alone, and makes it where it isn't there. One that is new gets `len` zero bytes, which are
/// written and synced, and so does one that is empty, or shorter and of zeros alone, as a `format` leaves it that was stopped; the bytes
/// and the length of any other stay, as do those of a block device.
///
/// A FILE that is new is made beside its place, under its name with `.unfinished` after it, and comes to its place once it has its zeros: so
/// what stands under its name has its length. What a `format` that was stopped left under that name is removed first.
///
/// The zeros are written, and not only reserved, for two reasons. A file system that has no room for them says so now. And where a
/// block was never written, some file systems lose what is written there first if that write fails on its way to the disk, also where
/// it is written again later and synced (ext4 gives zeros after a power failure then).
///
/// The error says why FILE isn't opened. Where it couldn't be filled, one that is new is gone, and any other is left empty.
pub fn make_disk(rt: &HostRuntime, path: &str, len: u64) -> Result<FileDisk, OpenFault>
    ensures faults { IfOk result (λ disk. (file_moment disk).faults ≡ 0) }
    ensures size { IfOk result (λ disk. (file_moment disk).size ≡ len ⊎ 0 < (file_moment disk).size) }
{
    if stands(rt, path)? {
        fill_empty(rt, path, len)?;
    } else {
        let name = format!(in rt.alloc(); "{path}{UNFINISHED}")?;
        fill_new(rt, name.as_str(), path, len)?;
    }
    FileDisk::make_locked(rt, path, len)
}

// Whether anything stands at this path, also a symbolic link to nothing.
fn stands(rt: &HostRuntime, path: &str) -> io::Result<bool> {
    match fs::symlink_metadata(rt, path) {
        Ok(_) => Ok(true),
        Err(error) if error.kind() == ErrorKind::NotFound => Ok(false),
        Err(error) => Err(error),
    }
}

// How a file is opened to be filled.
fn to_fill() -> OpenOptions {
    let mut options = OpenOptions::new();
    options.read(true);
    options.write(true);
    options.mode(MODE);
    options
}

// Makes a file of this name, fills it and brings it to this path, where none may have come meanwhile. It is locked until then.
fn fill_new(rt: &HostRuntime, name: &str, path: &str, len: u64) -> Result<(), OpenFault> {
    if is_over_limit(len) {
        return Err(OpenFault::OverLimit);
    }
    clear(rt, name)?;
    let mut options = to_fill();
    options.create_new(true);
    let file = options.open(rt, name)?;
    file.try_lock()?;
    // (one that came meanwhile may have removed it, before it was locked)
    if fs::metadata(rt, name)?.ino() != file.metadata()?.ino() {
        return Err(OpenFault::InUse);
    }
    if let Err(fault) = bring(rt, &file, name, path, len) {
        let _ = fs::remove_file(rt, name);
        return Err(fault);
    }
    Ok(())
}

// Fills the file of this name and brings it to this path.
fn bring(rt: &HostRuntime, file: &File, name: &str, path: &str, len: u64) -> Result<(), OpenFault> {
    write_zeros(file, 0, len)?;
    if stands(rt, path)? {
        return Err(OpenFault::InUse);
    }
    fs::rename(rt, name, path)?;
    Ok(())
}

// Removes what a `format` that was stopped left under this name. One that goes on has it locked.
fn clear(rt: &HostRuntime, name: &str) -> Result<(), OpenFault> {
    if !stands(rt, name)? {
        return Ok(());
    }
    if fs::symlink_metadata(rt, name)?.is_file() {
        let file = to_fill().open(rt, name)?;
        file.try_lock()?;
        fs::remove_file(rt, name)?;
        return Ok(());
    }
    fs::remove_file(rt, name)?;
    Ok(())
}

// Fills a file that is there and empty, or shorter and of zeros alone; or that is to be made where a symbolic link leads. It is locked
// meanwhile.
fn fill_empty(rt: &HostRuntime, path: &str, len: u64) -> Result<(), OpenFault> {
    let mut options = to_fill();
    options.create(true);
    let file = options.open(rt, path)?;
    file.try_lock()?;
    let metadata = file.metadata()?;
    let size = metadata.len();
    if !metadata.is_file() || size >= len || !is_zero(&file, size)? {
        return Ok(());
    }
    if is_over_limit(len) {
        return Err(OpenFault::OverLimit);
    }
    if let Err(error) = write_zeros(&file, size, len) {
        let _ = file.set_len(0);
        return Err(OpenFault::from(error));
    }
    Ok(())
}

// Whether the first `len` bytes of a file are all zero.
fn is_zero(file: &File, len: u64) -> io::Result<bool> {
    let mut chunk = [0; CHUNK];
    let mut at = 0;
    while at < len {
        let size = (len - at).min(CHUNK as u64);
        let part = &mut chunk[..size as usize];
        file.read_exact_at(part, at)?;
        if part.iter().any(|byte| *byte != 0) {
            return Ok(false);
        }
        at += size;
    }
    Ok(true)
}

// Writes zero bytes from one offset up to another, and syncs them.
fn write_zeros(file: &File, from: u64, to: u64) -> io::Result<()> {
    let zeros = [0; CHUNK];
    let mut at = from;
    while at < to {
        let size = (to - at).min(CHUNK as u64);
        file.write_all_at(&zeros[..size as usize], at)?;
        at += size;
    }
    file.sync_all()
}

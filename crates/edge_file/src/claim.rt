//! A block device, claimed for this program whatever its nodes are.
use crate::file_id::{Device, FileId};
use crate::{OpenFault, Sharing};
use std::alloc::{AllocError, Global};
use std::fs::{self, File, OpenOptions};
use std::io::{self, ErrorKind};

/// What is locked of a block device beside the node by which it was opened. A lock of the node keeps off those alone who open that very
/// node, and a device may have several; so the entry that the system itself has of the device, below `/sys/dev/block`, is locked too. Of
/// a partition that of its whole disk is locked as well, beside the other partitions' users.
///
/// The locks end with the value.
#[derive(Drop)]
pub(crate) struct Claim {
    device: Option<File>,
    disk: Option<File>,
}

/// Locks an open file, so that others share it or nobody has it. No lock is waited for.
pub(crate) fn lock(file: &File, sharing: Sharing) -> Result<(), OpenFault> {
    match sharing {
        Sharing::Exclusive => file.try_lock()?,
        Sharing::Shared => file.try_lock_shared()?,
    }
    Ok(())
}

// What the system has of a device under this name.
fn entry(alloc: Global, device: Device, name: &str) -> Result<String, AllocError> {
    let Device { major, minor } = device;
    format!(in alloc; "/sys/dev/block/{major}:{minor}/{name}")
}

// Locks what the system has of a device under this name.
fn lock_entry(
    rt: &HostRuntime,
    device: Device,
    name: &str,
    sharing: Sharing,
) -> Result<File, OpenFault> {
    let path = entry(rt.alloc(), device, name)?;
    let mut options = OpenOptions::new();
    options.read(true);
    let file = match options.open(rt, path.as_str()) {
        Ok(file) => file,
        Err(_) => return Err(OpenFault::Unclaimed),
    };
    lock(&file, sharing)?;
    Ok(file)
}

// Whether the device is a partition of a disk.
fn is_partition(rt: &HostRuntime, device: Device) -> Result<bool, OpenFault> {
    let path = entry(rt.alloc(), device, "partition")?;
    let found = fs::exists(rt, path.as_str())?;
    Ok(found)
}

// Whether a line of the system's table of mounts is one of this device, which its third word names.
fn mounts(line: &[u8], device: &[u8]) -> bool {
    line.split(|byte| *byte == b' ').nth(2) == Some(device)
}

// Whether a file system of the device is mounted where this program sees it. Where the system has no table of mounts, none is.
fn is_mounted(rt: &HostRuntime, device: Device) -> Result<bool, OpenFault> {
    let Device { major, minor } = device;
    let name = format!(in rt.alloc(); "{major}:{minor}")?;
    let table: io::Result<Vec<u8>> = fs::read(rt, "/proc/self/mountinfo");
    match table {
        Ok(table) => Ok(
            table
                .split(|byte| *byte == b'\n')
                .any(|line| mounts(line, name.as_bytes())),
        ),
        Err(error) if error.kind() == ErrorKind::OutOfMemory => Err(OpenFault::NoMemory),
        Err(_) => Ok(false),
    }
}

impl Claim {
    /// Claims what was opened, as it is to be shared: a block device that nobody else has by any node, and no file system of which is
    /// mounted. Of a file its own lock is all.
    ///
    /// The errors: `InUse` where another program has the device, or the whole disk of a partition or a partition of a whole disk; `Mounted`;
    /// and `Unclaimed` where the system doesn't show the device below `/sys/dev/block`.
    pub(crate) fn new(rt: &HostRuntime, id: FileId, sharing: Sharing) -> Result<Claim, OpenFault> {
        let FileId::Block { device } = id else {
            return Ok(Claim {
                device: None,
                disk: None,
            });
        };
        let own = lock_entry(rt, device, "dev", sharing)?;
        let disk = if is_partition(rt, device)? {
            Some(lock_entry(rt, device, "../dev", Sharing::Shared)?)
        } else {
            None
        };
        if is_mounted(rt, device)? {
            return Err(OpenFault::Mounted);
        }
        Ok(Claim {
            device: Some(own),
            disk,
        })
    }
}

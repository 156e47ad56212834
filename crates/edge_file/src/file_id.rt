//! Which file it is that has a name.
use std::fs::{self, File, Metadata};
use std::io;
use std::os::unix::fs::{FileTypeExt, MetadataExt};

/// The number of a device.
#[derive(Clone, Copy, PartialEq, Eq, PartialOrd, Ord)]
pub(crate) struct Device {
    /// Which driver has it.
    pub major: u32,
    /// Which of that driver's devices it is.
    pub minor: u32,
}

/// Which file or block device it is, whatever its names are: hard links, symbolic links and nodes of one device have one. The order of
/// them means nothing, and is the same for every program.
#[derive(Clone, Copy, PartialEq, Eq, PartialOrd, Ord)]
pub(crate) enum FileId {
    /// A file, by the number of its file system's device and by its own in that file system.
    File { device: Device, inode: u64 },
    /// A block device, by its number.
    Block { device: Device },
}

impl Device {
    // The device of this number, which has the one in twelve bits and in the topmost ones, and the other between and below.
    fn of(number: u64) -> Device {
        let major = ((number >> 32) & 0xffff_f000) | ((number >> 8) & 0xfff);
        let minor = ((number >> 12) & 0xffff_ff00) | (number & 0xff);
        Device {
            major: (major & 0xffff_ffff) as u32,
            minor: (minor & 0xffff_ffff) as u32,
        }
    }
}

impl FileId {
    /// Which it is that was opened here.
    pub(crate) fn of(file: &File) -> io::Result<FileId> {
        Ok(id_of(&file.metadata()?))
    }

    /// Which it is that stands at this path now. Symbolic links are followed.
    pub(crate) fn at(rt: &HostRuntime, path: &str) -> io::Result<FileId> {
        Ok(id_of(&fs::metadata(rt, path)?))
    }
}

// Which it is of which the system says so.
fn id_of(metadata: &Metadata) -> FileId {
    if metadata.file_type().is_block_device() {
        return FileId::Block {
            device: Device::of(metadata.rdev()),
        };
    }
    FileId::File {
        device: Device::of(metadata.dev()),
        inode: metadata.ino(),
    }
}

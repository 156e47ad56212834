//! Why a file was not opened as a disk, and with whom it is shared.
ghost use Rattle.std.specs.Prelude.{◌≡◌};
ghost use Rattle.edge_file.specs.Unopened.{open_text};

use std::alloc::AllocError;
use std::fs::TryLockError;
use std::io::{self, ErrorKind};
use thiserror::Error;

/// Who else may have a file open as a disk while this program has it.
#[derive(Clone, Copy, PartialEq, Eq)]
pub enum Sharing {
    /// Nobody. A program that changes the disk wants this.
    Exclusive,
    /// Others that share it too, so that none of them may change the disk.
    Shared,
}

/// Why a file was not opened as a disk.
#[derive(Clone, Copy, Debug, PartialEq, Eq, Drop, Error)]
#[error("{}", self.text())]
pub enum OpenFault {
    /// There is no file of this name, or no folder to make it in.
    NotFound,
    /// The system doesn't let this program read and write it.
    NotAllowed,
    /// The name is a folder's.
    IsFolder,
    /// Another program has it open, and doesn't share it.
    InUse,
    /// It is a block device with a file system that is mounted.
    Mounted,
    /// It is a block device that `/sys/dev/block` doesn't show, so that no other program can be kept off it.
    Unclaimed,
    /// The file system has no room for it, or lets its owner have no more.
    NoRoom,
    /// It is longer than the limit on the size of a file that this program may write.
    OverLimit,
    /// A sync of it failed, made twice.
    Unsynced,
    /// No memory was found.
    NoMemory,
    /// The name is neither a file's nor a block device's.
    NoFile,
    /// Any other failure of the system's.
    Other,
}

impl OpenFault {
    /// The text for it: one line, without its end.
    pub fn text(self) -> &'static str
        ensures { result.now ≡ open_text self }
    {
        match self {
            OpenFault::NotFound => "not found",
            OpenFault::NotAllowed => "not allowed",
            OpenFault::IsFolder => "a folder",
            OpenFault::InUse => "in use",
            OpenFault::Mounted => "its file system is mounted",
            OpenFault::Unclaimed => {
                "/sys/dev/block doesn't show it, so that others can't be kept off it"
            }
            OpenFault::NoRoom => "no room on its file system",
            OpenFault::OverLimit => {
                "no room: longer than this program may write (ulimit -f, LimitFSIZE=)"
            }
            OpenFault::Unsynced => "a sync failed",
            OpenFault::NoMemory => "no memory",
            OpenFault::NoFile => "neither a file nor a block device",
            OpenFault::Other => "can't be opened",
        }
    }
}

/// Why two files were not opened as disks.
#[derive(Clone, Copy, Debug, PartialEq, Eq, Drop, Error)]
pub enum PairFault {
    /// The first was not opened, for this reason.
    #[error(transparent)]
    First(OpenFault),
    /// The second was not.
    #[error(transparent)]
    Second(OpenFault),
    /// Both names are of one file or one block device.
    #[error("both names are of one file")]
    OneFile,
}

impl From<io::Error> for OpenFault {
    fn from(error: io::Error) -> OpenFault {
        match error.kind() {
            ErrorKind::NotFound => OpenFault::NotFound,
            ErrorKind::PermissionDenied | ErrorKind::ReadOnlyFilesystem => OpenFault::NotAllowed,
            ErrorKind::IsADirectory => OpenFault::IsFolder,
            ErrorKind::StorageFull | ErrorKind::QuotaExceeded => OpenFault::NoRoom,
            ErrorKind::FileTooLarge => OpenFault::OverLimit,
            ErrorKind::OutOfMemory => OpenFault::NoMemory,
            _ => OpenFault::Other,
        }
    }
}

impl From<TryLockError> for OpenFault {
    fn from(error: TryLockError) -> OpenFault {
        match error {
            TryLockError::WouldBlock => OpenFault::InUse,
            TryLockError::Error(error) => OpenFault::from(error),
        }
    }
}

impl From<AllocError> for OpenFault {
    fn from(_error: AllocError) -> OpenFault {
        OpenFault::NoMemory
    }
}

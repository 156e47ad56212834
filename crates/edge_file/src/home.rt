//! Where a file stands.
ghost use Rattle.std.specs.Prelude.{◌≡◌, IfOk};

use crate::file_id::FileId;
use std::alloc::AllocError;
use std::io::{self, ErrorKind};
use std::rt::Clock;

/// The path by which a file was opened, and which file that was.
#[derive(Drop)]
pub struct Home {
    rt: HostRuntime,
    path: String,
    id: FileId,
}

impl Home {
    /// What stands at this path now.
    pub fn look(rt: &HostRuntime, path: &str) -> io::Result<Home> {
        let id = FileId::at(rt, path)?;
        let home = Home::new(rt, path, id)?;
        Ok(home)
    }

    /// The file that was opened by this path. The error says that no memory was found.
    pub(crate) fn new(rt: &HostRuntime, path: &str, id: FileId) -> Result<Home, AllocError>
        ensures { IfOk result (λ home. home.id ≡ id) }
    {
        Ok(Home {
            rt: *rt,
            path: String::from_str(rt.alloc(), path)?,
            id,
        })
    }

    /// The milliseconds since some moment, or none without a clock.
    pub(crate) fn millis(&self) -> Option<u64> {
        match self.rt.monotonic() {
            Ok(now) => u64::try_from(now.as_millis()).ok(),
            Err(_) => None,
        }
    }

    /// Whether the file is at its path no more: it was removed or renamed, or another one stands there. Where the system can't say, it is
    /// taken as there. A block device is always there, since nothing of it goes with its node.
    pub fn is_left(&self) -> bool {
        if let FileId::Block { .. } = self.id {
            return false;
        }
        match FileId::at(&self.rt, self.path.as_str()) {
            Ok(id) => id != self.id,
            Err(error) => { matches!(error.kind(), ErrorKind::NotFound | ErrorKind::NotADirectory) }
        }
    }
}

//! A device made an empty spool.
ghost use Rattle.std.specs.Prelude.{◌≡◌, ◌≢◌, ◌≤◌, OnOk, MatchResult, IsErrOf};
ghost use Rattle.spool_state.specs.Image.{slot_at, StandsFor};
ghost use Rattle.spool_state.specs.Empty.{empty_state};
ghost use Rattle.edge_disk.specs.Calls.{Calls};
ghost use Rattle.edge_disk.specs.Disk.{IsSettled, LeavesOnly};
ghost use Rattle.edge_disk.specs.Leave.{LetsAll};
ghost use Rattle.spool_log.specs.Making.Format.{IsFormatStep, CameOf};

use crate::making::steps::make_empty;
use crate::reading::header::FIRST_SLOT;
use edge_disk::{Disk, DiskFault};
use thiserror::Error;

/// Why a device was not made an empty spool.
#[derive(Clone, Copy, PartialEq, Eq, Debug, Drop, Error)]
pub enum FormatFault {
    /// The device has `have` bytes, and so many slots of this size need `want`. No call was made.
    #[error("device has {have} bytes, {want} wanted")]
    WrongLength { have: u64, want: u64 },
    /// A call of the disk failed.
    #[error("disk fault")]
    DiskFault,
}

impl From<DiskFault> for FormatFault {
    ghost use Rattle.spool_log.specs.declared.making.formatting.FormatFault.TheVariants.{DiskFault as Failed};

    ghost from_gives = { λ _ e. e ≡ Failed };

    fn from(_: DiskFault) -> FormatFault {
        FormatFault::DiskFault
    }
}

/// Makes the device an empty spool of so many slots of `size` bytes: a sync; where the device begins with
/// the magic, zero bytes over it and a sync; all the rest and a sync; the magic and a sync. It takes no
/// memory.
///
/// `WrongLength` comes exactly where the device hasn't 12,288 bytes and those of the slots; then no call of
/// the disk was made. A crash leaves what it could leave before, no spool, or the empty one.
pub fn format<D: Disk>(disk: &mut D, slots: u32, size: u64) -> Result<(), FormatFault>
    requires some { 1 ≤ slots }
    requires few { slots ≤ 1024 }
    requires large { 4096 ≤ size }
    requires small { size ≤ 1073741824 }
    requires free { LetsAll D.may_tear }

    ensures length { MatchResult result (λ _. (D.moment disk.old).size ≡ slot_at size slots) (CameOf (D.moment disk.old).size (slot_at size slots)) }
    ensures unchanged { (D.moment disk.old).size ≢ slot_at size slots → disk.new ≡ disk.old }
    ensures calls { Calls (IsErrOf result FormatFault.DiskFault) (D.moment disk.old) (D.moment disk.new) }

    ensures durable { OnOk result (D.tells → IsSettled (D.moment disk.new)) }
    ensures empty { OnOk result (D.tells → StandsFor (empty_state slots size) (D.moment disk.new).reads) }
    ensures any_moment { D.tells → LeavesOnly (IsFormatStep slots size (D.moment disk.old)) (D.moment disk.old) (D.moment disk.new) }
{
    let want = FIRST_SLOT + u64::from(slots) * size;
    let have = disk.len();
    if have != want {
        return Err(FormatFault::WrongLength { have, want });
    }
    make_empty(disk, slots, size)?;
    Ok(())
}

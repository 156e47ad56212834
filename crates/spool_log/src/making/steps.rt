//! The steps by which a device is made an empty spool.
ghost use Rattle.std.specs.Prelude.{◌≡◌, ◌≢◌, ℕ, ◌+◌, ◌<◌, ◌≤◌, [], ◌∷◌, ◌++◌, slice_index, OnOk, IsErr};
ghost use Rattle.std.specs.Int.{to_be_bytes};
ghost use mir.Syntax.{w32, w64};
ghost use Rattle.foundation.specs.Bytes.{part, put};
ghost use Rattle.spool_state.specs.Segment.{head_text};
ghost use Rattle.spool_state.specs.Cells.{content_text, cell_text};
ghost use Rattle.spool_state.specs.Image.{slot_at, magic, StandsFor};
ghost use Rattle.spool_state.specs.Rules.{IsLayout};
ghost use Rattle.spool_state.specs.Empty.{empty_state, IsFront, IsBody};
ghost use Rattle.edge_disk.specs.Calls.{Calls};
ghost use Rattle.edge_disk.specs.Disk.{IsSettled, LeavesOnly};
ghost use Rattle.edge_disk.specs.Gate.{ComesFrom};
ghost use Rattle.edge_disk.specs.Leave.{LetsAll};
ghost use Rattle.spool_log.specs.Making.Format.{HasNoName, IsFormatStep, KeepsFront, IsEraseStep, IsNameStep};

use crate::reading::header::FIRST_SLOT;
use edge_disk::{Disk, DiskFault};

// The first cell: open, ordinal 1, 19 bytes, version 2, run 0, cursor 0 and no stretch.
const CELL: [u8; 32] = [
    1, 0, 0, 0, 0, 0, 0, 0, 1, 0, 0, 0, 19, 2, 0, 0, 0, 0, 0, 0, 0, 0, 0, 0, 0, 0, 0, 0, 0, 0, 0, 0,
];

// Slot 0: open, ordinal 1, first number 0, and the closed gate of its first group.
const HEAD: [u8; 18] = [1, 0, 0, 0, 0, 0, 0, 0, 1, 0, 0, 0, 0, 0, 0, 0, 0, 0];

// Erases the magic where it stands: a read, a write, a sync. Else it writes nothing.
fn erase_name<D: Disk>(disk: &mut D) -> Result<(), DiskFault>
    requires room { 12288 ≤ (D.moment disk.old).size }
    requires settled { D.tells → IsSettled (D.moment disk.old) }
    requires free { LetsAll D.may_tear }

    ensures calls { Calls (IsErr result) (D.moment disk.old) (D.moment disk.new) }
    ensures durable { OnOk result (D.tells → IsSettled (D.moment disk.new)) }
    ensures erased { OnOk result (D.tells → HasNoName (D.moment disk.new).reads) }
    ensures any_moment { D.tells → LeavesOnly (IsEraseStep (D.moment disk.old).reads) (D.moment disk.old) (D.moment disk.new) }
{
    let mut name = [0; 8];
    disk.read_at(0, &mut name)?;
    if &name != b"RLBSPOOL" {
        return Ok(());
    }
    disk.write_at(0, &[0; 8])?;
    disk.sync()
}

// Writes the magic: a write, a sync.
fn write_name<D: Disk>(disk: &mut D) -> Result<(), DiskFault>
    requires room { 12288 ≤ (D.moment disk.old).size }
    requires settled { D.tells → IsSettled (D.moment disk.old) }
    requires none { D.tells → HasNoName (D.moment disk.old).reads }
    requires free { LetsAll D.may_tear }

    ensures calls { Calls (IsErr result) (D.moment disk.old) (D.moment disk.new) }
    ensures durable { OnOk result (D.tells → IsSettled (D.moment disk.new)) }
    ensures written { OnOk result (D.tells → (D.moment disk.new).reads ≡ put 0 magic (D.moment disk.old).reads) }
    ensures any_moment { D.tells → LeavesOnly (IsNameStep (D.moment disk.old).reads) (D.moment disk.old) (D.moment disk.new) }
{
    disk.write_at(0, b"RLBSPOOL")?;
    disk.sync()
}

// The number of slots and their size, as the header has them.
fn numbers(slots: u32, size: u64) -> [u8; 12]
    ensures { result ≡ to_be_bytes w32 slots ++ to_be_bytes w64 size }
{
    let mut text = [0; 12];
    text[..4].copy_from_slice(&slots.to_be_bytes());
    text[4..].copy_from_slice(&size.to_be_bytes());
    text
}

// Writes the numbers of the header, the cells and the first slot. Nothing of it is durable yet.
#[tactic(auto, unfolding(spool_state::specs::Cells::content_text, spool_state::specs::Cells::known_text, spool_state::specs::Cells::body_text, spool_state::specs::Segment::head_text))]
fn write_front<D: Disk>(disk: &mut D, slots: u32, size: u64) -> Result<(), DiskFault>
    requires room { 16384 ≤ (D.moment disk.old).size }
    requires free { LetsAll D.may_tear }

    ensures calls { Calls (IsErr result) (D.moment disk.old) (D.moment disk.new) }
    ensures written { OnOk result (D.tells → IsFront slots size (D.moment disk.new).reads) }
    ensures any_moment { D.tells → LeavesOnly (ComesFrom (D.moment disk.old) (KeepsFront 8)) (D.moment disk.old) (D.moment disk.new) }
{
    disk.write_at(8, &numbers(slots, size))?;
    disk.write_at(4096, &CELL)?;
    disk.write_at(8192, &[0])?;
    disk.write_at(FIRST_SLOT, &HEAD)
}

// Closes all slots but the first one. Nothing of it is durable yet.
fn close_slots<D: Disk>(disk: &mut D, slots: u32, size: u64) -> Result<(), DiskFault>
    requires layout { IsLayout slots size (D.moment disk.old).size }
    requires free { LetsAll D.may_tear }

    ensures calls { Calls (IsErr result) (D.moment disk.old) (D.moment disk.new) }
    ensures kept { OnOk result (D.tells → KeepsFront (slot_at size 1) (D.moment disk.old).reads (D.moment disk.new).reads) }
    ensures closed { OnOk result (D.tells → (place : ℕ) → 1 ≤ place → place < slots → slice_index (D.moment disk.new).reads (slot_at size place) ≢ 1) }
    ensures any_moment { D.tells → LeavesOnly (ComesFrom (D.moment disk.old) (KeepsFront 8)) (D.moment disk.old) (D.moment disk.new) }
{
    for place in 1..slots {
        disk.write_at(FIRST_SLOT + u64::from(place) * size, &[0])?;
    }
    Ok(())
}

// Writes all that an empty spool is but the magic, and makes it durable: some writes, a sync. The first
// eight bytes stay.
fn write_body<D: Disk>(disk: &mut D, slots: u32, size: u64) -> Result<(), DiskFault>
    requires layout { IsLayout slots size (D.moment disk.old).size }
    requires settled { D.tells → IsSettled (D.moment disk.old) }
    requires free { LetsAll D.may_tear }

    ensures calls { Calls (IsErr result) (D.moment disk.old) (D.moment disk.new) }
    ensures durable { OnOk result (D.tells → IsSettled (D.moment disk.new)) }
    ensures written { OnOk result (D.tells → IsBody slots size (D.moment disk.new).reads) }
    ensures any_moment { D.tells → LeavesOnly (KeepsFront 8 (D.moment disk.old).reads) (D.moment disk.old) (D.moment disk.new) }
{
    write_front(disk, slots, size)?;
    close_slots(disk, slots, size)?;
    disk.sync()
}

/// Makes a device of this length an empty spool of so many slots: a sync, the magic erased, the rest
/// written, the magic written. It takes no memory.
pub(crate) fn make_empty<D: Disk>(disk: &mut D, slots: u32, size: u64) -> Result<(), DiskFault>
    requires layout { IsLayout slots size (D.moment disk.old).size }
    requires free { LetsAll D.may_tear }

    ensures calls { Calls (IsErr result) (D.moment disk.old) (D.moment disk.new) }
    ensures durable { OnOk result (D.tells → IsSettled (D.moment disk.new)) }
    ensures empty { OnOk result (D.tells → StandsFor (empty_state slots size) (D.moment disk.new).reads) }
    ensures any_moment { D.tells → LeavesOnly (IsFormatStep slots size (D.moment disk.old)) (D.moment disk.old) (D.moment disk.new) }
{
    disk.sync()?;
    erase_name(disk)?;
    write_body(disk, slots, size)?;
    write_name(disk)
}

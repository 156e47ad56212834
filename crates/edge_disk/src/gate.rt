//! A piece that comes to stand on the disk whole or not at all: it is written after a closed gate, one
//! byte that is open where it is 1, and the gate is opened once the piece is durable.
ghost use Rattle.std.specs.Prelude.{◌≡◌, ◌≢◌, List, ℕ, ◌+◌, ◌<◌, ◌≤◌, [], ◌∷◌, length, slice_index, IsErr, OnOk};
ghost use Rattle.foundation.specs.Bytes.{put};
ghost use Rattle.edge_disk.specs.Calls.{Calls};
ghost use Rattle.edge_disk.specs.Disk.{IsSettled, LeavesOnly};
ghost use Rattle.edge_disk.specs.Gate.{IsGateStep, ComesFrom, GoesBehind};
ghost use Rattle.edge_disk.specs.Leave.{Lets};

use crate::{Disk, DiskFault};

/// Writes `piece` after the gate at offset `gate`, and opens the gate: a write, a sync, a write, a sync. The
/// disk may have writes that are not durable yet, but the gate is closed in every image. At each moment it
/// still is, or the piece stands after it whole, and no other byte of an image changed. After a fault, too,
/// so a sync and a read of the gate tell which it is.
pub fn write_behind<D: Disk>(disk: &mut D, gate: u64, piece: &[u8]) -> Result<(), DiskFault>
    requires room { gate + length piece.now + 1 ≤ (D.moment disk.old).size }
    requires closed { D.tells → (c : List ℕ) → (D.moment disk.old).image c → slice_index c gate ≢ 1 }
    requires leave { Lets D.tells D.moment D.may_tear (GoesBehind (D.moment disk.old) gate piece.now) }

    ensures calls { Calls (IsErr result) (D.moment disk.old) (D.moment disk.new) }
    ensures durable { OnOk result (D.tells → IsSettled (D.moment disk.new)) }
    ensures written { OnOk result (D.tells
        → (D.moment disk.new).reads ≡ put gate (1 ∷ piece.now) (D.moment disk.old).reads) }
    ensures any_moment { D.tells
        → LeavesOnly (ComesFrom (D.moment disk.old) (IsGateStep gate piece.now)) (D.moment disk.old) (D.moment disk.new) }
{
    disk.write_at(gate + 1, piece)?;
    disk.sync()?;
    open_gate(disk, gate)
}

/// Opens the gate at offset `gate`, where what stands after it is durable: a write of 1, a sync. For a
/// piece that was written in several parts. At each moment the gate is closed or open, and no other byte
/// changes.
pub fn open_gate<D: Disk>(disk: &mut D, gate: u64) -> Result<(), DiskFault>
    requires room { gate < (D.moment disk.old).size }
    requires settled { D.tells → IsSettled (D.moment disk.old) }
    requires leave { ∥ D.may_tear disk.old gate 1 ∥₁ }

    ensures calls { Calls (IsErr result) (D.moment disk.old) (D.moment disk.new) }
    ensures durable { OnOk result (D.tells → IsSettled (D.moment disk.new)) }
    ensures written { OnOk result (D.tells
        → (D.moment disk.new).reads ≡ put gate (1 ∷ []) (D.moment disk.old).reads) }
    ensures any_moment { D.tells
        → LeavesOnly (IsGateStep gate [] (D.moment disk.old).reads) (D.moment disk.old) (D.moment disk.new) }
{
    disk.write_at(gate, &[1])?;
    disk.sync()
}

/// Closes the gate at offset `gate`: a write of 0, a sync. The disk may have writes that are not durable
/// yet: each image comes from one of before, by no change but at the gate.
pub fn close_gate<D: Disk>(disk: &mut D, gate: u64) -> Result<(), DiskFault>
    requires room { gate < (D.moment disk.old).size }
    requires leave { ∥ D.may_tear disk.old gate 1 ∥₁ }

    ensures calls { Calls (IsErr result) (D.moment disk.old) (D.moment disk.new) }
    ensures durable { OnOk result (D.tells → IsSettled (D.moment disk.new)) }
    ensures written { OnOk result (D.tells
        → (D.moment disk.new).reads ≡ put gate (0 ∷ []) (D.moment disk.old).reads) }
    ensures any_moment { D.tells
        → LeavesOnly (ComesFrom (D.moment disk.old) (IsGateStep gate [])) (D.moment disk.old) (D.moment disk.new) }
{
    disk.write_at(gate, &[0])?;
    disk.sync()
}

//! The counting cell read whole, and a cell written.
ghost use Rattle.std.specs.Prelude.{◌≡◌, ◌≢◌, List, ℕ, ◌+◌, ◌*◌, ◌≤◌, [], ◌∷◌, length, slice_index, vec_capacity, All, IsErr, OnOk, IfOk, IfErr, IsErrOf};
ghost use Rattle.foundation.specs.Bytes.{part, put};
ghost use Rattle.edge_disk.specs.Calls.{Calls};
ghost use Rattle.edge_disk.specs.Disk.{IsSettled, IsUntouched, LeavesOnly};
ghost use Rattle.edge_disk.specs.Gate.{IsGateStep, ComesFrom, GoesBehind};
ghost use Rattle.edge_disk.specs.Leave.{Lets};
ghost use Rattle.known_numbers.specs.declared.stretch.TheConstants.{MOST_STRETCHES};
ghost use Rattle.spool_state.specs.Layout.{first_slot};
ghost use Rattle.spool_state.specs.Cells.{stretches_text, content_text, body_text};
ghost use Rattle.disk_cell.specs.Cell.{place_of};
ghost use Rattle.disk_cell.specs.Content.{HasRoomInCell};
ghost use Rattle.disk_cell.specs.Fields.{IsRegisterOf, IsBadAt};

use crate::fields::Fields;
use crate::text::{MOST_BODY, MOST_KNOWN, STRETCH, put_body, take_stretches};
use crate::{Cell, Content, LoadFault, Register};
use edge_disk::{Disk, DiskFault, write_behind};
use known_numbers::Stretch;

// Reads so many stretches, which stand at an offset. Where there are none, nothing is read.
fn read_stretches<D: Disk>(
    disk: &mut D,
    at: u64,
    count: usize,
    known: &mut Vec<Stretch>,
) -> Result<(), DiskFault>
    requires few { count ≤ MOST_STRETCHES }
    requires place { at + 16 * count ≤ (D.moment disk.old).size }
    requires none { known.old.items ≡ [] }
    requires room { MOST_STRETCHES ≤ vec_capacity known.old }

    ensures calls { Calls (IsErr result) (D.moment disk.old) (D.moment disk.new) }
    ensures untouched { D.tells → IsUntouched (D.moment disk.old) (D.moment disk.new) }
    ensures text { OnOk result (D.tells → part at (16 * count) (D.moment disk.old).reads ≡ stretches_text known.new.items) }
    ensures count { OnOk result (length known.new.items ≡ count) }
    ensures fits { OnOk result (All HasRoomInCell known.new.items) }
    ensures room { OnOk result (MOST_STRETCHES ≤ vec_capacity known.new) }
{
    if count == 0 {
        return Ok(());
    }
    let mut text = [0; MOST_KNOWN];
    disk.read_at(at, &mut text[..STRETCH * count])?;
    take_stretches(&text, count, known);
    Ok(())
}

// The register whose counting cell has these fields, where they are good.
pub(crate) fn read_register<D: Disk>(
    disk: &mut D,
    counting: Cell,
    fields: &Fields,
    other_is_open: bool,
    mut known: Vec<Stretch>,
) -> Result<Register, LoadFault>
    requires place { first_slot ≤ (D.moment disk.old).size }
    requires none { known.items ≡ [] }
    requires room { MOST_STRETCHES ≤ vec_capacity known }

    ensures calls { Calls (IsErrOf result LoadFault.DiskFault) (D.moment disk.old) (D.moment disk.new) }
    ensures untouched { D.tells → IsUntouched (D.moment disk.old) (D.moment disk.new) }
    ensures ok { IfOk result (IsRegisterOf counting other_is_open fields.now) }
    ensures known { IfOk result (λ register. D.tells
        → part (place_of counting + 32) (16 * length register.content.known.items) (D.moment disk.old).reads
        ≡ stretches_text register.content.known.items) }
    ensures fits { IfOk result (λ register. All HasRoomInCell register.content.known.items) }
    ensures bad { IfErr result (IsBadAt counting fields.now) }
{
    let Some(count) = fields.stretches() else {
        return Err(LoadFault::NotSpool {
            at: counting.offset(),
        });
    };
    read_stretches(disk, counting.offset() + 32, count, &mut known)?;
    Ok(Register {
        counting,
        other_is_open,
        ordinal: fields.ordinal,
        content: Content {
            version: fields.version,
            run: fields.run as u32,
            cursor: fields.cursor,
            known,
        },
    })
}

// Writes the cell at an offset, whose gate is closed, and opens the gate.
pub(crate) fn write_cell<D: Disk>(
    disk: &mut D,
    gate: u64,
    ordinal: u64,
    run: u32,
    cursor: u64,
    known: &[Stretch],
) -> Result<(), DiskFault>
    requires few { length known.now ≤ MOST_STRETCHES }
    requires room { gate + 3872 ≤ (D.moment disk.old).size }
    requires closed { D.tells → (c : List ℕ) → (D.moment disk.old).image c → slice_index c gate ≢ 1 }
    requires leave { Lets D.tells D.moment D.may_tear
        (GoesBehind (D.moment disk.old) gate (body_text ordinal (content_text run cursor known.now))) }

    ensures calls { Calls (IsErr result) (D.moment disk.old) (D.moment disk.new) }
    ensures durable { OnOk result (D.tells → IsSettled (D.moment disk.new)) }
    ensures written { OnOk result (D.tells → (D.moment disk.new).reads
        ≡ put gate (1 ∷ body_text ordinal (content_text run cursor known.now)) (D.moment disk.old).reads) }
    ensures any_moment { D.tells → LeavesOnly
        (ComesFrom (D.moment disk.old) (IsGateStep gate (body_text ordinal (content_text run cursor known.now))))
        (D.moment disk.old) (D.moment disk.new) }
{
    let mut body = [0; MOST_BODY];
    let len = put_body(&mut body, ordinal, run, cursor, known);
    write_behind(disk, gate, &body[..len])
}

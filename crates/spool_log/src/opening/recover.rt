//! A spool opened from its device.
ghost use Rattle.std.specs.Prelude.{◌≡◌, ◌⊎◌, ◌+◌, ◌<◌, ◌≤◌, List, [], ◌∷◌, false, length, OnOk, OnErr, IfOk, IfErr, IsErrOf, MatchResult};
ghost use Rattle.spool_state.specs.SpoolState.{SpoolState};
ghost use Rattle.spool_state.specs.Image.{slot_at, StandsFor};
ghost use Rattle.edge_disk.specs.Calls.{Calls};
ghost use Rattle.edge_disk.specs.Disk.{IsSettled, LeavesOnly};
ghost use Rattle.spool_log.specs.Knows.{IsStored};
ghost use Rattle.spool_log.specs.State.{KnowsDevice};
ghost use Rattle.spool_answers.specs.Leave.{LetsKeep};
ghost use Rattle.spool_answers.specs.Stages.{StandsForOne};
ghost use Rattle.spool_log.specs.Opening.{raise_stages, opened, CanOpen, Refuses, IsRefusedAs, IsOpening, IsRefusing};

use crate::reading::device::read_device;
use crate::{Memory, Opening, RecoverFault, Spool};
use edge_disk::Disk;
use known_numbers::KnownNumbers;
use spool_slots::Window;
use std::alloc::{AllocError, Global};

/// The last run that a spool can be opened for.
const LAST_RUN: u32 = 2_097_151;

/// What a spool reserves when it is opened.
#[derive(Drop)]
struct Reserve {
    buffer: Vec<u8>,
    window: Window,
    numbers: KnownNumbers,
    ghost whole: { length buffer.items ≡ 65536 },
}

fn take_reserve(alloc: Global) -> Result<Reserve, AllocError> {
    Ok(Reserve {
        buffer: vec![in alloc; 0; 65_536]?,
        window: Window::new(alloc)?,
        numbers: KnownNumbers::reserve(alloc)?,
    })
}

impl Memory {
    /// Raises the run by one. What is known stays known.
    fn raise<D: Disk>(
        &mut self,
        disk: &mut D,
        numbers: &mut KnownNumbers,
    ) -> Result<(), RecoverFault>
        requires long { (D.moment disk.old).size ≡ slot_at self.old.size self.old.slots }
        requires settled { D.tells → IsSettled (D.moment disk.old) }
        requires stored { D.tells → KnowsDevice self.old (D.moment disk.old).reads }
        requires leave { LetsKeep D.tells D.moment D.may_tear D.may_release }

        ensures calls { Calls (IsErrOf result RecoverFault.DiskFault) (D.moment disk.old) (D.moment disk.new) }
        ensures same_device { (self.new.size ≡ self.old.size) × (self.new.slots ≡ self.old.slots) }
        ensures durable { OnOk result (D.tells → IsSettled (D.moment disk.new)) }
        ensures stored { OnOk result ((s : SpoolState) → D.tells → IsStored s self.old (D.moment disk.old).reads
            → CanOpen Opening.Raise s × IsStored (opened Opening.Raise s) self.new (D.moment disk.new).reads) }
        ensures refused { IfErr result (λ fault. (s : SpoolState) → D.tells → IsStored s self.old (D.moment disk.old).reads → Refuses Opening.Raise s fault) }
        ensures unchanged { IfErr result (λ fault. (fault ≡ RecoverFault.DiskFault) ⊎ (disk.new ≡ disk.old)) }
        ensures any_moment { (s : SpoolState) → D.tells → IsStored s self.old (D.moment disk.old).reads
            → LeavesOnly (StandsForOne s (raise_stages Opening.Raise s)) (D.moment disk.old) (D.moment disk.new) }
    {
        let content = self.register.value();
        if content.run == LAST_RUN {
            return Err(RecoverFault::RunsSpent { run: content.run });
        }
        let run = content.run + 1;
        numbers.set(content.cursor, &content.known);
        self.write_register(disk, run, numbers)?;
        Ok(())
    }
}

/// Opens a device. After a fault of the disk it has what it had, or the run raised; after another error what it had.
fn open<D: Disk>(
    alloc: Global,
    disk: &mut D,
    window: &mut Window,
    numbers: &mut KnownNumbers,
    opening: Opening,
) -> Result<Memory, RecoverFault>
    requires leave { LetsKeep D.tells D.moment D.may_tear D.may_release }

    ensures calls { Calls (IsErrOf result RecoverFault.DiskFault) (D.moment disk.old) (D.moment disk.new) }
    ensures long { IfOk result (λ memory. (D.moment disk.new).size ≡ slot_at memory.size memory.slots) }
    ensures durable { OnOk result (D.tells → IsSettled (D.moment disk.new)) }
    ensures found { IfOk result
        (λ memory. D.tells
        → (s : SpoolState) × StandsFor s (D.moment disk.old).reads × CanOpen opening s
        × IsStored (opened opening s) memory (D.moment disk.new).reads) }
    ensures refused { IfErr result (λ fault. (s : SpoolState) → D.tells → StandsFor s (D.moment disk.old).reads → Refuses opening s fault) }
    ensures broken { IfErr result (λ fault. D.tells → IsRefusedAs opening (D.moment disk.old).reads fault) }
    ensures any_moment { D.tells
        → MatchResult result (λ _. LeavesOnly (IsOpening opening (D.moment disk.old)) (D.moment disk.old) (D.moment disk.new))
        (λ fault. LeavesOnly (IsRefusing opening fault (D.moment disk.old)) (D.moment disk.old) (D.moment disk.new)) }
{
    disk.sync()?;
    let mut memory = read_device(alloc, disk, window)?;
    match opening {
        Opening::Keep => Ok(memory),
        Opening::Raise => {
            memory.raise(disk, numbers)?;
            Ok(memory)
        }
    }
}

/// Why a device was not opened, and the disk that was handed in.
#[derive(Drop)]
pub struct Refusal<D> {
    pub fault: RecoverFault,
    pub disk: D,
}

impl<D: Disk> Spool<D> {
    ghost use Rattle.spool_log.specs.State.{view};
    ghost use Rattle.spool_log.specs.Opening.{Opens};

    /// Opens the spool of a device, after a sync. With `Opening::Raise` the run is one more than before, and
    /// that is durable. The refusal gives the disk back.
    ///
    /// `NotSpool` comes exactly where the device breaks a rule of the layout, with the place of the first one;
    /// then `RunsSpent` exactly where the run is to be raised and is 2,097,151; then `Worn` exactly where the
    /// run is to be raised and the register was written 2^63 times. `DiskFault` comes only where a call of the
    /// disk failed.
    pub fn recover(alloc: Global, mut disk: D, opening: Opening) -> Result<Spool<D>, Refusal<D>>
        requires leave { LetsKeep D.tells D.moment D.may_tear D.may_release }

        ensures calls { MatchResult result (λ spool. Calls ⊥ (D.moment disk) (D.moment spool.disk))
            (λ refusal. Calls (refusal.fault ≡ RecoverFault.DiskFault) (D.moment disk) (D.moment refusal.disk)) }
        ensures sure { IfOk result (λ spool. spool.doubt ≡ false) }

        ensures opened { IfOk result
            (λ spool. D.tells → (s : SpoolState) × Opens opening s (D.moment disk).reads (view spool.memory spool.doubt (D.moment spool.disk))) }
        ensures refused { IfErr result (λ refusal. (s : SpoolState) → D.tells → StandsFor s (D.moment disk).reads → Refuses opening s refusal.fault) }
        ensures broken { IfErr result (λ refusal. D.tells → IsRefusedAs opening (D.moment disk).reads refusal.fault) }
        ensures any_moment { D.tells
            → MatchResult result (λ spool. LeavesOnly (IsOpening opening (D.moment disk)) (D.moment disk) (D.moment spool.disk))
            (λ refusal. LeavesOnly (IsRefusing opening refusal.fault (D.moment disk)) (D.moment disk) (D.moment refusal.disk)) }
    {
        let Ok(
            Reserve {
                buffer,
                mut window,
                mut numbers,
            },
        ) = take_reserve(alloc)
        else {
            return Err(Refusal {
                fault: RecoverFault::NoMemory,
                disk,
            });
        };
        match open(alloc, &mut disk, &mut window, &mut numbers, opening) {
            Ok(memory) => Ok(Spool {
                disk,
                memory,
                doubt: false,
                buffer,
                window,
                numbers,
                alloc,
            }),
            Err(fault) => Err(Refusal { fault, disk }),
        }
    }

    /// The disk. What is in doubt stays so on the device.
    pub fn into_disk(self) -> D
        ensures { result ≡ self.disk }
    {
        let Spool { disk, .. } = self;
        disk
    }
}

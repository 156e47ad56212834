//! Refusals of the spool and of the net, and endings of a session, as notes: each as the note of its name, with its numbers.
ghost use Rattle.std.specs.Prelude.{◌≡◌};
ghost use Rattle.bridge_parts.specs.Refused.{note_of_recover, note_of_pend, note_of_net, note_of_sent};

use edge_io::NetFault;
use forward_core::Sent;
use notes::Note;
use spool_answers::PendFault;
use spool_log::RecoverFault;

/// The note for a device that was not opened: it is no spool, it was opened or its register was written as often as it can be, a call
/// of the disk failed, or no memory was found.
pub fn recover_note(fault: RecoverFault) -> Note
    ensures { result ≡ note_of_recover fault }
{
    match fault {
        RecoverFault::NotSpool { at } => Note::NotSpool { at },
        RecoverFault::RunsSpent { run } => Note::RunsSpent { run },
        RecoverFault::Worn { ordinal } => Note::Worn { ordinal },
        RecoverFault::DiskFault => Note::DiskFault,
        RecoverFault::NoMemory => Note::NoMemory,
    }
}

/// The note for pending entries that were not read from an open spool.
pub fn pend_note(fault: PendFault) -> Note
    ensures { result ≡ note_of_pend fault }
{
    match fault {
        PendFault::NotSpool { at } => Note::NotSpool { at },
        PendFault::DiskFault => Note::DiskFault,
        PendFault::NoMemory => Note::NoMemory,
    }
}

/// The note for a place that was not dialed or bound: `NetFault`, or `NoMemory`.
pub fn net_note(fault: NetFault) -> Note
    ensures { result ≡ note_of_net fault }
{
    match fault {
        NetFault::Fault => Note::NetFault,
        NetFault::NoMemory => Note::NoMemory,
    }
}

/// The note for a session that forwarded entries and ended so: `Fine` where the peer acknowledged all that was to be sent.
pub fn sent_note(sent: Sent) -> Note
    ensures { result ≡ note_of_sent sent }
{
    match sent {
        Sent::Drained => Note::Fine,
        Sent::Refused { unit, code } => Note::Refused { unit, code },
        Sent::PeerClosed => Note::PeerClosed,
        Sent::PeerFault { at, why } => Note::Fault { at, why },
        Sent::Unconfirmed { asked } => Note::Unconfirmed { asked },
        Sent::TooMuch { at } => Note::TooMuch { at },
        Sent::ReadFault => Note::ReadFault,
        Sent::WriteFault => Note::WriteFault,
        Sent::DiskFault => Note::DiskFault,
        Sent::NotSpool { at } => Note::NotSpool { at },
        Sent::Worn { ordinal } => Note::Worn { ordinal },
        Sent::NoMemory => Note::NoMemory,
    }
}

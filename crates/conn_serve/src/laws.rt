//! What holds of the definitions alone. The functions do nothing: each has a law as its contract.
ghost use Rattle.conn_serve.specs.Acked.{AckedIsTaken, AcksAreOfGroups};
ghost use Rattle.conn_serve.specs.DiskFaults.{DiskFaultIsTold};
ghost use Rattle.conn_serve.specs.HecAcked.{SaidLiesWhole, AcknowledgedIsTaken, SettledIsStored, ToldIsTaken};
ghost use Rattle.conn_serve.specs.Numbering.{CallsAreOfConn};
ghost use Rattle.conn_serve.specs.RunsOfOne.{OneIsARun, RunsOfOne};
ghost use Rattle.conn_serve.specs.Sayable.{SayableIsTaken, SayableGroupIsTaken, SayableIdIsTaken, SayableIsSettled, SayableIsOfConn};

/// Whatever a sender finds acknowledged by whole frames at the front of the text of its connection was taken: the
/// numbers are those of the first events or groups that were taken, one each, in order. By RELP a `rsp` frame that says
/// `200 OK` acknowledges the event of its transaction number; by Lumberjack an `A` frame acknowledges the group whose last
/// event has that sequence number.
pub fn acked_is_taken()
    ensures { AckedIsTaken }
{}

/// The text of a Lumberjack connection is the acknowledgments of the groups that were taken, in order, one
/// each, the last one perhaps in part or not at all.
pub fn acks_are_of_groups()
    ensures { AcksAreOfGroups }
{}

/// What a collector's connection says for a request lies whole in its text. Where Success is said without an id, the
/// group that it acknowledges is one that was taken; an id is settled only after its entries were taken; and an id that
/// an answer tells true is that of a group that was taken, where no other caller has the desk and its table held no id.
pub fn replies_acknowledge_what_was_taken()
    ensures whole { SaidLiesWhole }
    ensures groups { AcknowledgedIsTaken }
    ensures settled { SettledIsStored }
    ensures told { ToldIsTaken }
{}

/// A connection ends with `DiskFault` where one of its calls on the desk was answered so, and then it made one such
/// call; and where it ends otherwise, none was. There is one exception: the collector says of such a call that it failed,
/// and where that reply is cut short, the connection ends with `WriteFault`.
pub fn disk_fault_is_told()
    ensures { DiskFaultIsTold }
{}

/// The calls of a connection take entries of its number alone, and its entries that were taken have the indexes 0, 1,
/// 2 and so on. So has a group that was refused, or that the disk failed to take: it is of the connection, and its indexes
/// go on from those that were taken before.
pub fn calls_are_of_conn()
    ensures { CallsAreOfConn }
{}

/// Whatever a connection may write once these calls were made, it acknowledges what they took, and no call that is still
/// to come. So the laws above hold at each write, and not at the ending alone: of the numbers that are acknowledged, of a
/// collector's replies, of where an id is settled, and of whose entries were taken.
pub fn what_may_be_said_is_taken()
    ensures acked { SayableIsTaken }
    ensures groups { SayableGroupIsTaken }
    ensures told { SayableIdIsTaken }
    ensures settled { SayableIsSettled }
    ensures own { SayableIsOfConn }
{}

/// Where RELP stores one event as a group at most, what a connection does is what it does frame by frame: a run of one is
/// a frame, and the connection ends at it in the same way. So storing runs changes nothing for one who doesn't ask for it.
pub fn runs_of_one()
    ensures { RunsOfOne }
{}

/// What RELP does frame by frame is allowed where runs are stored, however long they may be.
pub fn one_is_a_run()
    ensures { OneIsARun }
{}

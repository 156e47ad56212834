//! What holds of runs of the server. These functions do nothing: each has a law as its contract.
ghost use Rattle.spool_turns.specs.Replays.{desk_at};
ghost use Rattle.serve_desk.specs.Serving.{seating_as};
ghost use Rattle.serve_laws.specs.Laws.{AcknowledgedIsDurable, ConnectionsContribute, DiskFaultsAreCounted, DoorsTellDurable, EndCountsEntries};
ghost use Rattle.serve_laws.specs.Laws.{NothingElseIsAdded, NothingIsLeft, OrderIsKept, OrderWasKept, ReportsCountLinks, WorkersHaveParts};

use edge_disk::Disk;
use spool_desk::Desk;
use spool_turns::Naming;

/// In the one journal of a run each worker has a part: the links that it served, one after another, by its rules. Their calls are all
/// that the journal has of the worker. The first of these links are those that were given back, which the door reports in order, and
/// their number is what the worker reports. There is one link more only where no memory was found to give it back.
///
/// `AtDoor` says what the door reports of the part: how many links were accepted and how many wait, what each link read and wrote and
/// with which status it ended, and that its counts of reads and of writes that failed rose by at least as many as ended a link.
/// `Tells.at_end` says that no byte is left unread where a link's input was read to its end. `EndsBy` says why the worker ended: no
/// link waits, it served as many as it was to, an accept failed and is counted (`accept_faults`), or memory was wanting.
pub fn workers_have_parts<D: Disk, J: Naming>(_desk: &Desk<D>)
    ensures { WorkersHaveParts D.tells J.start (seating_as J.run J.seats J.began) (desk_at _desk.now) }
{}

/// Whatever is acknowledged to the sender of a link is durable, whether the link was given back or not: it was taken, and whatever a
/// crash leaves now has each of its entries at its number, or a cursor past that number. By RELP and Lumberjack the numbers
/// acknowledged are those of the first groups that the link's calls took. By the collector a Success without an id acknowledges the
/// group of its request, which the link's calls took. An answer of the collector that says true for an id acknowledges the group of
/// that id, which some caller had taken before the question; where the id is a number from 2^32 on, it is all that the journal added
/// with that id.
pub fn acknowledged_is_durable<D: Disk, J: Naming>(_desk: &Desk<D>)
    ensures { AcknowledgedIsDurable D.tells J.start (seating_as J.run J.seats J.began) (desk_at _desk.now) }
{}

/// So it is of each connection in the list that a door reports, where it keeps one: what was written to it acknowledges only what was
/// taken and is durable.
pub fn doors_tell_durable<D: Disk, J: Naming>(_desk: &Desk<D>)
    ensures { DoorsTellDurable D.tells J.start (seating_as J.run J.seats J.began) (desk_at _desk.now) }
{}

/// Of all entries that the journal added, in the order of the spool, those of a link's connection are exactly those that the link's
/// calls took, in order. Only the group of a take that was answered that the disk failed may come after them, whole. No other caller
/// added any. Which calls these are is said by the protocol's table of endings (`IsServed`): where a link was read to its end, to its
/// close or to a fault, they take all events of its bytes.
pub fn connections_contribute<D: Disk, J: Naming>(_desk: &Desk<D>)
    ensures { ConnectionsContribute D.tells J.start (seating_as J.run J.seats J.began) (desk_at _desk.now) }
{}

/// Each entry that the journal of a run added is of the connection of a link of one of its parts. So a run adds what its links
/// contribute, and nothing else.
pub fn nothing_else_is_added<D: Disk, J: Naming>(_desk: &Desk<D>)
    ensures { NothingElseIsAdded D.tells J.start (seating_as J.run J.seats J.began) (desk_at _desk.now) }
{}

/// The end of the spool, which is the number after its last entry, rose by exactly as many as entries were taken from the links,
/// where no call was answered that the disk failed, and else by at least as many. This is said of a desk that was given in no doubt.
pub fn end_counts_entries<D: Disk, J: Naming>(_desk: &Desk<D>)
    ensures { EndCountsEntries D.tells J.start (seating_as J.run J.seats J.began) (desk_at _desk.now) }
{}

/// Whatever a crash leaves now has each entry that was taken at its number, or a cursor past that number. Its list has the entries of
/// each link's connection in their order: those that the link contributed, but for first ones that are gone since the cursor passed
/// them. This is said where the desk was given with a legal list of entries of earlier runs, and what is left is such a list again
/// for the run after this one. In a legal list the indexes of each connection rise by one, and the entries of an id stand together. Entries
/// that were moved into the spool may stand among them: they have numbers from 2^63 on in place of a connection's, and no id.
pub fn order_is_kept<D: Disk, J: Naming>(_desk: &Desk<D>)
    ensures { OrderIsKept D.tells J.start (seating_as J.run J.seats J.began) (desk_at _desk.now) }
{}

/// Whatever a crash left at any moment since the desk was given has of each link's connection a beginning of what the link
/// contributed, in order, but for first entries that were gone by then. The premise is that of [`order_is_kept`]. That a group which
/// was being added is there whole or not at all is said by `Was`.
pub fn order_was_kept<D: Disk, J: Naming>(_desk: &Desk<D>)
    ensures { OrderWasKept D.tells J.start (seating_as J.run J.seats J.began) (desk_at _desk.now) }
{}

/// The disk's count of faults rose by at least the number of links, of all workers, that ended because the disk failed. Where takes of
/// several callers may be stored as one group, one failure can end a link at each worker: there the count rose by at least the number of
/// links that ended so at any one worker.
pub fn disk_faults_are_counted<D: Disk, J: Naming>(_desk: &Desk<D>)
    ensures { DiskFaultsAreCounted D.tells J.start (seating_as J.run J.seats J.began) (desk_at _desk.now) }
{}

/// The numbers of finished links that the workers report add up to the number of links that were given back at all doors.
pub fn reports_count_links()
    ensures { ReportsCountLinks }
{}

/// Where the last look of a run found nothing pending, or held a session that ended as `Drained`, each entry of the spool is known as
/// confirmed, the cursor is at the end, and the desk is in no doubt. Whatever a crash leaves now stands for such a spool too. The last
/// look comes once the workers have ended and the forwarder has seen all that they did.
pub fn nothing_is_left<D: Disk, J: Naming>(_desk: &Desk<D>)
    ensures { NothingIsLeft D.tells J.start (seating_as J.run J.seats J.began) (desk_at _desk.now) }
{}

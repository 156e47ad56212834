//! The desk.
use edge_disk::Disk;
use hec_ids::Ids;
use spool_log::Spool;

/// What the callers of a program share: its spool, and the acknowledgement ids of its run.
#[derive(Drop)]
pub struct Desk<D: Disk> {
    pub spool: Spool<D>,
    pub ids: Ids,
}

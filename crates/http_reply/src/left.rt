//! What is left of the last reply of some bytes.
ghost use Rattle.http_reply.specs.Scanning.{IsCleared};

use http_edge::{HttpFault, Stage};
use std::alloc::Global;

/// What is held of the reply after some whole ones, or the fault that it has.
#[derive(Drop)]
pub struct Left {
    /// Where the reply begins.
    pub from: usize,
    /// Its status, once its head is whole.
    pub begun: Option<u16>,
    pub stage: Stage,
    /// The body so far.
    pub body: Vec<u8>,
    /// How many of its bytes were read.
    pub read: usize,
    /// Those that weren't.
    pub unread: Vec<u8>,
    pub fault: Option<HttpFault>,
}

impl Left {
    /// Nothing is held of a reply with a fault.
    pub fn cleared(alloc: Global, from: usize, fault: HttpFault) -> Left
        ensures { IsCleared result from fault }
    {
        Left {
            from,
            begun: None,
            stage: Stage::Plain { left: 0 },
            body: Vec::new(alloc),
            read: 0,
            unread: Vec::new(alloc),
            fault: Some(fault),
        }
    }
}

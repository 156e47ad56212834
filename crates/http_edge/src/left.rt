//! What is held of the last request of some bytes.
ghost use Rattle.std.specs.Prelude.{◌≡◌};
ghost use Rattle.http_edge.specs.Scanning.{cleared};

use crate::fault::HttpFault;
use crate::head::Head;
use crate::stage::Stage;

/// What is held of the request after some whole ones, or the fault that it has.
#[derive(Drop)]
pub struct Left {
    /// Where the request begins.
    pub from: usize,
    /// Its head, once that is whole.
    pub begun: Option<Head>,
    /// How many bytes the head has, once it is whole.
    pub size: usize,
    pub stage: Stage,
    /// How many bytes its body has so far.
    pub body: usize,
    /// How many of its bytes were read.
    pub read: usize,
    /// How many weren't, at the end of all.
    pub rest: usize,
    pub fault: Option<HttpFault>,
}

impl Left {
    /// Nothing is held of a request with a fault.
    pub fn cleared(from: usize, fault: HttpFault) -> Left
        ensures { result ≡ cleared from fault }
    {
        Left {
            from,
            begun: None,
            size: 0,
            stage: Stage::Plain { left: 0 },
            body: 0,
            read: 0,
            rest: 0,
            fault: Some(fault),
        }
    }
}

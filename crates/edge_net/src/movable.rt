//! What may be moved to another thread.
use crate::{TcpDoor, TcpLink, TcpMonitor};

// A link, what accepts it, and a monitor may be moved to another thread: each impl below owes the proof.
trait Movable: Send {}

impl<R: Sync> Movable for TcpLink<'_, R> {}

impl<R: Sync> Movable for TcpDoor<'_, R> {}

impl<R: Sync> Movable for TcpMonitor<'_, R> {}

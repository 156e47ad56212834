//! Numbers of a spool that is served, and where those come in who ask for them.
ghost use Rattle.edge_io.specs.declared.monitor.SpoolNumbers.{SpoolNumbers};

/// How many events of each protocol were stored since a server started.
#[derive(Clone, Copy, Debug, PartialEq, Eq)]
pub struct EventCounts {
    /// By RELP.
    pub relp: u64,
    /// By Lumberjack.
    pub lumberjack: u64,
    /// By the collector's protocol.
    pub hec: u64,
}

/// Numbers of a spool that is served. All but `stored` stood so together at one moment.
#[derive(Clone, Copy, Debug, PartialEq, Eq)]
pub struct SpoolNumbers {
    /// The number of the run that serves it.
    pub run: u32,
    /// How many entries were stored since the spool was made: the number that the next one gets.
    pub end: u64,
    /// Below this number every entry is confirmed.
    pub cursor: u64,
    /// How many entries from the cursor on are confirmed.
    pub known_count: u64,
    /// How many bytes of events fit into what is left of the slots that are written to.
    pub room: u64,
    /// How many slots the spool has.
    pub slots: u32,
    /// How many of them are free.
    pub free_slots: u32,
    /// How many bytes of events a slot takes at most.
    pub most: u64,
    /// How many events this run has stored: none that isn't durable, and maybe not yet the last ones.
    pub stored: EventCounts,
}

/// An object at which those come in who ask for a spool's numbers.
pub trait Monitor {
    /// Those numbers may be told.
    ghost may_tell: { SpoolNumbers → Type 0 };

    /// Waits a short while for somebody who asks, and reports whether somebody does.
    fn is_asked(&mut self) -> bool;

    /// Answers whoever asks with these numbers. Where nobody does, it does nothing.
    fn tell(&mut self, numbers: &SpoolNumbers)
        requires { may_tell numbers.now };
}

//! A link in memory.
ghost use Rattle.std.specs.Prelude.{◌≡◌};

use crate::{Link, MemSink, MemSource, Object, ReadFault, Sink, Source, WriteFault};

/// A link that reads from a source in memory and writes to a sink in memory. It tells all, and the place at
/// which it was dialed if a [`crate::MemNet`] made it.
#[derive(Drop)]
pub struct MemLink {
    place: Option<String>,
    source: MemSource,
    sink: MemSink,
    // How many bytes of memory its connection claimed last, and how many at most.
    claimed: u64,
    most_claimed: u64,
}

/// What became of a link that was let go.
#[derive(Drop)]
pub(crate) struct Used {
    /// The place at which it was dialed, if it was.
    pub place: Option<String>,
    /// The bytes read from it.
    pub read: Vec<u8>,
    /// The bytes written to it.
    pub written: Vec<u8>,
    /// How many bytes were left unread.
    pub left: u64,
    /// How many reads have failed.
    pub read_faults: u64,
    /// How many writes have failed.
    pub write_faults: u64,
}

impl MemLink {
    ghost use Rattle.std.specs.Prelude.{Some, None};
    ghost use Rattle.std.specs.String.{string_bytes};
    ghost use Rattle.edge_io.specs.MemLink.{claimed_of, most_claimed_of, place_of, source_of, sink_of, IsUsed};

    /// A link of the two, which was not dialed.
    pub fn of(source: MemSource, sink: MemSink) -> MemLink
        ensures place { place_of result ≡ None }
        ensures source { source_of result ≡ source }
        ensures sink { sink_of result ≡ sink }
    {
        MemLink {
            place: None,
            source,
            sink,
            claimed: 0,
            most_claimed: 0,
        }
    }

    /// A link of the two that was dialed at that place.
    pub(crate) fn dialed(place: String, source: MemSource, sink: MemSink) -> MemLink
        ensures place { place_of result ≡ Some (string_bytes place) }
        ensures source { source_of result ≡ source }
        ensures sink { sink_of result ≡ sink }
    {
        MemLink {
            place: Some(place),
            source,
            sink,
            claimed: 0,
            most_claimed: 0,
        }
    }

    /// How many bytes of memory its connection claimed last; none before it claimed some.
    pub fn claimed(&self) -> u64
        ensures { result ≡ claimed_of self.now }
    {
        self.claimed
    }

    /// How many bytes of memory its connection claimed at most.
    pub fn most_claimed(&self) -> u64
        ensures { result ≡ most_claimed_of self.now }
    {
        self.most_claimed
    }

    /// Lets the link go, and says what became of it.
    pub(crate) fn used(self) -> Used
        ensures { IsUsed self result }
    {
        let MemLink {
            place,
            source,
            sink,
            claimed: _,
            most_claimed: _,
        } = self;
        let left = source.left();
        let read_faults = source.faults();
        let write_faults = sink.faults();
        Used {
            place,
            read: source.into_given(),
            written: sink.into_taken(),
            left,
            read_faults,
            write_faults,
        }
    }
}

impl Object for MemLink {
    ghost same = { λ _ _. Unit {0} };

    ghost same_refl = { λ _. tt };

    ghost same_trans = { λ _ _ _ _ _. tt };
}

impl Source for MemLink {
    ghost use Rattle.std.specs.Prelude.{◌<◌, ◌≤◌, Some, IfOk, length};
    ghost use Rattle.std.specs.Io.KnownBytes.{ReadConsumes, WriteAppends};
    ghost use Rattle.foundation.specs.Faults.{HasCause};
    ghost use Rattle.edge_io.specs.MemLink.{place_of, source_of, sink_of};
    ghost use Rattle.edge_io.specs.MemSource.{given_of, left_of, faults_of, ReadsExactly};

    ghost given = { λ link. Some (given_of (source_of link)) };

    ghost left = { λ link. Some (left_of (source_of link)) };

    ghost read_faults = { λ link. faults_of (source_of link) };

    ghost read_apart = { λ x y. (sink_of y ≡ sink_of x) × (place_of y ≡ place_of x) };

    ghost read_apart_refl = { λ _. (Prim.cc, Prim.cc) };

    ghost read_apart_trans = { λ x y z p q. (Prim.cc, Prim.cc) };

    /// A read of the source.
    fn read(&mut self, buf: &mut [u8]) -> Result<usize, ReadFault>
        requires { 0 < length buf.old }
        ensures bound { IfOk result (λ n. n ≤ length buf.new) }
        ensures given { WriteAppends (Some (given_of (source_of self.old)))
            (Some (given_of (source_of self.new))) result buf.new }
        ensures left { ReadConsumes (Some (left_of (source_of self.old)))
            (Some (left_of (source_of self.new))) result buf.new }
        ensures cause { HasCause (faults_of (source_of self.old)) (faults_of (source_of self.new)) result }
        ensures apart { (sink_of self.new ≡ sink_of self.old) × (place_of self.new ≡ place_of self.old) }
        ensures exact { ReadsExactly (source_of self.old) (source_of self.new) buf.old buf.new result }
    {
        self.source.read(buf)
    }
}

impl Sink for MemLink {
    ghost use Rattle.std.specs.Prelude.{◌<◌, ◌≤◌, Some, IfOk, length};
    ghost use Rattle.std.specs.Io.KnownBytes.{WriteAppends};
    ghost use Rattle.foundation.specs.Faults.{HasCause};
    ghost use Rattle.edge_io.specs.MemLink.{place_of, source_of, sink_of};
    ghost use Rattle.edge_io.specs.MemSink.{taken_of, faults_of, WritesExactly};

    ghost taken = { λ link. Some (taken_of (sink_of link)) };

    ghost permits = { λ _ _. Unit {0} };

    ghost write_faults = { λ link. faults_of (sink_of link) };

    ghost write_apart = { λ x y. (source_of y ≡ source_of x) × (place_of y ≡ place_of x) };

    ghost permits_last = { λ _ _ _. (λ _ _. tt, λ none. absurd Prim.cc) };

    ghost apart_refl = { λ _. (Prim.cc, Prim.cc) };

    ghost apart_trans = { λ x y z p q. (Prim.cc, Prim.cc) };

    /// A write to the sink.
    fn write(&mut self, piece: &[u8]) -> Result<usize, WriteFault>
        ensures bound { IfOk result (λ n. n ≤ length piece.now) }
        ensures some { 0 < length piece.now → IfOk result (λ n. 0 < n) }
        ensures taken { WriteAppends (Some (taken_of (sink_of self.old)))
            (Some (taken_of (sink_of self.new))) result piece.now }
        ensures cause { HasCause (faults_of (sink_of self.old)) (faults_of (sink_of self.new)) result }
        ensures apart { (source_of self.new ≡ source_of self.old) × (place_of self.new ≡ place_of self.old) }
        ensures exact { WritesExactly (sink_of self.old) (sink_of self.new) piece.now result }
    {
        self.sink.write(piece)
    }
}

impl Link for MemLink {
    ghost use Rattle.std.specs.Prelude.{max};
    ghost use Rattle.edge_io.specs.MemLink.{claimed_of, most_claimed_of, place_of, source_of, sink_of};

    ghost dialed = { λ link. place_of link };

    /// Notes what is claimed.
    fn claim(&mut self, bytes: u64)
        ensures reads { (sink_of self.new ≡ sink_of self.old) × (place_of self.new ≡ place_of self.old) }
        ensures writes { (source_of self.new ≡ source_of self.old) × (place_of self.new ≡ place_of self.old) }
        ensures claimed { claimed_of self.new ≡ bytes }
        ensures most { most_claimed_of self.new ≡ max (most_claimed_of self.old) bytes }
    {
        self.claimed = bytes;
        self.most_claimed = self.most_claimed.max(bytes);
    }

    ghost reads_keep = { λ x y same. (Prim.cc, Prim.cc, Prim.cc) };

    ghost writes_keep = { λ x y same. (Prim.cc, Prim.cc, Prim.cc, Prim.cc) };
}

//! What a protocol does with the bytes of its connection.
ghost use Rattle.std.specs.Prelude.{◌≡◌, ◌↔◌, ◌+◌, ◌<◌, ◌≤◌, ◌^◌, ℕ, List, ◌++◌, length, take, Option};
ghost use Rattle.std.specs.Prelude.{OnOk, IfErr, IfSome, IfNone, IsErrOf, IsTrue};
ghost use Rattle.std.specs.Io.KnownBytes.{IsAtEnd};
ghost use Rattle.event_form.specs.declared.talk.Talk.{Talk};
ghost use Rattle.desk_access.specs.Call.{Call};
ghost use Rattle.desk_access.specs.Endings.{IsAtMove, IsByFault, IsAtEndOfInput};
ghost use Rattle.conn_serve.specs.Done.{Done, Leads, SoFar, Anyway};
ghost use Rattle.conn_serve.specs.Endings.{MayEnd, CountsFaults};
ghost use Rattle.conn_serve.specs.Says.{CouldEnd, HasCarried, MaySay};
ghost use Rattle.conn_serve.specs.Terms.{Terms};

use crate::connection::Connection;
use desk_access::Access;
use edge_io::Link;
use event_form::Talk;
use std::alloc::Global;

/// What a protocol does with the bytes of its connection. The reading, the order in which endings are
/// judged and the counting stand outside, once for all protocols.
pub trait Session {
    /// The terms on which it serves: how many events of RELP are stored as one group at most, and the tokens of the collector.
    ghost terms: { Self → Terms };

    /// On the connection of this number these bytes were read, and all their whole frames were served but those
    /// that wait: by these calls on the desk and this text written.
    ghost served: { ℕ → Self → List ℕ → List Call → List ℕ → Type 0 };

    /// A connection of this number, served on these terms, has that left of its input, read these bytes, made these
    /// calls on the desk, wrote this text and ended so, as the protocol has it.
    ghost carried: { Terms → ℕ → Option (List ℕ) → List ℕ → List Call → List ℕ → Talk → Type 0 };

    /// The bytes read were served by these calls and this text, and the input is over, with that left of it. The
    /// connection would end so; what is to be done for that, as a last batch or a reply, is still to be done.
    ghost closing: { ℕ → Self → Option (List ℕ) → Talk → List ℕ → List Call → List ℕ → Type 0 };

    /// No frame waits, and there is room for more bytes.
    ghost idle: { Self → Type 0 };

    /// It is idle, and the bytes have no fault.
    ghost settled: { Self → Type 0 };

    /// A count of bytes, which is never more than those that it was fed.
    ghost extent: { Self → ℕ };

    /// How many bytes of memory a connection takes at most, where its reads ask for so many bytes, until that many more were served.
    ghost takes: { Self → ℕ → ℕ → ℕ };

    /// How many bytes of memory the connection takes at most, where its reads ask for `asked` bytes, until all that is held of it and
    /// `more` bytes after that were served.
    fn need(&self, asked: usize, more: usize) -> u64
        ensures { result ≡ takes self.now asked more };

    /// Gives back memory that a window took, where the next read asks for `asked` bytes, no more than a short one, and no more are held.
    /// Nothing else changes.
    fn rest(&mut self, asked: usize)
        ensures { self.new ≡ self.old };

    /// The bytes that come next are read past, and nothing is kept of them.
    ghost passes: { Self → Type 0 };

    /// Whether the bytes that come next are read past, so that there is no use in reading many of them at once.
    fn is_passing(&self) -> bool
        ensures { IsTrue result ↔ passes self.now };

    /// Adds as much of the next bytes as there is room for, at least one of them if there are any, and
    /// answers how many. Where they have a fault, it answers that it took them all. It takes no memory.
    fn feed(&mut self, piece: &[u8]) -> usize
        requires idle { idle self.old }
        requires fits { extent self.old + length piece.now ≤ 2 ^ 40 }
        ensures within { result ≤ length piece.now }
        ensures some { 0 < length piece.now → 0 < result }
        ensures extent { extent self.new ≤ extent self.old + result }
        ensures terms { terms self.new ≡ terms self.old }
        ensures fed { (number : ℕ) (fed : List ℕ) (calls : List Call) (text : List ℕ)
            → served number self.old fed calls text → served number self.new (fed ++ take result piece.now) calls text };

    /// Serves all whole frames that wait. It writes only what a connection may have written that ends there. The error
    /// is the ending of the connection.
    fn serve<L: Link, A: Access>(
        &mut self,
        alloc: Global,
        link: &mut L,
        access: &mut A,
        connection: &mut Connection,
    ) -> Result<(), Talk>
        requires so_far { SoFar (served connection.old.number self.old) connection.old.taken 0 }
        requires may { A.may_take access.old connection.old.number connection.old.taken }
        requires says { MaySay (A.ran access.old) (L.permits link.old) (L.taken link.old) (Leads connection.old.taken
            (served connection.old.number self.old) (CouldEnd (carried (terms self.old) connection.old.number))) }

        ensures goes { OnOk result (Done (λ calls. A.ran access.old calls access.new) (L.taken link.old) (L.taken link.new)
            connection.old.taken connection.new.taken (Leads connection.old.taken (served connection.old.number self.old)
            (served connection.old.number self.new))) }
        ensures halts { IfErr result (λ talk. Done (λ calls. A.ran access.old calls access.new) (L.taken link.old) (L.taken link.new)
            connection.old.taken connection.new.taken (Leads connection.old.taken (served connection.old.number self.old)
            (Anyway (carried (terms self.old) connection.old.number) talk))) }
        ensures only { IfErr result IsAtMove }
        ensures idle { OnOk result (idle self.new) }
        ensures extent { OnOk result (extent self.new ≤ extent self.old) }
        ensures terms { OnOk result (terms self.new ≡ terms self.old) }
        ensures number { connection.new.number ≡ connection.old.number }
        ensures may { OnOk result (A.may_take access.new connection.old.number connection.new.taken) }
        ensures writes { CountsFaults (IsErrOf result Talk.WriteFault) (L.write_faults link.old) (L.write_faults link.new) }
        ensures same { L.same link.old link.new }
        ensures apart { L.write_apart link.old link.new };

    /// Where no frame waits: the ending by the fault of the bytes, if they have one.
    fn fault(&self) -> Option<Talk>
        requires { idle self.now }
        ensures faulty { IfSome result (λ talk. (number : ℕ) (left : Option (List ℕ)) (fed : List ℕ) (calls : List Call) (text : List ℕ)
            → served number self.now fed calls text → closing number self.now left talk fed calls text) }
        ensures only { IfSome result IsByFault }
        ensures settled { IfNone result (settled self.now) }
        ensures may_end { IfNone result ((number : ℕ) → MayEnd (served number self.now) (carried (terms self.now) number)) };

    /// Where no frame waits and the bytes have no fault: the ending by the end of the input.
    fn end(&self) -> Talk
        requires { settled self.now }
        ensures ends { (number : ℕ) (left : Option (List ℕ)) (fed : List ℕ) (calls : List Call) (text : List ℕ) → IsAtEnd left
            → served number self.now fed calls text → closing number self.now left result fed calls text }
        ensures only { IsAtEndOfInput result };

    /// The input is over, and would end the connection with `over`: does what is still to be done for that, as a
    /// last batch or a reply, and writes only what belongs to it. The error is the ending of the connection in place
    /// of it.
    fn finish<L: Link, A: Access>(
        &mut self,
        link: &mut L,
        access: &mut A,
        connection: &mut Connection,
        over: Talk,
    ) -> Result<(), Talk>
        requires so_far { SoFar (served connection.old.number self.old) connection.old.taken 0 }
        requires may { A.may_take access.old connection.old.number connection.old.taken }
        requires says { MaySay (A.ran access.old) (L.permits link.old) (L.taken link.old) (λ calls text. (left : Option (List ℕ))
            → Leads connection.old.taken (closing connection.old.number self.old left over)
            (HasCarried (carried (terms self.old) connection.old.number)) calls text) }

        ensures goes { OnOk result (Done (λ calls. A.ran access.old calls access.new) (L.taken link.old) (L.taken link.new)
            connection.old.taken connection.new.taken (λ calls text. (left : Option (List ℕ)) → Leads connection.old.taken
            (closing connection.old.number self.old left over)
            (λ fed called said. carried (terms self.old) connection.old.number left fed called said over) calls text)) }
        ensures halts { IfErr result (λ talk. Done (λ calls. A.ran access.old calls access.new) (L.taken link.old) (L.taken link.new)
            connection.old.taken connection.new.taken (λ calls text. (left : Option (List ℕ)) → Leads connection.old.taken
            (closing connection.old.number self.old left over)
            (λ fed called said. carried (terms self.old) connection.old.number left fed called said talk) calls text)) }
        ensures only { IfErr result IsAtMove }
        ensures writes { CountsFaults (IsErrOf result Talk.WriteFault) (L.write_faults link.old) (L.write_faults link.new) }
        ensures same { L.same link.old link.new }
        ensures apart { L.write_apart link.old link.new };
}

//! Where connections come from.

ghost use Rattle.std.specs.Prelude.{◌≡◌, ℕ, List, [], ◌∷◌, Option, IfSome, IfNone};
ghost use Rattle.server.specs.Sessions.{Ending, IsFresh, Arrives, IsOver, AreAdded};

use query_http::{Note, Outlet, Served};
use requests::Inlet;

/// Where connections come from: sockets, or texts in memory. The meaning says what will come on
/// each connection, and what was written to each that has ended. The meaning of sockets says
/// neither.
pub trait Connections {
    type Reader: Inlet + Drop;

    type Writer: Outlet + Drop;

    ghost coming: { Self → Option (List (List ℕ)) };

    ghost past: { Self → Option (List Ending) };

    /// The next connection, or none if no more will come. It may wait for a client.
    fn accept(&mut self) -> Option<(Self::Reader, Self::Writer)>
        ensures arrives { IfSome result (λ c. Arrives (coming self.old) (coming self.new)
            (Self.Reader.input c.0)) }
        ensures fresh { IfSome result (λ c. IsFresh (Self.Writer.output c.1)) }
        ensures over { IfNone result (IsOver (coming self.new)) }
        ensures same { IfNone result (coming self.new ≡ coming self.old) }
        ensures past { past self.new ≡ past self.old };

    /// Ends a connection that was served as `served` says, and of which this was noted.
    fn close(&mut self, reader: Self::Reader, writer: Self::Writer, served: Served, note: Note)
        ensures coming { coming self.new ≡ coming self.old }
        ensures past { AreAdded (past self.old) (past self.new)
            (record { written = Self.Writer.output writer; served = served } ∷ []) };
}

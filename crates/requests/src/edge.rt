//! What a request is read from.

ghost use Rattle.std.specs.Prelude.{◌≡◌, ◌≤◌, ℕ, List, Option, length, IfOk, OnOk, OnErr};
ghost use Rattle.std.specs.Io.KnownBytes.{ReadConsumes};
ghost use Rattle.requests.specs.Edge.{HasGrown};

use std::error::Error;
use std::fmt;

/// A read from a client, or a write to one, failed.
#[derive(Clone, Copy, Debug, PartialEq, Eq, Drop)]
pub struct Fault;

impl fmt::Display for Fault {
    ghost use Rattle.std.specs.Prelude.{Some};
    ghost use Rattle.requests.specs.Edge.{fault_text};

    ghost output = { λ _. Some fault_text };

    fn fmt<W: fmt::Write>(&self, f: &mut fmt::Formatter<W>) -> fmt::Result {
        write!(f, "a read or a write failed")
    }
}

impl Error for Fault {}

/// What a request is read from: it gives its bytes in pieces of its own choice. A reader over
/// memory tells in its meaning which bytes are left; a socket tells none.
pub trait Inlet {
    ghost input: { Self → Option (List ℕ) };

    ghost failed_reads: { Self → ℕ };

    /// Reads into a buffer, and says how many bytes; none only at the end of the input or where
    /// the buffer is empty.
    fn read(&mut self, buf: &mut [u8]) -> Result<usize, Fault>
        ensures bound { IfOk result (λ n. n ≤ length buf.new) }
        ensures bytes { ReadConsumes (input self.old) (input self.new) result buf.new }
        ensures ok { OnOk result (failed_reads self.new ≡ failed_reads self.old) }
        ensures err { OnErr result (HasGrown (failed_reads self.old) (failed_reads self.new)) };
}

//! What a request is read from.

ghost use Rattle.std.specs.Prelude.{◌≡◌, ◌≤◌, ℕ, List, Option, Some, length, IfOk, IfErr};
ghost use Rattle.std.specs.Io.KnownBytes.{ReadConsumes};
ghost use Rattle.waiting_room.specs.declared.source.Missed.{Missed};

/// Why a read gave nothing.
#[derive(Clone, Copy, Debug, PartialEq, Eq, Drop)]
pub enum Missed {
    /// No byte came for as long as a client may be silent.
    Silent,
    /// The time for the whole request is over.
    Late,
    /// The connection failed.
    Failed,
}

/// What a request is read from, with its limits of time. One over memory tells in its meaning which
/// bytes are left; a socket tells none.
pub trait Source {
    ghost input: { Self → Option (List ℕ) };

    /// Why the last read that gave nothing did.
    ghost missed: { Self → Option Missed };

    /// Reads into a buffer, and says how many bytes; none only at the end of the input, or if the
    /// buffer is empty.
    fn read(&mut self, buf: &mut [u8]) -> Result<usize, Missed>
        ensures bound { IfOk result (λ n. n ≤ length buf.new) }
        ensures bytes { ReadConsumes (input self.old) (input self.new) result buf.new }
        ensures missed { IfErr result (λ m. missed self.new ≡ Some m) };
}

//! Why contents are not read as a head.

use event_text::TextError;

/// The first content of a head that is refused, and why.
#[derive(Clone, Copy, Debug, PartialEq, Eq, Drop)]
pub struct RefusedHead {
    /// How many contents stand before it.
    pub at: usize,
    /// `J8` where it is missing or begins with another kind, `J9`, `J10` and `J13` as those of an
    /// event; or that no memory was left.
    pub error: TextError,
}

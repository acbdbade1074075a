//! What is not as stated.

/// Why a session is not as stated.
#[derive(Clone, Copy, Debug, PartialEq, Eq, Drop)]
pub enum Fault {
    /// No memory is left, or an event of the session is none.
    Session,
    /// The answer of the step with this number.
    Answer(usize),
    /// A start, in the step with this number, from what a crash leaves after this many changes of
    /// the folder, with this many bytes that were not synced.
    Start(usize, usize, usize),
}

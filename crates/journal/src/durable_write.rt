//! One write, on the medium for good or taken back.

ghost use Rattle.std.specs.Prelude.{◌≡◌, ◌++◌, ℕ, List, length};
ghost use Rattle.journal.specs.Media.{HasAll, LeavesOnly, MayLeave};
ghost use Rattle.journal.specs.Writing.{ComesTo};

use crate::medium::Medium;

/// What a write came to.
#[derive(Clone, Copy, Debug, PartialEq, Eq, Drop)]
pub(crate) enum Written {
    /// The bytes are on the medium for good.
    Done,
    /// The medium failed, and has what it had.
    TakenBack,
    /// The medium failed, and nothing is known of it.
    Lost,
}

/// Writes the bytes and syncs, or cuts off what a write that failed left.
pub(crate) fn write<M: Medium>(medium: &mut M, len: usize, bytes: &[u8]) -> Written
    requires { (old : List ℕ) × HasAll M.shows M.kept M.sound old medium.old × (len ≡ length old) }
    ensures done { (old : List ℕ) → HasAll M.shows M.kept M.sound old medium.old → len ≡ length old
        → ComesTo M.shows M.kept M.sound M.failed old bytes.now medium.new result }
    ensures any_moment { (old : List ℕ) → HasAll M.shows M.kept M.sound old medium.old
        → len ≡ length old
        → LeavesOnly M.moment M.left_since medium.old medium.new (MayLeave len (old ++ bytes.now)) }
    ensures beside { M.beside medium.old medium.new }
{
    if medium.append(bytes).is_ok() {
        if medium.sync().is_ok() {
            return Written::Done;
        }
        return Written::Lost;
    }
    if medium.cut(len).is_ok() {
        return Written::TakenBack;
    }
    Written::Lost
}

//! Why the store of a folder is not changed.

use head::ResumeError;
use store_folder::{RollFault, StartError};

/// Why the blocks of a store are not joined, or others not added to them.
#[derive(Clone, Copy, Debug, PartialEq, Eq, Drop)]
pub enum ChangeFault {
    /// The folder has no journal.
    NoStore,
    /// The store is not opened. Unless it is `Medium`, nothing is changed.
    Open(StartError),
    /// The store is refused, or its journal does not go on.
    Resume(StartError),
    /// The store is not begun: memory or the folder failed.
    Begin(StartError),
    /// A journal is not begun anew.
    Roll(RollFault),
    /// The store is not read again after its events were saved.
    Again(StartError),
    /// What is read again is not what was saved.
    Changed,
    /// The values of the store mean something else than those of the blocks to be added.
    Meaning,
    /// No snapshot has the blocks that the store would have, which are so many.
    Unfit(ResumeError, usize),
}

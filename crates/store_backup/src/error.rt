//! Why a store is not copied.

use store_folder::{RollFault, StartError};

/// Why the store of a folder is not copied into another.
#[derive(Clone, Copy, Debug, PartialEq, Eq, Drop)]
pub enum CopyFault {
    /// The target has a journal. Nothing is changed there.
    Taken,
    /// The target has no journal, but below its `blocks` the name of a number is listed: a block
    /// may lie there, of a store whose journal is lost. Nothing is changed there.
    Blocks,
    /// The source has no journal.
    NoStore,
    /// The source's journal was begun anew, or cut, while it was read. Nothing is written.
    Changed,
    /// The source is not read, or refused as a start refuses it: `J1` to `J4`, `J8` to `J20`.
    Source(StartError),
    /// A block or the text of a head is not written into the target; or memory ran out.
    Write(RollFault),
    /// The target could not be read, or its journal not be begun: it has none, or that of the copy.
    Target,
}

//! What a block keeps of its files.

use index_reader::Index;
use packed_chunks::PackedChunks;

/// An index, and the samples of its chunks, those of one series behind those of another. It never
/// changes.
#[derive(Drop)]
pub(crate) struct Files {
    pub(crate) index: Index,
    pub(crate) packed: PackedChunks,
    /// The number of each series' first chunk among those of all.
    pub(crate) starts: Vec<usize>,
}

//! What the first content says.

use crate::saved::BlockPlace;
use block_folder::Values;

/// What the values mean, a floor, where the blocks lie, and how many series follow.
#[derive(Drop)]
pub(crate) struct OpeningParts {
    pub(crate) values: Values,
    pub(crate) floor: i64,
    pub(crate) places: Vec<BlockPlace>,
    pub(crate) count: u64,
}

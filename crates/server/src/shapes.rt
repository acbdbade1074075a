//! What is looked at of the blocks of a store.

use block::Block;
use head::Snapshot;
use join_schedule::Shape;
use std::alloc::{AllocError, Global};

/// The bytes that are reckoned for a sample and for a series. The files of a block have more.
const BYTES: u64 = 16;

/// What is looked at of a block. A block does not know how many bytes its files have: they are
/// reckoned from below.
pub(crate) fn shape_of(block: &Block) -> Shape {
    let range = block.range();
    let samples = block.sample_count();
    let series = block.series_count() as u64;
    Shape {
        from: range.min(),
        to: range.max(),
        samples,
        series,
        bytes: samples.saturating_add(series).saturating_mul(BYTES),
    }
}

/// What is looked at of each block of a snapshot. It counts their samples.
pub(crate) fn shapes_of(alloc: Global, snapshot: &Snapshot) -> Result<Vec<Shape>, AllocError> {
    let mut shapes = Vec::new(alloc);
    for block in snapshot.blocks() {
        shapes.push(shape_of(block))?;
    }
    Ok(shapes)
}

/// How many blocks end at a time or before it.
pub(crate) fn count_ended(shapes: &[Shape], time: i64) -> usize {
    shapes.iter().filter(|shape| shape.to <= time).count()
}

//! The chunks that the body of a series names.

ghost use Rattle.std.specs.Prelude.{◌≡◌, ◌<◌, true, IfSome};
ghost use Rattle.labels.specs.Contents.{is_time};
ghost use Rattle.block_walk.specs.IndexFile.Chunks.{time_after, reference_after, first_chunk_at};
ghost use Rattle.block_walk.specs.IndexFile.Chunks.{later_chunk_at};
ghost use Rattle.block_walk.specs.IndexFile.SeenChunks.{seen_chunk};

use labels::{MAX_TIME, is_time};
use wire::Cut;

/// A chunk's first and last time, in milliseconds, and its reference.
#[derive(Clone, Copy, Debug)]
pub struct Chunk {
    pub mint: i64,
    pub maxt: i64,
    pub reference: u64,
}

#[tactic(auto, unfolding(crate::specs::IndexFile::Chunks::time_after))]
fn time_after(before: i64, gap: u64) -> Option<i64>
    requires { is_time before ≡ true }
    ensures exact { result ≡ time_after before gap }
    ensures times { IfSome result (λ t. is_time t ≡ true) }
{
    let time = i128::from(before) + i128::from(gap);
    if time > i128::from(MAX_TIME) {
        return None;
    }
    Some(time as i64)
}

fn reference_after(before: u64, step: i64) -> Option<u64>
    ensures { result ≡ reference_after before step }
{
    let reference = i128::from(before) + i128::from(step);
    if reference < 0 || reference > i128::from(u64::MAX) {
        return None;
    }
    Some(reference as u64)
}

/// The first chunk of a series, and the bytes after it.
#[tactic(auto, unfolding(crate::specs::IndexFile::Chunks::first_chunk_at))]
pub(crate) fn first_of(bytes: &[u8]) -> Option<(Chunk, &[u8])>
    ensures exact { seen_chunk result ≡ first_chunk_at bytes.now }
    ensures times { IfSome result (λ x. is_time x.0.maxt ≡ true) }
{
    let mut cut = Cut::new(bytes);
    let mint = cut.varint().ok()?;
    let length = cut.uvarint().ok()?;
    let reference = cut.uvarint().ok()?;
    if !is_time(mint) {
        return None;
    }
    let maxt = time_after(mint, length)?;
    Some((
        Chunk {
            mint,
            maxt,
            reference,
        },
        cut.rest(),
    ))
}

/// A chunk after another of the series, and the bytes after it.
#[tactic(auto, unfolding(crate::specs::IndexFile::Chunks::later_chunk_at))]
pub(crate) fn later_of(before: Chunk, bytes: &[u8]) -> Option<(Chunk, &[u8])>
    requires { is_time before.maxt ≡ true }
    ensures exact { seen_chunk result ≡ later_chunk_at before bytes.now }
    ensures times { IfSome result (λ x. is_time x.0.maxt ≡ true) }
{
    let mut cut = Cut::new(bytes);
    let gap = cut.uvarint().ok()?;
    let length = cut.uvarint().ok()?;
    let step = cut.varint().ok()?;
    if gap == 0 {
        return None;
    }
    let mint = time_after(before.maxt, gap)?;
    let maxt = time_after(mint, length)?;
    let reference = reference_after(before.reference, step)?;
    Some((
        Chunk {
            mint,
            maxt,
            reference,
        },
        cut.rest(),
    ))
}

//! The chunks of a series body.

ghost use Rattle.std.specs.Prelude.{◌≡◌, ◌<◌, IsTrue, true, IfSome, MatchOption, Some, None};
ghost use Rattle.labels.specs.Contents.{is_time};
ghost use Rattle.index_reader.specs.Reading.Chunks.{time_after, reference_after, first_at};
ghost use Rattle.index_reader.specs.Reading.Chunks.{later_at};

use labels::{MAX_TIME, is_time};
use wire::Cut;

/// A chunk's times and its reference.
#[derive(Clone, Copy, Debug, PartialEq, Eq)]
pub struct Chunk {
    pub mint: i64,
    pub maxt: i64,
    pub reference: u64,
}

/// Whether both are the same chunks.
pub fn are_same_chunks(xs: &[Chunk], ys: &[Chunk]) -> bool
    ensures { result ≡ true → xs.now ≡ ys.now }
{
    xs == ys
}

#[tactic(auto, unfolding(crate::specs::Reading::Chunks::time_after))]
fn time_after(before: i64, gap: u64) -> Option<i64>
    requires { is_time before ≡ true }
    ensures exact { result ≡ time_after before gap }
    ensures times { IfSome result (λ t. is_time t ≡ true) }
{
    let time = i128::from(before) + i128::from(gap);
    if time > i128::from(MAX_TIME) {
        return None;
    }
    Some(time as i64)
}

fn reference_after(before: u64, step: i64) -> Option<u64>
    ensures { result ≡ reference_after before step }
{
    let reference = i128::from(before) + i128::from(step);
    if reference < 0 || reference > i128::from(u64::MAX) {
        return None;
    }
    Some(reference as u64)
}

#[tactic(auto, unfolding(crate::specs::Reading::Chunks::first_at))]
pub fn read_first(cut: &mut Cut<'_>) -> Option<Chunk>
    ensures exact { MatchOption result (first_at cut.old ≡ None)
        (λ c. first_at cut.old ≡ Some (c, cut.new)) }
    ensures times { IfSome result (λ c. is_time c.maxt ≡ true) }
{
    let mint = cut.varint().ok()?;
    let length = cut.uvarint().ok()?;
    let reference = cut.uvarint().ok()?;
    if !is_time(mint) {
        return None;
    }
    let maxt = time_after(mint, length)?;
    Some(Chunk {
        mint,
        maxt,
        reference,
    })
}

#[tactic(auto, unfolding(crate::specs::Reading::Chunks::later_at))]
pub fn read_later(before: Chunk, cut: &mut Cut<'_>) -> Option<Chunk>
    requires { is_time before.maxt ≡ true }
    ensures exact { MatchOption result (later_at before cut.old ≡ None)
        (λ c. later_at before cut.old ≡ Some (c, cut.new)) }
    ensures times { IfSome result (λ c. is_time c.maxt ≡ true) }
{
    let gap = cut.uvarint().ok()?;
    let length = cut.uvarint().ok()?;
    let step = cut.varint().ok()?;
    if gap == 0 {
        return None;
    }
    let mint = time_after(before.maxt, gap)?;
    let maxt = time_after(mint, length)?;
    let reference = reference_after(before.reference, step)?;
    Some(Chunk {
        mint,
        maxt,
        reference,
    })
}

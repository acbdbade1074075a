//! The series of an index, each of its checks over the whole file before the next.

ghost use Rattle.std.specs.Prelude.{◌≡◌, length, IfOk};
ghost use Rattle.block_walk.specs.IndexFile.Outcome.{Gives};
ghost use Rattle.block_walk.specs.IndexFile.Seen.{seen};
ghost use Rattle.block_walk.specs.IndexFile.Sound.{IsSoundLayout};
ghost use Rattle.block_walk.specs.IndexFile.Flat.{bodies_in, AllIn};
ghost use Rattle.block_walk.specs.IndexFile.Whole.{bodies_of, read_of};
ghost use Rattle.block_walk.specs.IndexFile.Kept.{read_seen, IsHeldIn};

use crate::bodies::{Bodies, are_small, bodies_of, gaps_are_zero, is_rising};
use crate::contents::series_end;
use crate::error::WalkError;
use crate::layout::{Layout, read_layout};
use std::alloc::Global;

const MAX_SERIES: usize = 1_048_576;

/// An index that was checked, but for its postings.
#[derive(Drop)]
pub struct Checked<'a> {
    pub layout: Layout<'a>,
    pub bodies: Bodies,
}

#[tactic(auto, using(crate::proofs::IndexFile::Sound::sets_are), unfolding(crate::specs::IndexFile::Whole::bodies_of))]
fn checked_bodies(alloc: Global, file: &[u8], layout: &Layout<'_>) -> Result<Bodies, WalkError>
    requires { IsSoundLayout file.now layout.now }
    ensures exact { Gives (λ b. bodies_in b.labels.items b.chunks.items b.rows.items) result
        (bodies_of file.now (seen layout.now)) }
    ensures inside { IfOk result (λ b. AllIn b.labels.items b.chunks.items b.rows.items) }
    ensures counted { IfOk result (λ b. length b.rows.items ≡ length layout.now.entries.items) }
{
    let end = series_end(layout.contents) as usize;
    let bodies = bodies_of(alloc, &layout.symbols, &layout.entries)?;
    if !gaps_are_zero(file, layout.symbols_end, end, &layout.entries) {
        return Err(WalkError::Series);
    }
    if !is_rising(&bodies.labels, &bodies.rows) {
        return Err(WalkError::SeriesOrder);
    }
    Ok(bodies)
}

/// All checks of an index but `I11` to `I14`, in their order.
#[tactic(auto, using(crate::proofs::IndexFile::Sound::sets_are, crate::proofs::IndexFile::Sound::count_is), unfolding(crate::specs::IndexFile::Whole::read_of))]
pub(crate) fn checked_of(alloc: Global, file: &[u8]) -> Result<Checked<'_>, WalkError>
    ensures exact { Gives read_seen result (read_of file.now) }
    ensures held { IfOk result (IsHeldIn file.now) }
{
    let layout = read_layout(alloc, file)?;
    let bodies = checked_bodies(alloc, file, &layout)?;
    if bodies.rows.len() > MAX_SERIES {
        return Err(WalkError::Limit);
    }
    if !are_small(&bodies.labels, &bodies.rows) {
        return Err(WalkError::Limit);
    }
    Ok(Checked { layout, bodies })
}

//! Content with its checksum after it.

ghost use Rattle.std.specs.Prelude.{◌≡◌};
ghost use Rattle.block_walk.specs.IndexFile.Outcome.{Gives};
ghost use Rattle.block_walk.specs.IndexFile.Reading.{frame_at, checked_at};

use crate::error::WalkError;
use wire::{Cut, crc32c};

/// Content of this length, and what stands after its checksum.
#[tactic(auto, unfolding(crate::specs::IndexFile::Reading::checked_at))]
pub(crate) fn checked_of(
    len: u64,
    bytes: &[u8],
    fault: WalkError,
) -> Result<(&[u8], &[u8]), WalkError>
    ensures { Gives (λ x. (x.0.now, x.1.now)) result (checked_at fault (len, bytes.now)) }
{
    let mut cut = Cut::new(bytes);
    let content = cut.bytes(len as usize).or(Err(fault))?;
    let sum = cut.be32().or(Err(fault))?;
    if sum != crc32c(content) {
        return Err(fault);
    }
    Ok((content, cut.rest()))
}

/// The content of a frame, and what stands after it.
#[tactic(auto, unfolding(crate::specs::IndexFile::Reading::frame_at))]
pub(crate) fn frame_of(bytes: &[u8], fault: WalkError) -> Result<(&[u8], &[u8]), WalkError>
    ensures { Gives (λ x. (x.0.now, x.1.now)) result (frame_at fault bytes.now) }
{
    let mut cut = Cut::new(bytes);
    let len = cut.be32().or(Err(fault))?;
    checked_of(u64::from(len), cut.rest(), fault)
}

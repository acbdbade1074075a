//! What stands in the frame of a chunk, whichever its encoding is.

ghost use Rattle.std.specs.Prelude.{◌≡◌, ◌≤◌, ℕ, List, length, IfOk};
ghost use Rattle.wire.specs.Outcome.{Answers};
ghost use Rattle.chunk_reader.specs.Frames.{framed_at, AnswersFrame, IsFramed};

use crate::chunks::{content_of, is_outside};
use crate::error::ChunkError;

/// The encoding of a chunk, and its body: what stands between the encoding's byte and the checksum.
#[derive(Clone, Copy, Debug, Drop)]
pub struct Frame<'a> {
    /// The byte of the encoding.
    pub encoding: u8,
    /// The body, neither looked at nor copied.
    pub body: &'a [u8],
}

/// The frame of the chunk at a place of a file.
pub(crate) fn frame_of(file: &[u8], reference: u64) -> Result<Frame<'_>, ChunkError>
    requires { length file.now ≤ 0x4000_0000 }
    ensures exact { Answers (λ f. (f.encoding, f.body.now)) result (framed_at file.now reference) }
    ensures found { IfOk result (λ f. IsFramed file.now reference f.encoding f.body.now) }
    ensures only { (encoding : ℕ) (body : List ℕ) → IsFramed file.now reference encoding body
        → AnswersFrame (λ f. (f.encoding, f.body.now)) result encoding body }
{
    read_frame(file, reference)
}

#[tactic(auto, unfolding(crate::specs::Frames::framed_at))]
fn read_frame(file: &[u8], reference: u64) -> Result<Frame<'_>, ChunkError>
    ensures { Answers (λ f. (f.encoding, f.body.now)) result (framed_at file.now reference) }
{
    if is_outside(file, reference) {
        return Err(ChunkError::Reference);
    }
    let (_, bytes) = file.split_at(reference as usize);
    let (encoding, body) = content_of(bytes)?;
    Ok(Frame { encoding, body })
}

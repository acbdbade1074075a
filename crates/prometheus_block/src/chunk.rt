//! What a chunk of a segment holds.

ghost use Rattle.std.specs.Prelude.{◌≡◌};
ghost use Rattle.wire.specs.Outcome.{Answers};
ghost use Rattle.prometheus_block.specs.Outcome.{Gives};
ghost use Rattle.prometheus_block.specs.Reading.{chunk_read, count_at, floats_at, held_in, spans};

use crate::error::SourceError;
use chunk_reader::{ChunkError, Chunks};
use index_reader::Chunk;
use std::alloc::Global;
use wire::Cut;
use xor_reader::{FloatSample, read_xor_chunk};

/// References of one segment.
const SEGMENT: u64 = 0x1_0000_0000;

const XOR: u8 = 1;

const HISTOGRAM: u8 = 2;

const FLOAT_HISTOGRAM: u8 = 3;

/// What chunks hold.
#[derive(Drop)]
pub struct Content {
    /// The samples of XOR chunks.
    pub floats: Vec<FloatSample>,
    /// How many histograms there are, whose samples are not read.
    pub histograms: u64,
}

/// What a chunk holds that stands in this segment, at the place that the lower 32 bits of its
/// reference are.
///
/// `C3` and `C4` where no whole chunk stands there; `X1` to `X7` where it is an XOR chunk whose
/// data spells no samples, and `C8` where its first or its last time is not the one that the index
/// says; `C7` where it is a chunk of histograms without a count; `C6` where its encoding is
/// another.
#[tactic(auto, unfolding(crate::specs::Reading::chunk_read))]
pub fn read_chunk(alloc: Global, segment: &Chunks, chunk: Chunk) -> Result<Content, SourceError>
    ensures { Gives (λ c. (c.floats.items, c.histograms)) result (chunk_read segment.now chunk) }
{
    let frame = segment.frame_at(chunk.reference % SEGMENT)?;
    let content = content_of(alloc, frame.encoding, frame.body, chunk)?;
    Ok(content)
}

#[tactic(auto, unfolding(crate::specs::Reading::held_in))]
fn content_of(
    alloc: Global,
    encoding: u8,
    body: &[u8],
    chunk: Chunk,
) -> Result<Content, SourceError>
    ensures { Gives (λ c. (c.floats.items, c.histograms)) result
        (held_in chunk encoding body.now) }
{
    if encoding == XOR {
        let floats = floats_of(alloc, body, chunk)?;
        return Ok(Content {
            floats,
            histograms: 0,
        });
    }
    if encoding != HISTOGRAM && encoding != FLOAT_HISTOGRAM {
        return Err(SourceError::Chunk(ChunkError::OtherEncoding));
    }
    let histograms = count_of(body)?;
    Ok(Content {
        floats: Vec::new(alloc),
        histograms,
    })
}

// The samples of an XOR chunk.
#[tactic(auto, unfolding(crate::specs::Reading::floats_at))]
fn floats_of(alloc: Global, body: &[u8], chunk: Chunk) -> Result<Vec<FloatSample>, SourceError>
    ensures { Gives (λ v. v.items) result (floats_at chunk body.now) }
{
    let floats = read_xor_chunk(alloc, body)?;
    if !has_span(&floats, chunk) {
        return Err(SourceError::Chunk(ChunkError::TimesDisagree));
    }
    Ok(floats)
}

fn has_span(floats: &[FloatSample], chunk: Chunk) -> bool
    ensures { result ≡ spans chunk floats.now }
{
    if floats.is_empty() {
        return false;
    }
    let first = floats[0].t();
    let last = floats[floats.len() - 1].t();
    (first == chunk.mint) & (last == chunk.maxt)
}

// How many samples a chunk counts: the first two bytes of its body.
fn count_of(body: &[u8]) -> Result<u64, SourceError>
    ensures { Answers (λ n. n) result (count_at body.now) }
{
    let mut cut = Cut::new(body);
    let (Ok(high), Ok(low)) = (cut.u8(), cut.u8()) else {
        return Err(SourceError::Chunk(ChunkError::Shape));
    };
    Ok(u64::from(high) * 256 + u64::from(low))
}

/// What chunks count.
#[derive(Clone, Copy, Debug, PartialEq, Eq, Drop)]
pub struct Counted {
    /// How many samples are of XOR chunks.
    pub samples: u64,
    /// How many are of other chunks: histograms.
    pub histograms: u64,
}

/// What a chunk counts that stands in this segment, whichever its encoding is.
///
/// `C3` and `C4` where no whole chunk stands there, `C7` where it has no count.
pub(crate) fn counts_of(segment: &Chunks, chunk: Chunk) -> Result<Counted, SourceError> {
    let frame = segment.frame_at(chunk.reference % SEGMENT)?;
    let count = count_of(frame.body)?;
    Ok(if frame.encoding == XOR {
        Counted {
            samples: count,
            histograms: 0,
        }
    } else {
        Counted {
            samples: 0,
            histograms: count,
        }
    })
}

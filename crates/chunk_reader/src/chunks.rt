//! The file, and the checks of a chunk in their order.

ghost use Rattle.std.specs.Prelude.{◌≡◌, ◌<◌, ◌≤◌, ℕ, ℤ, List, length, IfOk, IsOk, OnOk, Ok};
ghost use Rattle.std.specs.Prelude.{Decides};
ghost use Rattle.std.specs.List.{flat_map};
ghost use Rattle.chunk_reader.specs.Frames.{framed_at, AnswersFrame, IsFramed};
ghost use Rattle.chunk_reader.specs.Grammar.{IsChunk, IsSegment, sample_text};
ghost use Rattle.chunk_reader.specs.Outcome.{Gives};
ghost use Rattle.wire.specs.Outcome.{Answers};
ghost use Rattle.chunk_reader.specs.Reading.{batch_in, content_at, decode, is_outside, opened};
ghost use Rattle.chunk_reader.specs.Reading.{samples_of, spans};

use crate::error::ChunkError;
use crate::frame::{Frame, frame_of};
use crate::samples::{Samples, are_rising};
use byteorder::{BigEndian, ByteOrder};
use labels::Sample;
use std::alloc::Global;
use std::marker::Model;
use wire::{Cut, crc32c};

const LIMIT: usize = 0x4000_0000;

const MAGIC: u32 = 0x85BD_40DD;

const VERSION: u32 = 0x0100_0000;

const HEAD: u64 = 8;

/// References from here on are of another segment.
const SEGMENT: u64 = 0x1_0000_0000;

const XOR: u8 = 0x01;

const PLAIN: u8 = 0xE0;

/// A chunks file of at most 1 GiB, of which the head is sound.
#[derive(Drop)]
pub struct Chunks {
    file: Vec<u8>,
}

impl Model for Chunks {
    ghost use Rattle.std.specs.Prelude.{ℕ, List};

    ghost Value = { List ℕ };

    ghost view = { λ c. c.file.items };

    ghost use Rattle.chunk_reader.specs.Grammar.{IsSegment};

    ghost invariant = { λ c. IsSegment c.file.items };
}

impl Chunks {
    /// The chunks of a file.
    ///
    /// `C7` where it is longer than 1,073,741,824 bytes; `C1` where it does not begin with
    /// `85 BD 40 DD`; `C2` where `01 00 00 00` does not follow. No chunk is looked at.
    pub fn open(file: Vec<u8>) -> Result<Chunks, ChunkError>
        ensures exact { Answers (λ c. c) result (opened file.items) }
        ensures found { IfOk result (λ c. IsSegment c) }
        ensures only { IsSegment file.items → result ≡ Ok file.items }
    {
        check_head(file.as_slice())?;
        Ok(Chunks { file })
    }

    /// Whether another file has the same bytes.
    pub fn is_same(&self, other: &Chunks) -> bool
        ensures { Decides result (self.now ≡ other.now) }
    {
        self.file.as_slice() == other.file.as_slice()
    }

    /// The samples of the chunk at `reference`, in place. It takes time in proportion to the chunk,
    /// and no memory.
    ///
    /// `C3` where the upper 32 bits of the reference are not 0, or it is below 8 or not below the
    /// file's length; `C4` where the chunk's length is not spelled, its end is above the file's, or
    /// its checksum is wrong; `C5` where the encoding is XOR, `C6` where it is neither XOR nor
    /// `E0`; `C7` where the count is 0 or not that of the body, or times do not ascend strictly or
    /// are outside [`MIN_TIME`](labels::MIN_TIME) to [`MAX_TIME`](labels::MAX_TIME); `C8` where the
    /// first time is not `mint` or the last is not `maxt`. The first of these is answered.
    pub fn find(&self, reference: u64, mint: i64, maxt: i64) -> Result<Samples<'_>, ChunkError>
        ensures exact { Answers (λ s. s) result (samples_of self.now reference mint maxt) }
        ensures found { IfOk result (IsChunk self.now reference mint maxt) }
        ensures only { (samples : List (ℤ × ℤ)) → IsChunk self.now reference mint maxt samples
            → result ≡ Ok samples }
        // The head of the file is sound.
        ensures segment { IsSegment self.now }
    {
        chunk_at(self.file.as_slice(), reference, mint, maxt)
    }

    /// What stands in the frame of the chunk at `reference`, in place, whichever its encoding is.
    /// `C3` and `C4` as [`Chunks::find`] says them. It takes time in proportion to the chunk, and
    /// no memory.
    pub fn frame_at(&self, reference: u64) -> Result<Frame<'_>, ChunkError>
        ensures exact { Answers (λ f. (f.encoding, f.body.now)) result
            (framed_at self.now reference) }
        ensures found { IfOk result (λ f. IsFramed self.now reference f.encoding f.body.now) }
        ensures only { (encoding : ℕ) (body : List ℕ) → IsFramed self.now reference encoding body
            → AnswersFrame (λ f. (f.encoding, f.body.now)) result encoding body }
    {
        frame_of(self.file.as_slice(), reference)
    }

    /// The samples of a chunk that [`Chunks::find`] is known to accept, in place, with none of its
    /// checks made again. It takes a time that does not grow with the chunk, and no memory.
    pub fn stored(&self, reference: u64, mint: i64, maxt: i64) -> Samples<'_>
        requires known { (samples : List (ℤ × ℤ)) × IsChunk self.now reference mint maxt samples }
        ensures exact { samples_of self.now reference mint maxt ≡ Ok result }
        ensures found { IsChunk self.now reference mint maxt result }
    {
        Samples::new(sample_bytes(self.file.as_slice(), reference))
    }

    /// A copy of the samples of the chunk at `reference`, refused as [`Chunks::find`] refuses it.
    pub fn samples(
        &self,
        alloc: Global,
        reference: u64,
        mint: i64,
        maxt: i64,
    ) -> Result<Vec<Sample>, ChunkError>
        ensures exact { Gives (λ v. v.items) result (samples_of self.now reference mint maxt) }
        ensures found { IfOk result (λ v. IsChunk self.now reference mint maxt v.items) }
        ensures only { (samples : List (ℤ × ℤ)) → IsChunk self.now reference mint maxt samples
            → Gives (λ v. v.items) result (Ok samples) }
    {
        let samples = self.find(reference, mint, maxt)?;
        Ok(samples.to_vec(alloc)?)
    }
}

fn check_head(file: &[u8]) -> Result<(), ChunkError>
    ensures exact { Answers (λ _. file.now) result (opened file.now) }
    ensures found { OnOk result (IsSegment file.now) }
    ensures only { IsSegment file.now → IsOk result }
{
    read_head(file)
}

#[tactic(auto, unfolding(crate::specs::Reading::opened))]
fn read_head(file: &[u8]) -> Result<(), ChunkError>
    ensures { Answers (λ _. file.now) result (opened file.now) }
{
    if file.len() > LIMIT {
        return Err(ChunkError::Shape);
    }
    let mut cut = Cut::new(file);
    let magic = cut.be32().or(Err(ChunkError::Magic))?;
    if magic != MAGIC {
        return Err(ChunkError::Magic);
    }
    let version = cut.be32().or(Err(ChunkError::Version))?;
    if version != VERSION {
        return Err(ChunkError::Version);
    }
    Ok(())
}

fn chunk_at(file: &[u8], reference: u64, mint: i64, maxt: i64) -> Result<Samples<'_>, ChunkError>
    ensures exact { Answers (λ s. s) result (samples_of file.now reference mint maxt) }
    ensures found { IfOk result (IsChunk file.now reference mint maxt) }
    ensures only { (samples : List (ℤ × ℤ)) → IsChunk file.now reference mint maxt samples
        → result ≡ Ok samples }
{
    samples_of(file, reference, mint, maxt)
}

pub(crate) fn is_outside(file: &[u8], reference: u64) -> bool
    ensures { result ≡ is_outside file.now reference }
{
    (reference / SEGMENT != 0) | (reference < HEAD) | (file.len() as u64 <= reference)
}

#[tactic(auto, unfolding(crate::specs::Reading::samples_of))]
fn samples_of(file: &[u8], reference: u64, mint: i64, maxt: i64) -> Result<Samples<'_>, ChunkError>
    ensures { Answers (λ s. s) result (samples_of file.now reference mint maxt) }
{
    if is_outside(file, reference) {
        return Err(ChunkError::Reference);
    }
    let (_, bytes) = file.split_at(reference as usize);
    let (encoding, body) = content_of(bytes)?;
    let samples = decode(encoding, body)?;
    if !has_span(&samples, mint, maxt) {
        return Err(ChunkError::TimesDisagree);
    }
    Ok(samples)
}

#[tactic(auto, unfolding(crate::specs::Reading::content_at))]
pub(crate) fn content_of(bytes: &[u8]) -> Result<(u8, &[u8]), ChunkError>
    ensures { Answers (λ x. (x.0, x.1.now)) result (content_at bytes.now) }
{
    let mut cut = Cut::new(bytes);
    let len = cut.uvarint().or(Err(ChunkError::Crc))?;
    if cut.len() as u64 <= len {
        return Err(ChunkError::Crc);
    }
    let content = cut.bytes(len as usize + 1).or(Err(ChunkError::Crc))?;
    let sum = cut.be32().or(Err(ChunkError::Crc))?;
    if sum != crc32c(content) {
        return Err(ChunkError::Crc);
    }
    let (encoding, body) = content.split_at(1);
    Ok((encoding[0], body))
}

#[tactic(auto, unfolding(crate::specs::Reading::decode))]
fn decode(encoding: u8, body: &[u8]) -> Result<Samples<'_>, ChunkError>
    ensures exact { Answers (λ s. s) result (decode encoding body.now) }
    ensures some { IfOk result (λ s. 0 < length s) }
{
    if encoding == XOR {
        return Err(ChunkError::XorEncoding);
    }
    if encoding != PLAIN {
        return Err(ChunkError::OtherEncoding);
    }
    batch_of(body)
}

#[tactic(auto, using(crate::proofs::Places::places), unfolding(crate::specs::Reading::batch_in))]
fn batch_of(body: &[u8]) -> Result<Samples<'_>, ChunkError>
    ensures exact { Answers (λ s. s) result (batch_in body.now) }
    ensures some { IfOk result (λ s. 0 < length s) }
{
    if body.len() < 2 {
        return Err(ChunkError::Shape);
    }
    let count = usize::from(BigEndian::read_u16(body));
    let counted = (0 < count) & (body.len() == 2 + 16 * count);
    if !counted {
        return Err(ChunkError::Shape);
    }
    let (_, bytes) = body.split_at(2);
    let samples = Samples::new(bytes);
    if !are_rising(&samples) {
        return Err(ChunkError::Shape);
    }
    Ok(samples)
}

/// The bytes of the samples of a chunk that is known to stand there, whichever its times are.
///
/// The encoding's byte and the count, the three bytes before them, are not looked at.
fn sample_bytes(file: &[u8], reference: u64) -> &[u8]
    requires { (span : ℤ × ℤ) × (samples : List (ℤ × ℤ))
        × IsChunk file.now reference span.0 span.1 samples }
    ensures { (mint maxt : ℤ) (samples : List (ℤ × ℤ))
        → IsChunk file.now reference mint maxt samples → result.now ≡ flat_map sample_text samples }
{
    let (_, bytes) = file.split_at(reference as usize);
    let mut cut = Cut::new(bytes);
    let len = cut.uvarint().unwrap();
    cut.bytes(3).unwrap();
    cut.bytes(len as usize - 2).unwrap()
}

fn has_span(samples: &Samples<'_>, mint: i64, maxt: i64) -> bool
    requires { 0 < length samples.now }
    ensures { result ≡ spans mint maxt samples.now }
{
    let first = samples.get(0).t();
    let last = samples.get(samples.len() - 1).t();
    (first == mint) & (last == maxt)
}

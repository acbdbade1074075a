//! What the files of a directory are judged to be.

ghost use Rattle.std.specs.Prelude.{◌≡◌, ℤ, IfOk, Ok};
ghost use Rattle.labels.specs.Parts.{Part};
ghost use Rattle.block.specs.Metas.{or_meta, range_said};
ghost use Rattle.block.specs.Outcome.{Gives};
ghost use Rattle.commands.specs.Indexing.{IsOpened};
ghost use Rattle.commands.specs.Judging.{block_in, bytes_of, IsJudged, IsRefusalOf, IsSpelledAs};
ghost use Rattle.commands.specs.Checking.{is_refused};

use crate::files::BlockFiles;
use block::{Block, BlockError, Range};
use std::alloc::{AllocError, Global};
use std::fmt;
use std::thread::Threads;

/// How many threads check the chunks of a block: four for each of four processors.
const THREADS: usize = 16;

/// What the files of a directory are judged to be.
#[derive(Clone, Copy, Debug, PartialEq, Eq, Drop)]
pub enum Judgement {
    /// A block with this many series, and this many samples that are not deleted.
    Sound { series: usize, samples: u64 },
    /// No block, and the first check that fails.
    Refused(BlockError),
}

impl Judgement {
    /// Whether it is a refusal.
    pub fn is_refused(&self) -> bool
        ensures { result ≡ is_refused self.now }
    {
        matches!(self, Judgement::Refused(_))
    }
}

/// As `ok 6 series 6 samples` or `refused I14`.
impl fmt::Display for Judgement {
    ghost use Rattle.std.specs.Prelude.{Some};
    ghost use Rattle.commands.specs.Checking.{judgement_text};

    ghost output = { λ judgement. Some (judgement_text judgement) };

    fn fmt<W: fmt::Write>(&self, f: &mut fmt::Formatter<W>) -> fmt::Result {
        match self {
            Judgement::Sound { series, samples } => {
                write!(f, "ok {series} series {samples} samples")
            }
            Judgement::Refused(error) => write!(f, "refused {}", error.code()),
        }
    }
}

/// The block that files are, or the first check that fails. The checks are that of the meta, and
/// then those of the other files.
pub fn open<T: Threads + Sync>(
    rt: &T,
    alloc: Global,
    files: BlockFiles,
) -> Result<Block, BlockError>
    requires opened { IsOpened files.index.items files.opened }
    ensures exact { Gives (λ b. b) result
        (block_in (or_meta (range_said files.meta.items)) (bytes_of files)) }
    ensures found { IfOk result (λ b. IsSpelledAs (bytes_of files) b.range b.part) }
    ensures only { (range : ℤ × ℤ) (part : Part) → IsSpelledAs (bytes_of files) range part
        → Gives (λ b. b.part) result (Ok part) }
{
    let BlockFiles {
        meta,
        index,
        opened,
        chunks,
        tombstones,
    } = files;
    let range = Range::read_meta(alloc, meta.as_slice())?;
    Block::open_with(
        rt,
        THREADS,
        alloc,
        range,
        index.as_slice(),
        opened,
        chunks,
        tombstones.as_slice(),
    )
}

/// The judgement of a check that failed, unless for want of memory.
fn refusal_of(error: BlockError) -> Result<Judgement, AllocError>
    ensures { IfOk result (λ judgement. IsRefusalOf error judgement) }
{
    match error {
        BlockError::Memory => Err(AllocError),
        refusal => Ok(Judgement::Refused(refusal)),
    }
}

/// Judges the files of a directory.
pub fn judge<T: Threads + Sync>(
    rt: &T,
    alloc: Global,
    files: BlockFiles,
) -> Result<Judgement, AllocError>
    requires { IsOpened files.index.items files.opened }
    ensures { IfOk result (λ judgement. IsJudged (bytes_of files) judgement) }
{
    match open(rt, alloc, files) {
        Ok(block) => Ok(Judgement::Sound {
            series: block.series_count(),
            samples: block.sample_count(),
        }),
        Err(error) => refusal_of(error),
    }
}

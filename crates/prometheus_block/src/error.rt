//! Why a block of Prometheus is refused.

ghost use Rattle.std.specs.Prelude.{◌≡◌};
ghost use Rattle.prometheus_block.specs.Outcome.{of_chunk, of_index, of_tombstone, of_xor};
ghost use Rattle.prometheus_block.specs.declared.error.SourceError.TheVariants.{Memory};

use chunk_reader::ChunkError;
use index_reader::IndexError;
use std::alloc::{AllocError, AllocFailed};
use std::error::Error;
use std::fmt;
use tombstones::TombstoneError;
use xor_reader::XorError;

/// The first check that failed, or want of memory.
#[derive(Clone, Copy, Debug, PartialEq, Eq, Drop)]
pub enum SourceError {
    /// No memory is left.
    Memory,
    /// The file of this segment, counted from 0, cannot be read.
    Unreadable(u64),
    /// `I1` to `I15`: the index is refused.
    Index(IndexError),
    /// `T1` to `T4`: the file of deletions is refused.
    Tombstones(TombstoneError),
    /// `C1` to `C4`, `C6` to `C8`: a segment or a chunk of it is refused. `C7` where a chunk of
    /// histograms has no count.
    Chunk(ChunkError),
    /// `X1` to `X7`: the data of a chunk is refused.
    Xor(XorError),
}

impl SourceError {
    ghost use Rattle.prometheus_block.specs.Codes.{code_of};

    /// The refusal's number, as it is printed.
    pub fn code(self) -> &'static str
        ensures { result.now ≡ code_of self }
    {
        match self {
            SourceError::Memory => "memory",
            SourceError::Unreadable(_) => "unreadable",
            SourceError::Index(error) => error.code(),
            SourceError::Tombstones(error) => error.code(),
            SourceError::Chunk(error) => error.code(),
            SourceError::Xor(error) => error.code(),
        }
    }
}

impl fmt::Display for SourceError {
    fn fmt<W: fmt::Write>(&self, f: &mut fmt::Formatter<W>) -> fmt::Result {
        match self {
            SourceError::Memory => write!(f, "no memory"),
            SourceError::Unreadable(segment) => write!(f, "segment {segment} cannot be read"),
            SourceError::Index(error) => write!(f, "{error}"),
            SourceError::Tombstones(error) => write!(f, "{error}"),
            SourceError::Chunk(error) => write!(f, "{error}"),
            SourceError::Xor(error) => write!(f, "{error}"),
        }
    }
}

impl Error for SourceError {}

impl From<AllocError> for SourceError {
    ghost from_gives = { λ _ e. e ≡ Memory };

    fn from(_error: AllocError) -> SourceError {
        SourceError::Memory
    }
}

impl<T: Drop> From<AllocFailed<T>> for SourceError {
    ghost from_gives = { λ _ e. e ≡ Memory };

    fn from(_error: AllocFailed<T>) -> SourceError {
        SourceError::Memory
    }
}

impl From<IndexError> for SourceError {
    ghost from_gives = { λ error e. e ≡ of_index error };

    fn from(error: IndexError) -> SourceError {
        match error {
            IndexError::Memory => SourceError::Memory,
            other => SourceError::Index(other),
        }
    }
}

impl From<TombstoneError> for SourceError {
    ghost from_gives = { λ error e. e ≡ of_tombstone error };

    fn from(error: TombstoneError) -> SourceError {
        match error {
            TombstoneError::Memory => SourceError::Memory,
            other => SourceError::Tombstones(other),
        }
    }
}

impl From<ChunkError> for SourceError {
    ghost from_gives = { λ error e. e ≡ of_chunk error };

    fn from(error: ChunkError) -> SourceError {
        match error {
            ChunkError::Memory => SourceError::Memory,
            other => SourceError::Chunk(other),
        }
    }
}

impl From<XorError> for SourceError {
    ghost from_gives = { λ error e. e ≡ of_xor error };

    fn from(error: XorError) -> SourceError {
        match error {
            XorError::Memory => SourceError::Memory,
            other => SourceError::Xor(other),
        }
    }
}

//! Why a block is refused.

ghost use Rattle.std.specs.Prelude.{◌≡◌};
ghost use Rattle.block.specs.declared.error.BlockError.TheVariants.{Memory};
ghost use Rattle.block.specs.Outcome.{of_index, of_chunk, of_tombstone};

use chunk_reader::ChunkError;
use index_reader::IndexError;
use std::alloc::{AllocError, AllocFailed};
use std::error::Error;
use std::fmt;
use tombstones::TombstoneError;

/// The first check that failed, or want of memory.
#[derive(Clone, Copy, Debug, PartialEq, Eq)]
pub enum BlockError {
    /// No memory is left.
    Memory,
    /// `B2`: the text is no `meta.json` of a block, or is longer than 1,048,576 bytes.
    Meta,
    /// `I1` to `I15`: the index is refused. `I15` also where a series has more than 1,048,576
    /// samples.
    Index(IndexError),
    /// `C1` to `C8`: the chunks file or a chunk of it is refused.
    Chunks(ChunkError),
    /// `T1` to `T4`: the file of deletions is refused.
    Tombstones(TombstoneError),
    /// `T5`: a deletion is of a series that the index does not have.
    UnknownSeries,
    /// `B1`: a chunk begins before the range or does not end before its end.
    OutsideRange,
}

impl BlockError {
    ghost use Rattle.block.specs.Codes.{code_of};

    /// The refusal's number, as it is printed.
    pub fn code(self) -> &'static str
        ensures { result.now ≡ code_of self }
    {
        match self {
            BlockError::Memory => "memory",
            BlockError::Meta => "B2",
            BlockError::Index(error) => error.code(),
            BlockError::Chunks(error) => error.code(),
            BlockError::Tombstones(error) => error.code(),
            BlockError::UnknownSeries => "T5",
            BlockError::OutsideRange => "B1",
        }
    }
}

impl fmt::Display for BlockError {
    ghost use Rattle.std.specs.Prelude.{Some};
    ghost use Rattle.block.specs.Codes.{text_of};

    ghost output = { λ error. Some (text_of error) };

    fn fmt<W: fmt::Write>(&self, f: &mut fmt::Formatter<W>) -> fmt::Result {
        match self {
            BlockError::Memory => write!(f, "no memory"),
            BlockError::Meta => write!(f, "B2: meta.json is not that of a block"),
            BlockError::Index(error) => write!(f, "{error}"),
            BlockError::Chunks(error) => write!(f, "{error}"),
            BlockError::Tombstones(error) => {
                let code = error.code();
                write!(f, "{code}: the file of deletions is not well formed")
            }
            BlockError::UnknownSeries => write!(f, "T5: a deletion is of an unknown series"),
            BlockError::OutsideRange => write!(f, "B1: a chunk is outside the block's times"),
        }
    }
}

impl Error for BlockError {}

impl From<AllocError> for BlockError {
    ghost from_gives = { λ _ e. e ≡ Memory };

    fn from(_error: AllocError) -> BlockError {
        BlockError::Memory
    }
}

impl<T: Drop> From<AllocFailed<T>> for BlockError {
    ghost from_gives = { λ _ e. e ≡ Memory };

    fn from(_error: AllocFailed<T>) -> BlockError {
        BlockError::Memory
    }
}

impl From<IndexError> for BlockError {
    ghost from_gives = { λ error e. e ≡ of_index error };

    fn from(error: IndexError) -> BlockError {
        match error {
            IndexError::Memory => BlockError::Memory,
            other => BlockError::Index(other),
        }
    }
}

impl From<ChunkError> for BlockError {
    ghost from_gives = { λ error e. e ≡ of_chunk error };

    fn from(error: ChunkError) -> BlockError {
        match error {
            ChunkError::Memory => BlockError::Memory,
            other => BlockError::Chunks(other),
        }
    }
}

impl From<TombstoneError> for BlockError {
    ghost from_gives = { λ error e. e ≡ of_tombstone error };

    fn from(error: TombstoneError) -> BlockError {
        match error {
            TombstoneError::Memory => BlockError::Memory,
            other => BlockError::Tombstones(other),
        }
    }
}

//! Why the files of a block are refused.

ghost use Rattle.std.specs.Prelude.{◌≡◌};
ghost use Rattle.block_walk.specs.declared.error.WalkError.TheVariants.{Memory};
ghost use Rattle.block_walk.specs.IndexFile.Outcome.{of_chunk, of_tombstone};

use chunk_reader::ChunkError;
use std::alloc::{AllocError, AllocFailed};
use std::error::Error;
use std::fmt;
use tombstones::TombstoneError;

/// The first check that failed, or want of memory.
#[derive(Clone, Copy, Debug, PartialEq, Eq)]
pub enum WalkError {
    /// No memory is left.
    Memory,
    /// `I1`: the index has fewer than 57 bytes.
    TooShort,
    /// `I2`: it does not begin with `BA AA D7 00`.
    Magic,
    /// `I3`: the version is not 2.
    Version,
    /// `I4`: the checksum of the table of contents is wrong.
    ContentsCrc,
    /// `I5`: the parts of the index do not stand in their order.
    ContentsOrder,
    /// `I6`: the symbol table is not whole, or its checksum is wrong.
    SymbolsCrc,
    /// `I7`: the symbols are not exactly the content, are no texts, or do not ascend strictly.
    Symbols,
    /// `I8`: a series entry is not whole, or its checksum is wrong.
    SeriesCrc,
    /// `I9`: the body of a series entry is not of the form, or a byte between entries is not 0.
    Series,
    /// `I10`: the label sets do not ascend strictly.
    SeriesOrder,
    /// `I15`: the index is longer than 1 GiB, has more than 1,048,576 series, or one of more than
    /// 64 labels or 1,048,576 samples.
    Limit,
    /// `C1` to `C8`: the chunks file or a chunk of it is refused.
    Chunks(ChunkError),
    /// `T1` to `T4`: the file of deletions is refused.
    Tombstones(TombstoneError),
    /// `T5`: a deletion is of a series that the index does not have.
    UnknownSeries,
}

impl WalkError {
    ghost use Rattle.block_walk.specs.WalkCodes.{code_of};

    /// The refusal's number, as it is printed.
    pub fn code(self) -> &'static str
        ensures { result.now ≡ code_of self }
    {
        match self {
            WalkError::Memory => "memory",
            WalkError::TooShort => "I1",
            WalkError::Magic => "I2",
            WalkError::Version => "I3",
            WalkError::ContentsCrc => "I4",
            WalkError::ContentsOrder => "I5",
            WalkError::SymbolsCrc => "I6",
            WalkError::Symbols => "I7",
            WalkError::SeriesCrc => "I8",
            WalkError::Series => "I9",
            WalkError::SeriesOrder => "I10",
            WalkError::Limit => "I15",
            WalkError::Chunks(error) => error.code(),
            WalkError::Tombstones(error) => error.code(),
            WalkError::UnknownSeries => "T5",
        }
    }
}

impl fmt::Display for WalkError {
    ghost use Rattle.std.specs.Prelude.{Some};
    ghost use Rattle.block_walk.specs.WalkCodes.{text_of};

    ghost output = { λ error. Some (text_of error) };

    fn fmt<W: fmt::Write>(&self, f: &mut fmt::Formatter<W>) -> fmt::Result {
        let text = match self {
            WalkError::Memory => "no memory",
            WalkError::TooShort => "I1: the index has fewer than 57 bytes",
            WalkError::Magic => "I2: the index does not begin with BA AA D7 00",
            WalkError::Version => "I3: the version of the index is not 2",
            WalkError::ContentsCrc => "I4: the checksum of the table of contents is wrong",
            WalkError::ContentsOrder => "I5: the parts of the index are not in their order",
            WalkError::SymbolsCrc => "I6: the symbol table is cut short, or its checksum is wrong",
            WalkError::Symbols => "I7: the symbols are not well formed, or do not ascend",
            WalkError::SeriesCrc => "I8: a series entry is cut short, or its checksum is wrong",
            WalkError::Series => {
                "I9: a series entry is not well formed, or a byte between entries is not 0"
            }
            WalkError::SeriesOrder => "I10: the label sets of the series do not ascend",
            WalkError::Limit => {
                "I15: the index is longer than 1 GiB, or has too many series, labels or samples"
            }
            WalkError::Chunks(error) => return write!(f, "{error}"),
            WalkError::Tombstones(error) => return write!(f, "{error}"),
            WalkError::UnknownSeries => "T5: a deletion is of an unknown series",
        };
        write!(f, "{text}")
    }
}

impl Error for WalkError {}

impl From<AllocError> for WalkError {
    ghost from_gives = { λ _ e. e ≡ Memory };

    fn from(_error: AllocError) -> WalkError {
        WalkError::Memory
    }
}

impl<T: Drop> From<AllocFailed<T>> for WalkError {
    ghost from_gives = { λ _ e. e ≡ Memory };

    fn from(_error: AllocFailed<T>) -> WalkError {
        WalkError::Memory
    }
}

impl From<ChunkError> for WalkError {
    ghost from_gives = { λ error e. e ≡ of_chunk error };

    fn from(error: ChunkError) -> WalkError {
        match error {
            ChunkError::Memory => WalkError::Memory,
            other => WalkError::Chunks(other),
        }
    }
}

impl From<TombstoneError> for WalkError {
    ghost from_gives = { λ error e. e ≡ of_tombstone error };

    fn from(error: TombstoneError) -> WalkError {
        match error {
            TombstoneError::Memory => WalkError::Memory,
            other => WalkError::Tombstones(other),
        }
    }
}

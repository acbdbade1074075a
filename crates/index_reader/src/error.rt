//! Why an index is refused.

ghost use Rattle.std.specs.Prelude.{◌≡◌};
ghost use Rattle.index_reader.specs.declared.error.IndexError.TheVariants.{Memory};

use std::alloc::{AllocError, AllocFailed};
use std::error::Error;
use std::fmt;

/// The first check that failed, or want of memory.
#[derive(Clone, Copy, Debug, PartialEq, Eq)]
pub enum IndexError {
    /// No memory is left.
    Memory,
    /// `I1`: the file has fewer than 57 bytes.
    TooShort,
    /// `I2`: it does not begin with `BA AA D7 00`.
    Magic,
    /// `I3`: the version is not 2.
    Version,
    /// `I4`: the checksum of the table of contents is another.
    ContentsCrc,
    /// `I5`: the parts do not stand in their order.
    ContentsOrder,
    /// `I6`: the symbol table is not whole, or its checksum is another.
    SymbolsCrc,
    /// `I7`: the symbols are not exactly the content, are no texts, or do not ascend strictly.
    Symbols,
    /// `I8`: a series entry is not whole, or its checksum is another.
    SeriesCrc,
    /// `I9`: the body of a series entry is not of the form, or a byte between entries is not 0.
    Series,
    /// `I10`: the label sets do not ascend strictly.
    SeriesOrder,
    /// `I11`: a postings section is not whole, or its checksum is another.
    PostingsCrc,
    /// `I12`: a postings section is not of the form, or its references do not ascend strictly.
    Postings,
    /// `I13`: a table of offsets is not whole or not of the form, or names a place outside the
    /// postings.
    Offsets,
    /// `I14`: the postings are not those of the series.
    PostingsDisagree,
    /// `I15`: the file is longer than 1 GiB, or has more than 1,048,576 series, or a series of more
    /// than 64 labels.
    Limit,
}

impl IndexError {
    ghost use Rattle.index_reader.specs.Codes.{code_of};

    /// The refusal's number, as it is printed.
    pub fn code(self) -> &'static str
        ensures { result.now ≡ code_of self }
    {
        match self {
            IndexError::Memory => "memory",
            IndexError::TooShort => "I1",
            IndexError::Magic => "I2",
            IndexError::Version => "I3",
            IndexError::ContentsCrc => "I4",
            IndexError::ContentsOrder => "I5",
            IndexError::SymbolsCrc => "I6",
            IndexError::Symbols => "I7",
            IndexError::SeriesCrc => "I8",
            IndexError::Series => "I9",
            IndexError::SeriesOrder => "I10",
            IndexError::PostingsCrc => "I11",
            IndexError::Postings => "I12",
            IndexError::Offsets => "I13",
            IndexError::PostingsDisagree => "I14",
            IndexError::Limit => "I15",
        }
    }
}

impl fmt::Display for IndexError {
    ghost use Rattle.std.specs.Prelude.{Some};
    ghost use Rattle.index_reader.specs.Codes.{text_of};

    ghost output = { λ error. Some (text_of error) };

    fn fmt<W: fmt::Write>(&self, f: &mut fmt::Formatter<W>) -> fmt::Result {
        let text = match self {
            IndexError::Memory => "no memory",
            IndexError::TooShort => "I1: the index has fewer than 57 bytes",
            IndexError::Magic => "I2: the index does not begin with BA AA D7 00",
            IndexError::Version => "I3: the version of the index is not 2",
            IndexError::ContentsCrc => "I4: the checksum of the table of contents is wrong",
            IndexError::ContentsOrder => "I5: the parts of the index are not in their order",
            IndexError::SymbolsCrc => "I6: the symbol table is cut short, or its checksum is wrong",
            IndexError::Symbols => "I7: the symbols are not well formed, or do not ascend",
            IndexError::SeriesCrc => "I8: a series entry is cut short, or its checksum is wrong",
            IndexError::Series => {
                "I9: a series entry is not well formed, or a byte between entries is not 0"
            }
            IndexError::SeriesOrder => "I10: the label sets of the series do not ascend",
            IndexError::PostingsCrc => {
                "I11: a list of postings is cut short, or its checksum is wrong"
            }
            IndexError::Postings => {
                "I12: a list of postings is not well formed, or does not ascend"
            }
            IndexError::Offsets => {
                "I13: a table of offsets is not well formed, or its checksum is wrong"
            }
            IndexError::PostingsDisagree => "I14: the postings are not those of the series",
            IndexError::Limit => {
                "I15: the index is longer than 1 GiB, or has too many series, labels or samples"
            }
        };
        write!(f, "{text}")
    }
}

impl Error for IndexError {}

impl From<AllocError> for IndexError {
    ghost from_gives = { λ _ e. e ≡ Memory };

    fn from(_error: AllocError) -> IndexError {
        IndexError::Memory
    }
}

impl<T: Drop> From<AllocFailed<T>> for IndexError {
    ghost from_gives = { λ _ e. e ≡ Memory };

    fn from(_error: AllocFailed<T>) -> IndexError {
        IndexError::Memory
    }
}

//! Why a chunk is refused.

ghost use Rattle.std.specs.Prelude.{◌≡◌};
ghost use Rattle.chunk_reader.specs.declared.error.ChunkError.TheVariants.{Memory};

use std::alloc::{AllocError, AllocFailed};
use std::error::Error;
use std::fmt;

/// The first check that failed, or want of memory.
#[derive(Clone, Copy, Debug, PartialEq, Eq)]
pub enum ChunkError {
    /// No memory is left.
    Memory,
    /// `C1`: the file does not begin with `85 BD 40 DD`.
    Magic,
    /// `C2`: these are not followed by `01 00 00 00`.
    Version,
    /// `C3`: the reference names no place after the head within the file.
    Reference,
    /// `C4`: the chunk is not whole, or its checksum is another.
    Crc,
    /// `C5`: the samples are compressed by Prometheus's XOR encoding.
    XorEncoding,
    /// `C6`: the encoding is neither XOR nor `E0`.
    OtherEncoding,
    /// `C7`: the data is not of the form, times do not ascend strictly or are none, or the file is
    /// above 1 GiB.
    Shape,
    /// `C8`: the first or the last time is not the one asked for.
    TimesDisagree,
}

impl ChunkError {
    ghost use Rattle.chunk_reader.specs.Codes.{code_of};

    /// The refusal's number, as it is printed.
    pub fn code(self) -> &'static str
        ensures { result.now ≡ code_of self }
    {
        match self {
            ChunkError::Memory => "memory",
            ChunkError::Magic => "C1",
            ChunkError::Version => "C2",
            ChunkError::Reference => "C3",
            ChunkError::Crc => "C4",
            ChunkError::XorEncoding => "C5",
            ChunkError::OtherEncoding => "C6",
            ChunkError::Shape => "C7",
            ChunkError::TimesDisagree => "C8",
        }
    }
}

impl fmt::Display for ChunkError {
    ghost use Rattle.std.specs.Prelude.{Some};
    ghost use Rattle.chunk_reader.specs.Codes.{text_of};

    ghost output = { λ error. Some (text_of error) };

    fn fmt<W: fmt::Write>(&self, f: &mut fmt::Formatter<W>) -> fmt::Result {
        let text = match self {
            ChunkError::Memory => "no memory",
            ChunkError::Magic => "C1: the chunks file does not begin with 85 BD 40 DD",
            ChunkError::Version => "C2: the version of the chunks file is not 1",
            ChunkError::Reference => "C3: a chunk is said to stand outside the chunks file",
            ChunkError::Crc => "C4: a chunk is cut short, or its checksum is wrong",
            ChunkError::XorEncoding => "C5: a chunk has the XOR encoding, which is not read",
            ChunkError::OtherEncoding => "C6: a chunk has an unknown encoding",
            ChunkError::Shape => {
                "C7: a chunk is not well formed, or the chunks file is longer than 1 GiB"
            }
            ChunkError::TimesDisagree => "C8: a chunk has other times than the index says",
        };
        write!(f, "{text}")
    }
}

impl Error for ChunkError {}

impl From<AllocError> for ChunkError {
    ghost from_gives = { λ _ e. e ≡ Memory };

    fn from(_error: AllocError) -> ChunkError {
        ChunkError::Memory
    }
}

impl<T: Drop> From<AllocFailed<T>> for ChunkError {
    ghost from_gives = { λ _ e. e ≡ Memory };

    fn from(_error: AllocFailed<T>) -> ChunkError {
        ChunkError::Memory
    }
}

//! Why a block is not written anew.

ghost use Rattle.std.specs.Prelude.{◌≡◌};
ghost use Rattle.block_rewriter.specs.declared.error.RewriteError.TheVariants.{Memory};

use std::alloc::{AllocError, AllocFailed};

/// Why a block is not written anew.
#[derive(Clone, Copy, Debug, PartialEq, Eq, Drop)]
pub enum RewriteError {
    /// No memory is left.
    Memory,
    /// There are more rows than a block may have, or a row has more samples than one may have, or
    /// the index or the chunks file would be longer than 1,073,741,824 bytes.
    Limit,
    /// The text of a `meta.json` that was made is not read as the range of the block.
    Meta,
}

impl From<AllocError> for RewriteError {
    ghost from_gives = { λ _ e. e ≡ Memory };

    fn from(_error: AllocError) -> RewriteError {
        RewriteError::Memory
    }
}

impl<T: Drop> From<AllocFailed<T>> for RewriteError {
    ghost from_gives = { λ _ e. e ≡ Memory };

    fn from(_error: AllocFailed<T>) -> RewriteError {
        RewriteError::Memory
    }
}

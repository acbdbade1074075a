//! Why no body could be read.

ghost use Rattle.std.specs.Prelude.{◌≡◌, ◌+◌, ◌<◌, ◌^◌, ℕ};

use protobuf_fields::Fault;
use std::alloc::{AllocError, AllocFailed};

/// Why no body could be read: want of memory, or the first fault and how many bytes stand from its
/// place, that of the innermost field that has it, to the end of the body.
#[derive(Clone, Copy, Debug, Drop)]
pub enum ReadError {
    Memory,
    Fault(Fault, usize),
}

impl ReadError {
    ghost use Rattle.remote_write.specs.Reading.{IsWithin, behind};

    /// The same, where so many bytes more stand from its place to the end.
    pub fn behind(self, after: usize) -> ReadError
        requires { (n : ℕ) × IsWithin n self × (n + after < 2 ^ 64) }
        ensures { result ≡ behind after self }
    {
        match self {
            ReadError::Memory => ReadError::Memory,
            ReadError::Fault(fault, left) => ReadError::Fault(fault, left + after),
        }
    }
}

impl From<AllocError> for ReadError {
    ghost use Rattle.remote_write.specs.declared.error.ReadError.TheVariants.{Memory};

    ghost from_gives = { λ _ e. e ≡ Memory };

    fn from(_error: AllocError) -> ReadError {
        ReadError::Memory
    }
}

impl<T: Drop> From<AllocFailed<T>> for ReadError {
    ghost use Rattle.remote_write.specs.declared.error.ReadError.TheVariants.{Memory};

    ghost from_gives = { λ _ e. e ≡ Memory };

    fn from(_error: AllocFailed<T>) -> ReadError {
        ReadError::Memory
    }
}

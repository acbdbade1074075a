//! Why the folder of a store is not read.

ghost use Rattle.std.specs.Prelude.{◌≡◌};

use audit_command::Fault;
use kept_walk::KeptError;
use std::alloc::{AllocError, AllocFailed};

/// Why the folder of a store is not read.
#[derive(Debug, Drop)]
pub enum StoreFault {
    /// A file cannot be read, or no memory is left.
    Files(Fault),
    /// The journal is refused: `J1` to `J4`, `K1` or `K2`.
    Refused(KeptError),
    /// The journal began otherwise each time that the blocks had been read.
    Changes,
}

impl From<AllocError> for StoreFault {
    ghost use Rattle.audit_command.specs.declared.fault.Fault.TheVariants.{Memory};
    ghost use Rattle.kept_folder.specs.declared.fault.StoreFault.TheVariants.{Files};

    ghost from_gives = { λ _ fault. fault ≡ Files Memory };

    fn from(_error: AllocError) -> StoreFault {
        StoreFault::Files(Fault::Memory)
    }
}

impl<T: Drop> From<AllocFailed<T>> for StoreFault {
    ghost use Rattle.audit_command.specs.declared.fault.Fault.TheVariants.{Memory};
    ghost use Rattle.kept_folder.specs.declared.fault.StoreFault.TheVariants.{Files};

    ghost from_gives = { λ _ fault. fault ≡ Files Memory };

    fn from(_error: AllocFailed<T>) -> StoreFault {
        StoreFault::Files(Fault::Memory)
    }
}

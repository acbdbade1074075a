//! The greatest length of a file.

ghost use Rattle.std.specs.Prelude.{◌≡◌, ◌<◌, ◌≤◌, IfOk, IfErr};
ghost use Rattle.block_writer.specs.Written.{limit};
ghost use Rattle.block_writer.specs.declared.error.WriteError.TheVariants.{Limit};

use crate::error::WriteError;

/// The greatest length of a file, in bytes: 1 GiB.
pub const MAX_LEN: usize = 1_073_741_824;

/// A length or a count that a file can have. `N1` where it is longer than a file.
pub fn within(count: usize) -> Result<u32, WriteError>
    ensures same { IfOk result (λ n. n ≡ count) }
    ensures small { IfOk result (λ n. n ≤ limit) }
    ensures long { IfErr result (λ e. limit < count) }
    ensures told { IfErr result (λ e. e ≡ Limit) }
{
    if count > MAX_LEN {
        return Err(WriteError::Limit);
    }
    Ok(count as u32)
}

//! The paths of outputs.

ghost use Rattle.std.specs.Prelude.{◌≡◌, IfOk, string_bytes};
ghost use Rattle.block_folder.specs.Trees.{path_in};
ghost use Rattle.block_outputs.specs.Names.{output_name, unfinished_name};

use std::alloc::{AllocError, Global};

/// The path of the output of a number, as `mine/0001`.
pub(crate) fn output_name(alloc: Global, into: &str, number: usize) -> Result<String, AllocError>
    ensures { IfOk result (λ path. string_bytes path ≡ path_in into.now (output_name number)) }
{
    format!(in alloc; "{into}/{number:04}")
}

/// Its path while it is written, as `mine/.0001-unfinished`.
pub(crate) fn unfinished_name(
    alloc: Global,
    into: &str,
    number: usize,
) -> Result<String, AllocError>
    ensures { IfOk result (λ path. string_bytes path ≡ path_in into.now (unfinished_name number)) }
{
    format!(in alloc; "{into}/.{number:04}-unfinished")
}

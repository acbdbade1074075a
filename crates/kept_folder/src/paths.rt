//! Where the files of a store stand.

ghost use Rattle.std.specs.Prelude.{◌≡◌, IfOk, map, string_bytes};
ghost use Rattle.kept_folder.specs.Folders.{block_path, block_paths, journal_path};

use std::alloc::{AllocError, Global};

/// The journal of a store.
pub(crate) fn journal_path(alloc: Global, folder: &str) -> Result<String, AllocError>
    ensures { IfOk result (λ path. string_bytes path ≡ journal_path folder.now) }
{
    format!(in alloc; "{folder}/journal")
}

/// The directory of the block in a folder with this number.
fn block_path(alloc: Global, folder: &str, number: u64) -> Result<String, AllocError>
    ensures { IfOk result (λ path. string_bytes path ≡ block_path folder.now number) }
{
    format!(in alloc; "{folder}/blocks/{number}")
}

/// The directories of the blocks in folders with these numbers.
pub(crate) fn block_paths(
    alloc: Global,
    folder: &str,
    numbers: &[u64],
) -> Result<Vec<String>, AllocError>
    ensures { IfOk result (λ paths. map (λ path. string_bytes path) paths.items
        ≡ block_paths folder.now numbers.now) }
{
    let mut paths = Vec::new(alloc);
    for number in numbers {
        paths.push(block_path(alloc, folder, *number)?)?;
    }
    Ok(paths)
}

/// Paths, lent.
pub(crate) fn lent(alloc: Global, paths: &[String]) -> Result<Vec<&str>, AllocError>
    ensures { IfOk result (λ texts. map (λ text. text.now) texts.items
        ≡ map (λ path. string_bytes path) paths.now) }
{
    let mut texts = Vec::new(alloc);
    for path in paths {
        texts.push(path.as_str())?;
    }
    Ok(texts)
}

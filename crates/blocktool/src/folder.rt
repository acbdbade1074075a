//! Folders that hold blocks of Prometheus.

use crate::fault::Fault;
use crate::files::read_file;
use crate::progress::Teller;
use block::{BlockError, Range};
use std::alloc::Global;
use std::fs;
use std::io::{ErrorKind, Write};
use std::path::Path;
use std::rt::Files;

/// A block: the first time of its range, and its directory.
type Placed = (i64, String);

/// The first time of the range that the meta.json of a block says.
fn begin_of<R: Files + AllocGlobal>(alloc: Global, rt: &R, directory: &str) -> Result<i64, Fault> {
    let meta = read_file(alloc, rt, directory, "meta.json")?;
    match Range::read_meta(alloc, meta.as_slice()) {
        Ok(range) => Ok(range.min()),
        Err(BlockError::Memory) => Err(Fault::Memory),
        Err(error) => Err(Fault::Block(String::from_str(alloc, directory)?, error)),
    }
}

/// Whether a byte is a digit of Crockford's base 32.
fn is_digit(byte: u8) -> bool {
    match byte {
        b'I' | b'L' | b'O' | b'U' => false,
        b'0'..=b'9' | b'A'..=b'Z' => true,
        _ => false,
    }
}

/// Whether a name is one that Prometheus gives to a block that is whole: a ULID, 26 digits.
fn is_block_name(name: &str) -> bool {
    let mut count = 0usize;
    for byte in name.as_bytes() {
        if !is_digit(*byte) {
            return false;
        }
        count = count.saturating_add(1);
    }
    count == 26
}

/// Whether there is a directory at a path.
fn is_directory<R: Files>(rt: &R, path: &str) -> bool {
    Path::new(path).is_dir(rt)
}

/// Adds the block that an entry of a folder is. A directory that is no block is reported.
fn place<R: Files + AllocGlobal, E: Write>(
    alloc: Global,
    rt: &R,
    folder: &str,
    name: &str,
    placed: &mut Vec<Placed>,
    teller: &mut Teller<'_, E>,
) -> Result<(), Fault> {
    let path = format!(in alloc; "{folder}/{name}")?;
    if !is_directory(rt, path.as_str()) {
        return Ok(());
    }
    if !is_block_name(name) {
        return teller.tell(path.as_str(), "is no block, and is passed over");
    }
    let begin = begin_of(alloc, rt, path.as_str())?;
    placed.push((begin, path))?;
    Ok(())
}

/// The blocks in a folder. The block with the least time comes first.
fn blocks_in<R: Files + AllocGlobal + Clone + Drop, E: Write>(
    alloc: Global,
    rt: &R,
    folder: &str,
    teller: &mut Teller<'_, E>,
) -> Result<Vec<Placed>, Fault> {
    let Ok(entries) = fs::read_dir(rt, folder) else {
        return Err(Fault::CannotRead(String::from_str(alloc, folder)?));
    };
    let mut placed = Vec::new(alloc);
    for entry in entries {
        match entry {
            Ok(entry) => place(alloc, rt, folder, entry.file_name(), &mut placed, teller)?,
            Err(error) if error.kind() == ErrorKind::InvalidFilename => {}
            Err(_) => return Err(Fault::CannotRead(String::from_str(alloc, folder)?)),
        }
    }
    placed.sort()?;
    Ok(placed)
}

/// Adds the directories of the blocks that a path names: its own, if there is an index in it, or
/// else those of the blocks in it. The block with the least time comes first.
fn find_in<R: Files + AllocGlobal + Clone + Drop, E: Write>(
    alloc: Global,
    rt: &R,
    path: &str,
    found: &mut Vec<String>,
    teller: &mut Teller<'_, E>,
) -> Result<(), Fault> {
    let index = format!(in alloc; "{path}/index")?;
    if Path::new(index.as_str()).exists(rt) || !is_directory(rt, path) {
        found.push(String::from_str(alloc, path)?)?;
        return Ok(());
    }
    let placed = blocks_in(alloc, rt, path, teller)?;
    if placed.is_empty() {
        return Err(Fault::CannotRead(index));
    }
    for (_, directory) in placed {
        found.push(directory)?;
    }
    Ok(())
}

/// The directories of the blocks that paths name, in their order.
pub(crate) fn find_blocks<R: Files + AllocGlobal + Clone + Drop, E: Write>(
    alloc: Global,
    rt: &R,
    paths: &[&str],
    teller: &mut Teller<'_, E>,
) -> Result<Vec<String>, Fault> {
    let mut found = Vec::new(alloc);
    for path in paths {
        find_in(alloc, rt, *path, &mut found, teller)?;
    }
    Ok(found)
}

//! Blocks of this project in directories.

ghost use Rattle.std.specs.Prelude.{ℕ, List, IfOk};
ghost use Rattle.blocktool.specs.declared.own_blocks.Opened.{Opened as OpenedBlock};
ghost use Rattle.blocktool.specs.Opening.{HasDigits, HasValues};

use crate::fault::Fault;
use crate::files::read_file;
use block::{Block, BlockError, Range};
use block_folder::Values;
use serde_json::Value;
use std::alloc::Global;
use std::rt::Files;

/// The file of deletions of a block in which nothing is deleted.
const NONE_DELETED: [u8; 9] = [0x01, 0x30, 0xBA, 0x30, 0x01, 0, 0, 0, 0];

/// The bytes of the files of a block.
#[derive(Drop)]
struct Bytes {
    meta: Vec<u8>,
    index: Vec<u8>,
    chunks: Vec<u8>,
    tombstones: Vec<u8>,
}

/// A block, and what its files say of it.
#[derive(Drop)]
pub(crate) struct Opened {
    pub(crate) block: Block,
    /// How many samples are deleted.
    pub(crate) deleted: u64,
    /// How many bytes its files have.
    pub(crate) bytes: u64,
    /// How many digits after the point its values have.
    pub(crate) digits: u32,
    /// What its values mean.
    pub(crate) values: Values,
}

impl Opened {
    /// How many digits the values have, which must be those of the blocks before it.
    pub(crate) fn check_digits(
        &self,
        alloc: Global,
        before: Option<u32>,
        directory: &str,
    ) -> Result<u32, Fault>
        ensures { IfOk result (HasDigits self.now before) }
    {
        if before.unwrap_or(self.digits) != self.digits {
            return Err(Fault::Digits(String::from_str(alloc, directory)?));
        }
        Ok(self.digits)
    }

    /// What the values mean, which must be the same as in the blocks before it.
    pub(crate) fn check_values(
        &self,
        alloc: Global,
        before: Option<Values>,
        directory: &str,
    ) -> Result<Values, Fault>
        ensures { IfOk result (HasValues self.now before) }
    {
        if !before.unwrap_or(self.values).is_same(self.values) {
            return Err(Fault::Meaning(String::from_str(alloc, directory)?));
        }
        Ok(self.values)
    }
}

/// What opens blocks of this project by the names of their directories.
pub(crate) trait OpensOwn {
    /// It may find this block in the directory of this name.
    ghost may_open: { Self → List ℕ → OpenedBlock → Type 0 };

    /// Opens the block in a directory.
    fn open(&self, alloc: Global, directory: &str) -> Result<Opened, Fault>
        ensures { IfOk result (λ opened. may_open self.now directory.now opened) };
}

/// The directories of the host. No clause says what their files have.
impl<R: Files + AllocGlobal> OpensOwn for R {
    ghost may_open = { λ host directory opened. Unit {0} };

    fn open(&self, alloc: Global, directory: &str) -> Result<Opened, Fault> {
        open_own(alloc, self, directory)
    }
}

fn read_bytes<R: Files + AllocGlobal>(
    alloc: Global,
    rt: &R,
    directory: &str,
) -> Result<Bytes, Fault> {
    Ok(Bytes {
        meta: read_file(alloc, rt, directory, "meta.json")?,
        index: read_file(alloc, rt, directory, "index")?,
        chunks: read_file(alloc, rt, directory, "chunks/000001")?,
        tombstones: read_file(alloc, rt, directory, "tombstones")?,
    })
}

fn refused(alloc: Global, directory: &str, error: BlockError) -> Fault {
    if error == BlockError::Memory {
        return Fault::Memory;
    }
    match String::from_str(alloc, directory) {
        Ok(directory) => Fault::Block(directory, error),
        Err(_) => Fault::Memory,
    }
}

/// The digits that a `meta.json` says, or none if it says nothing of them.
fn digits_in(alloc: Global, meta: &[u8]) -> u32 {
    let Ok(meta) = Value::from_slice(alloc, meta) else {
        return 0;
    };
    let said = match meta.get("decimals") {
        Some(digits) => digits.as_u64(),
        None => None,
    };
    said.unwrap_or(0).min(9) as u32
}

/// What a `meta.json` says that the values mean.
fn values_in(alloc: Global, directory: &str, meta: &[u8]) -> Result<Values, Fault> {
    match Values::read_meta(alloc, meta) {
        Ok(values) => Ok(values),
        Err(error) => Err(refused(alloc, directory, error)),
    }
}

/// How many bytes the files have.
fn length_of(bytes: &Bytes) -> u64 {
    (bytes.meta.len() as u64)
        .saturating_add(bytes.index.len() as u64)
        .saturating_add(bytes.chunks.len() as u64)
        .saturating_add(bytes.tombstones.len() as u64)
}

fn open(alloc: Global, bytes: Bytes) -> Result<Block, BlockError> {
    let Bytes {
        meta,
        index,
        chunks,
        tombstones,
    } = bytes;
    let range = Range::read_meta(alloc, meta.as_slice())?;
    Block::open(
        alloc,
        range,
        index.as_slice(),
        chunks,
        tombstones.as_slice(),
    )
}

/// How many samples a block has whose deletions are left out.
fn count_stored<R: Files + AllocGlobal>(
    alloc: Global,
    rt: &R,
    directory: &str,
) -> Result<u64, Fault> {
    let mut bytes = read_bytes(alloc, rt, directory)?;
    bytes.tombstones = Vec::from_slice(alloc, &NONE_DELETED)?;
    match open(alloc, bytes) {
        Ok(block) => Ok(block.sample_count()),
        Err(error) => Err(refused(alloc, directory, error)),
    }
}

/// Opens the block in a directory. If something is deleted, its files are read twice.
pub(crate) fn open_own<R: Files + AllocGlobal>(
    alloc: Global,
    rt: &R,
    directory: &str,
) -> Result<Opened, Fault> {
    let files = read_bytes(alloc, rt, directory)?;
    let digits = digits_in(alloc, files.meta.as_slice());
    let values = values_in(alloc, directory, files.meta.as_slice())?;
    let none_deleted = files.tombstones.as_slice() == NONE_DELETED.as_slice();
    let bytes = length_of(&files);
    let block = match open(alloc, files) {
        Ok(block) => block,
        Err(error) => return Err(refused(alloc, directory, error)),
    };
    let stored = if none_deleted {
        block.sample_count()
    } else {
        count_stored(alloc, rt, directory)?
    };
    let deleted = stored.saturating_sub(block.sample_count());
    Ok(Opened {
        block,
        deleted,
        bytes,
        digits,
        values,
    })
}

//! The directory of a block.

ghost use Rattle.std.specs.Prelude.{◌≡◌, string_bytes, OnOk, IfOk, IfErr, OnErr};
ghost use Rattle.block_folder.specs.Steps.{DoesAll, DoesUpToOne};
ghost use Rattle.block_folder.specs.Blocks.{calls_at, FailsSo, WritesWhole};
ghost use Rattle.block_folder.specs.Trees.{path_in};

use crate::disk::{Disk, DiskError};
use crate::step::{Step, do_all};
use std::alloc::{AllocError, Global};

/// The bytes of the files of a block.
#[derive(Clone, Copy, Debug, Drop)]
pub struct Files<'a> {
    /// The file `meta.json`.
    pub meta: &'a [u8],
    /// The file `index`.
    pub index: &'a [u8],
    /// The file `chunks/000001`: these pieces, one after another.
    pub chunks: &'a [Vec<u8>],
    /// The file `tombstones`.
    pub tombstones: &'a [u8],
}

/// Where a block is written.
#[derive(Clone, Copy, Debug, Drop)]
pub struct Place<'a> {
    /// The directory that the block's directory stands in.
    pub parent: &'a str,
    /// The block's directory.
    pub block: &'a str,
    /// The name that it has while it is written, in the same parent.
    pub unfinished: &'a str,
}

/// Why a block is not written.
#[derive(Clone, Copy, Debug, PartialEq, Eq, Drop)]
pub enum FolderError {
    /// No memory is left; nothing was written.
    Memory,
    /// A call of the disk failed.
    Disk,
}

impl From<AllocError> for FolderError {
    ghost use Rattle.block_folder.specs.declared.folder.FolderError.TheVariants.{Memory};

    ghost from_gives = { λ _ e. e ≡ Memory };

    fn from(_error: AllocError) -> FolderError {
        FolderError::Memory
    }
}

/// The paths of the files of a block while it is written.
#[derive(Clone, Copy, Debug, Drop)]
pub(crate) struct Paths<'a> {
    pub(crate) chunks_folder: &'a str,
    pub(crate) chunks: &'a str,
    pub(crate) index: &'a str,
    pub(crate) tombstones: &'a str,
    pub(crate) meta: &'a str,
}

fn path_of(alloc: Global, folder: &str, name: &str) -> Result<String, AllocError>
    ensures { IfOk result (λ path. string_bytes path ≡ path_in folder.now name.now) }
{
    format!(in alloc; "{folder}/{name}")
}

// Makes the calls for a block, up to the first that fails.
fn write_at<'a, D: Disk>(
    disk: &mut D,
    place: Place<'a>,
    paths: Paths<'a>,
    files: Files<'a>,
) -> Result<(), DiskError>
    ensures ok { OnOk result
        (DoesAll D.did (calls_at place.entry paths.entry files.entry) disk.old disk.new) }
    ensures err { OnErr result
        (DoesUpToOne D.did (calls_at place.entry paths.entry files.entry) disk.old disk.new) }
{
    let steps = [
        Step::Make(place.unfinished),
        Step::Make(paths.chunks_folder),
        Step::WritePieces(paths.chunks, files.chunks),
        Step::Write(paths.index, files.index),
        Step::Write(paths.tombstones, files.tombstones),
        Step::Write(paths.meta, files.meta),
        Step::Sync(paths.chunks_folder),
        Step::Sync(place.unfinished),
        Step::Rename(place.unfinished, place.block),
        Step::Sync(place.parent),
    ];
    do_all(disk, &steps)
}

/// Writes the directory of a block: under another name, with each file and directory synced; then
/// it gets its name. Where a call of the disk fails, no further call is made.
///
/// At whatever moment the machine stops, nothing has the block's name, or the whole block has it,
/// if nothing had it before and both names stand in the parent.
pub fn write_block<'a, D: Disk>(
    alloc: Global,
    disk: &mut D,
    place: Place<'a>,
    files: Files<'a>,
) -> Result<(), FolderError>
    // A crash at any moment of the calls leaves no half of the block; after `Ok` each crash leaves
    // the whole. What stands beside the block's two names stays.
    ensures ok { OnOk result (WritesWhole D.did place.entry files.entry disk.old disk.new) }
    // Nor does a crash leave a half of it where a call fails, after which none was made.
    ensures err { IfErr result
        (λ e. FailsSo D.did e place.entry files.entry disk.old disk.new) }
{
    let chunks_folder = path_of(alloc, place.unfinished, "chunks")?;
    let chunks = path_of(alloc, place.unfinished, "chunks/000001")?;
    let index = path_of(alloc, place.unfinished, "index")?;
    let tombstones = path_of(alloc, place.unfinished, "tombstones")?;
    let meta = path_of(alloc, place.unfinished, "meta.json")?;
    let paths = Paths {
        chunks_folder: chunks_folder.as_str(),
        chunks: chunks.as_str(),
        index: index.as_str(),
        tombstones: tombstones.as_str(),
        meta: meta.as_str(),
    };
    match write_at(disk, place, paths, files) {
        Ok(()) => Ok(()),
        Err(DiskError) => Err(FolderError::Disk),
    }
}

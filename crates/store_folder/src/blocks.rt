//! The files of a block.

ghost use Rattle.std.specs.Prelude.{◌≡◌, IfOk, IfErr, List, OnOk};
ghost use Rattle.std.specs.Prelude.{map, string_bytes, true};
ghost use Rattle.block.specs.Outcome.{Gives};
ghost use Rattle.data_folder.specs.Folders.{HasFile, Untouched};
ghost use Rattle.data_folder.specs.States.{AreThere};
ghost use Rattle.head.specs.Blocks.{part_in};
ghost use Rattle.head.specs.Heads.{BlockPart};
ghost use Rattle.store_folder.specs.Blocks.{BlockFiles, files_in, name_in, named_files};
ghost use Rattle.store_folder.specs.Blocks.{GivesBlock, SpellBlock, shown_of};
ghost use Rattle.store_folder.specs.Faults.{DeniesBlock, DeniesFiles, DeniesName, DeniesOne};
ghost use Rattle.store_folder.specs.Faults.{GivesBlockAt, GivesBlocks, TellsFiles};
ghost use Rattle.store_folder.specs.Holding.{AreAt};

use crate::error::{BlockFault, UnreadBlock};
use block::{Block, BlockError, Range};
use data_folder::Folder;
use head_record::BlockPlace;
use std::alloc::{AllocError, Global};
use std::thread::Threads;

/// How many threads open a block: four for each of four processors.
const THREADS: usize = 16;

/// A block whose chunks file has fewer bytes is opened by the calling thread alone.
const LONG: usize = 262_144;

/// How many threads open a block with a chunks file of this many bytes.
fn threads_for(chunks: usize) -> usize {
    if chunks < LONG { 1 } else { THREADS }
}

/// The bytes of the files of a block.
#[derive(Drop)]
pub struct BlockBytes {
    /// The file `meta.json`.
    pub meta: Vec<u8>,
    /// The file `index`.
    pub index: Vec<u8>,
    /// The file `chunks/000001`.
    pub chunks: Vec<u8>,
    /// The file `tombstones`.
    pub tombstones: Vec<u8>,
}

/// The block that files spell, or the first check that fails, as `Range::read_meta` and
/// `Block::open_by` have them.
fn open_files<R: Threads + Sync>(
    rt: &R,
    alloc: Global,
    meta: &[u8],
    index: &[u8],
    chunks: Vec<u8>,
    tombstones: &[u8],
) -> Result<Block, BlockError>
    ensures found { IfOk result (λ b. SpellBlock (record {
      meta = meta.now;
      index = index.now;
      chunks = chunks.items;
      tombstones = tombstones.now;
    }) (part_in b)) }
    ensures only { (part : BlockPart) → SpellBlock (record {
      meta = meta.now;
      index = index.now;
      chunks = chunks.items;
      tombstones = tombstones.now;
    }) part → GivesBlock part result }
    ensures exact { Gives (λ b. b) result (shown_of (record {
      meta = meta.now;
      index = index.now;
      chunks = chunks.items;
      tombstones = tombstones.now;
    })) }
{
    match Range::read_meta(alloc, meta) {
        Ok(range) => {
            let threads = threads_for(chunks.len());
            Block::open_by(rt, threads, alloc, range, index, chunks, tombstones)
        }
        Err(error) => Err(error),
    }
}

/// The block that its files spell, or the first check that fails: `B2` of `meta.json`, then those
/// of `Block::open`. Several threads make them; the answer does not depend on these.
pub fn open_block<R: Threads + Sync>(
    rt: &R,
    alloc: Global,
    files: BlockBytes,
) -> Result<Block, BlockError>
    // The range and the part are what the files spell.
    ensures found { IfOk result (λ b. SpellBlock (files_in files) (part_in b)) }
    // Files that spell a block are opened, unless memory runs out.
    ensures only { (part : BlockPart) → SpellBlock (files_in files) part → GivesBlock part result }
    // The first check that fails is answered.
    ensures exact { Gives (λ b. b) result (shown_of (files_in files)) }
{
    let BlockBytes {
        meta,
        index,
        chunks,
        tombstones,
    } = files;
    open_files(rt, alloc, &meta, &index, chunks, &tombstones)
}

/// The name of a file of the block with this number.
pub(crate) fn name_in(alloc: Global, number: u64, name: &str) -> Result<String, AllocError>
    ensures { IfOk result (λ text. string_bytes text ≡ name_in number name.now) }
{
    format!(in alloc; "blocks/{number}/{name}")
}

/// The bytes of a file, which has to be there.
fn read_file<F: Folder>(alloc: Global, folder: &mut F, name: &str) -> Result<Vec<u8>, BlockFault>
    requires { F.sound folder.old ≡ true }
    ensures found { IfOk result (λ bytes.
        HasFile F.shows F.kept name.now bytes.items folder.new) }
    ensures sound { OnOk result (F.sound folder.new ≡ true) }
    ensures untouched { Untouched F.shows F.kept F.moment F.left_since
        folder.old folder.new }
    ensures refused { IfErr result (λ e.
        DeniesName F.shows F.failed folder.new name.now e) }
{
    match folder.read(alloc, name) {
        Ok(found) => match found {
            Some(bytes) => Ok(bytes),
            None => Err(BlockFault::Missing),
        },
        Err(_) => Err(BlockFault::Medium),
    }
}

/// The bytes of a file of the block with this number.
fn read_in<F: Folder>(
    alloc: Global,
    folder: &mut F,
    number: u64,
    name: &str,
) -> Result<Vec<u8>, BlockFault>
    requires { F.sound folder.old ≡ true }
    ensures found { IfOk result (λ bytes.
        HasFile F.shows F.kept (name_in number name.now) bytes.items folder.new) }
    ensures sound { OnOk result (F.sound folder.new ≡ true) }
    ensures untouched { Untouched F.shows F.kept F.moment F.left_since
        folder.old folder.new }
    ensures refused { IfErr result (λ e.
        DeniesName F.shows F.failed folder.new (name_in number name.now) e) }
{
    match name_in(alloc, number, name) {
        Ok(path) => read_file(alloc, folder, path.as_str()),
        Err(_) => Err(BlockFault::Memory),
    }
}

/// The bytes of the files of the block at a place.
fn read_files<F: Folder>(
    alloc: Global,
    folder: &mut F,
    place: BlockPlace,
) -> Result<BlockBytes, BlockFault>
    requires { F.sound folder.old ≡ true }
    ensures found { IfOk result (λ files.
        AreThere F.shows F.kept (named_files place (files_in files)) folder.new) }
    ensures sound { OnOk result (F.sound folder.new ≡ true) }
    ensures untouched { Untouched F.shows F.kept F.moment F.left_since
        folder.old folder.new }
    ensures refused { IfErr result (λ e. DeniesFiles F.shows F.failed folder.new place e) }
{
    let number = place.folder();
    let meta = read_in(alloc, folder, number, "meta.json")?;
    let index = read_in(alloc, folder, number, "index")?;
    let chunks = read_in(alloc, folder, number, "chunks/000001")?;
    let tombstones = read_in(alloc, folder, number, "tombstones")?;
    Ok(BlockBytes {
        meta,
        index,
        chunks,
        tombstones,
    })
}

/// The block at a place.
fn read_block<R: Threads + Sync, F: Folder>(
    rt: &R,
    alloc: Global,
    folder: &mut F,
    place: BlockPlace,
) -> Result<Block, BlockFault>
    requires { F.sound folder.old ≡ true }
    ensures found { IfOk result (λ b. (files : BlockFiles) × SpellBlock files (part_in b)
        × AreThere F.shows F.kept (named_files place files) folder.new) }
    ensures sound { OnOk result (F.sound folder.new ≡ true) }
    ensures untouched { Untouched F.shows F.kept F.moment F.left_since
        folder.old folder.new }
    ensures only { TellsFiles F.shows → (part : BlockPart) (files : BlockFiles)
        → SpellBlock files part → AreThere F.shows F.kept (named_files place files) folder.old
        → GivesBlockAt (F.failed folder.new) part result }
    ensures refused { IfErr result (λ e.
        DeniesBlock F.shows F.kept F.failed folder.new place e) }
{
    match read_files(alloc, folder, place) {
        Ok(files) => match open_block(rt, alloc, files) {
            Ok(block) => Ok(block),
            Err(error) => Err(BlockFault::Refused(error)),
        },
        Err(fault) => Err(fault),
    }
}

/// The blocks at these places, in their order; or the first that is not opened, and why. One is
/// read after another, and each is opened by several threads.
pub fn read_blocks<R: Threads + Sync, F: Folder>(
    rt: &R,
    alloc: Global,
    folder: &mut F,
    places: &[BlockPlace],
) -> Result<Vec<Block>, UnreadBlock>
    requires { F.sound folder.old ≡ true }
    ensures found { IfOk result (λ blocks.
        AreAt F.shows F.kept places.now (map part_in blocks.items) folder.new) }
    ensures sound { OnOk result (F.sound folder.new ≡ true) }
    ensures untouched { Untouched F.shows F.kept F.moment F.left_since
        folder.old folder.new }
    // Of a folder that tells what its files have, blocks that lie there are given, unless memory
    // runs out or reading fails.
    ensures only { TellsFiles F.shows → (parts : List BlockPart)
        → AreAt F.shows F.kept places.now parts folder.old
        → GivesBlocks (F.failed folder.new) parts result }
    // A refusal tells which of them is wrong, and how.
    ensures refused { IfErr result (λ e.
        DeniesOne F.shows F.kept F.failed folder.new places.now e) }
{
    let mut blocks = Vec::new(alloc);
    for place in places {
        let number = place.folder();
        match read_block(rt, alloc, folder, *place) {
            Ok(block) => match blocks.push(block) {
                Ok(()) => {}
                Err(_) => {
                    return Err(UnreadBlock {
                        number,
                        fault: BlockFault::Memory,
                    });
                }
            },
            Err(fault) => return Err(UnreadBlock { number, fault }),
        }
    }
    Ok(blocks)
}

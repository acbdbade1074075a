//! Blocks that are written anew.

ghost use Rattle.std.specs.Prelude.{◌≡◌, ◌++◌, ◌∷◌, [], ℕ, List, IfErr, IfOk, OnOk, length, map};
ghost use Rattle.std.specs.Prelude.{true};
ghost use Rattle.data_folder.specs.Sweeping.{KeepsStore, names_in};
ghost use Rattle.head.specs.Blocks.{part_in};
ghost use Rattle.head.specs.Heads.{BlockPart};
ghost use Rattle.store_folder.specs.Blocks.{name_in, named_files};
ghost use Rattle.store_folder.specs.Causes.{IsWriteCause};
ghost use Rattle.store_folder.specs.Holding.{AreAt};
ghost use Rattle.store_folder.specs.Sweeps.{names_at, names_of};
ghost use Rattle.store_folder.specs.Writing.{AreRewritten, EachSays, IsRewritten, Says, Wrote};
ghost use Rattle.store_folder.specs.Writing.{files_in_memory, found_at, places_from, places_with};
ghost use Rattle.store_folder.specs.Writing.{unfound};

use crate::blocks::name_in;
use crate::error::WriteFault;
use block::Block;
use block_folder::Values;
use block_rewriter::{Rewritten, rewrite};
use data_folder::{Folder, add_folder, write_apart};
use head_record::BlockPlace;
use std::alloc::Global;

/// Writes a file of the block with this number.
fn write_in<F: Folder>(
    alloc: Global,
    folder: &mut F,
    kept: &mut Vec<String>,
    number: u64,
    name: &str,
    bytes: &[u8],
) -> Result<(), WriteFault>
    requires { F.sound folder.old ≡ true }
    ensures wrote { OnOk result (Wrote F.shows F.kept F.sound F.moment F.left_since
        ((name_in number name.now, bytes.now) ∷ []) (names_in kept.old.items)
        (names_in kept.new.items) folder.old folder.new) }
    ensures cause { IfErr result (λ e. IsWriteCause (F.failed folder.new) e) }
    ensures sound { F.sound folder.new ≡ true }
    ensures stays { KeepsStore F.shows F.kept F.sound F.moment F.left_since
        (names_in kept.old.items) folder.old folder.new }
{
    let Ok(path) = name_in(alloc, number, name) else {
        return Err(WriteFault::Memory);
    };
    match write_apart(alloc, folder, kept, path.as_str(), bytes) {
        Ok(()) => Ok(()),
        Err(error) => Err(WriteFault::File(error)),
    }
}

/// Writes the files of the block with this number.
fn write_files<F: Folder>(
    alloc: Global,
    folder: &mut F,
    kept: &mut Vec<String>,
    number: u64,
    files: &Rewritten,
) -> Result<(), WriteFault>
    requires { F.sound folder.old ≡ true }
    ensures wrote { OnOk result (Wrote F.shows F.kept F.sound F.moment F.left_since
        (named_files (number, 0) (files_in_memory files.now)) (names_in kept.old.items)
        (names_in kept.new.items) folder.old folder.new) }
    ensures cause { IfErr result (λ e. IsWriteCause (F.failed folder.new) e) }
    ensures sound { F.sound folder.new ≡ true }
    ensures stays { KeepsStore F.shows F.kept F.sound F.moment F.left_since
        (names_in kept.old.items) folder.old folder.new }
{
    write_in(
        alloc,
        folder,
        kept,
        number,
        "meta.json",
        files.meta.as_bytes(),
    )?;
    write_in(alloc, folder, kept, number, "index", &files.index)?;
    write_in(alloc, folder, kept, number, "chunks/000001", &files.chunks)?;
    write_in(alloc, folder, kept, number, "tombstones", &files.tombstones)
}

/// Makes the folders of the block with this number.
fn make_folders<F: Folder>(alloc: Global, folder: &mut F, number: u64) -> Result<(), WriteFault>
    requires { F.sound folder.old ≡ true }
    ensures cause { IfErr result (λ e. IsWriteCause (F.failed folder.new) e) }
    ensures sound { F.sound folder.new ≡ true }
    ensures stays { (names : List (List ℕ)) → KeepsStore F.shows F.kept F.sound F.moment
        F.left_since names folder.old folder.new }
{
    let Ok(block) = format!(in alloc; "blocks/{number}") else {
        return Err(WriteFault::Memory);
    };
    let Ok(chunks) = format!(in alloc; "blocks/{number}/chunks") else {
        return Err(WriteFault::Memory);
    };
    make_each(folder, block.as_str(), chunks.as_str())
}

/// Makes the folder of all blocks, that of one, and that of its chunks.
fn make_each<F: Folder>(folder: &mut F, block: &str, chunks: &str) -> Result<(), WriteFault>
    requires { F.sound folder.old ≡ true }
    ensures cause { IfErr result (λ e. IsWriteCause (F.failed folder.new) e) }
    ensures sound { F.sound folder.new ≡ true }
    ensures stays { (names : List (List ℕ)) → KeepsStore F.shows F.kept F.sound F.moment
        F.left_since names folder.old folder.new }
{
    let Ok(()) = add_folder(folder, "blocks") else {
        return Err(WriteFault::Medium);
    };
    let Ok(()) = add_folder(folder, block) else {
        return Err(WriteFault::Medium);
    };
    let Ok(()) = add_folder(folder, chunks) else {
        return Err(WriteFault::Medium);
    };
    Ok(())
}

/// Writes a block anew by its rows, into the folder of a number, and keeps its files from then on.
/// Its `meta.json` says what the values mean.
pub(crate) fn write_block<F: Folder>(
    alloc: Global,
    folder: &mut F,
    kept: &mut Vec<String>,
    number: u64,
    block: &Block,
    values: Values,
) -> Result<(), WriteFault>
    requires { F.sound folder.old ≡ true }
    // The block that its files spell has the same times, and the rows that have a sample.
    ensures there { OnOk result ((part : BlockPart) × IsRewritten (part_in block.now) part
        × AreAt F.shows F.kept ((number, 0) ∷ []) (part ∷ []) folder.new) }
    ensures says { OnOk result (Says F.shows F.kept values folder.new (number, 0)) }
    ensures names { OnOk result (names_in kept.new.items
        ≡ names_in kept.old.items ++ names_of (number, 0)) }
    ensures cause { IfErr result (λ e. IsWriteCause (F.failed folder.new) e) }
    ensures sound { F.sound folder.new ≡ true }
    // What was to be kept stays, whatever the answer, also after a crash at any moment.
    ensures stays { KeepsStore F.shows F.kept F.sound F.moment F.left_since
        (names_in kept.old.items) folder.old folder.new }
{
    let files = match rewrite(alloc, block, values) {
        Ok(files) => files,
        Err(error) => return Err(WriteFault::Block(error)),
    };
    make_folders(alloc, folder, number)?;
    write_files(alloc, folder, kept, number, &files)
}

/// The place that is found for the block at this index.
fn found_at(found: &[Option<BlockPlace>], at: usize) -> Option<BlockPlace>
    ensures { result ≡ found_at found.now at }
{
    if at >= found.len() {
        return None;
    }
    found[at]
}

/// Writes each of these blocks for which no place is found, anew by its rows, in folders of the
/// numbers from the first on, and keeps their files from then on. Each `meta.json` says what the
/// values mean. The places of all of the blocks.
pub(crate) fn write_blocks<F: Folder>(
    alloc: Global,
    folder: &mut F,
    kept: &mut Vec<String>,
    blocks: &[Block],
    found: &[Option<BlockPlace>],
    first: u64,
    values: Values,
) -> Result<Vec<BlockPlace>, WriteFault>
    requires { F.sound folder.old ≡ true }
    ensures there { OnOk result ((parts : List BlockPart)
        × AreRewritten (unfound found.now (map part_in blocks.now)) parts
        × AreAt F.shows F.kept
        (places_from first (length (unfound found.now (map part_in blocks.now)))) parts
        folder.new) }
    ensures says { OnOk result (EachSays F.shows F.kept values
        (places_from first (length (unfound found.now (map part_in blocks.now)))) folder.new) }
    ensures places { IfOk result (λ places.
        places.items ≡ places_with first found.now (length blocks.now)) }
    ensures names { OnOk result (names_in kept.new.items ≡ names_in kept.old.items
        ++ names_at (places_from first (length (unfound found.now (map part_in blocks.now))))) }
    ensures cause { IfErr result (λ e. IsWriteCause (F.failed folder.new) e) }
    ensures sound { F.sound folder.new ≡ true }
    ensures stays { KeepsStore F.shows F.kept F.sound F.moment F.left_since
        (names_in kept.old.items) folder.old folder.new }
{
    let mut places = Vec::new(alloc);
    let mut written = 0u64;
    for at in 0..blocks.len() {
        if let Some(place) = found_at(found, at) {
            let Ok(()) = places.push(place) else {
                return Err(WriteFault::Memory);
            };
            continue;
        }
        let Some(number) = first.checked_add(written) else {
            return Err(WriteFault::Numbers);
        };
        write_block(alloc, folder, kept, number, &blocks[at], values)?;
        written += 1;
        let Ok(()) = places.push(BlockPlace::new(number, 0)) else {
            return Err(WriteFault::Memory);
        };
    }
    Ok(places)
}

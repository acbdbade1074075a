//! The store of the blocks in directories.

ghost use Rattle.std.specs.Prelude.{◌≤◌, length, map, IfOk, IfErr};
ghost use Rattle.std.specs.Thread.{IsSync};
ghost use Rattle.head.specs.Blocks.{part_in};
ghost use Rattle.commands.specs.Reading.{paths_of};
ghost use Rattle.commands.specs.Opening.{IsBlockAt, AreBlocksAt, IsBlockFault, IsFirstFault};
ghost use Rattle.commands.specs.Opening.{IsOpeningOutcome, IsOpeningOf, IsOpeningFault};

use crate::fault::{Fault, Refusal};
use crate::files::{ReadFiles, read_block};
use crate::judgement::open;
use block::Block;
use head::{MAX_BLOCKS, Snapshot};
use snapshots::OpenError;
use std::alloc::Global;
use std::thread::{Threads, join};

/// How many threads open directories at the same time, one for each of four processors.
const THREADS: usize = 4;

/// Reads the files in a directory and makes every check of a block.
fn open_one<T: Threads + Sync, F: ReadFiles>(
    rt: &T,
    alloc: Global,
    files: &F,
    directory: &str,
) -> Result<Block, Fault>
    ensures ok { IfOk result (λ b. IsBlockAt (F.may_read files.now) directory.now (part_in b)) }
    ensures err { IfErr result (λ fault. IsBlockFault (F.may_read files.now) directory.now fault) }
{
    let block = read_block(rt, alloc, files, directory)?;
    Ok(open(rt, alloc, block)?)
}

/// The blocks in these directories, in their order, up to the first that is at fault. They are
/// opened one after another.
fn open_each<T: Threads + Sync, F: ReadFiles>(
    rt: &T,
    alloc: Global,
    files: &F,
    directories: &[&str],
) -> Result<Vec<Block>, Fault>
    ensures ok { IfOk result (λ blocks.
        AreBlocksAt (F.may_read files.now) (paths_of directories.now) (map part_in blocks.items)) }
    ensures err { IfErr result (λ fault.
        IsFirstFault (F.may_read files.now) (paths_of directories.now) fault) }
{
    let mut blocks = Vec::new(alloc);
    for directory in directories {
        let block = open_one(rt, alloc, files, directory)?;
        blocks.push(block)?;
    }
    Ok(blocks)
}

/// The same by at most this many threads, the calling one among them. The first directory at fault
/// is answered, also if a later one is found at fault before it.
#[cycle(halves)]
fn open_among<T: Threads + Sync, F: ReadFiles>(
    rt: &T,
    alloc: Global,
    files: &F,
    directories: &[&str],
    threads: usize,
) -> Result<Vec<Block>, Fault>
    ensures ok { IfOk result (λ blocks.
        AreBlocksAt (F.may_read files.now) (paths_of directories.now) (map part_in blocks.items)) }
    ensures err { IfErr result (λ fault.
        IsFirstFault (F.may_read files.now) (paths_of directories.now) fault) }
{
    let count = directories.len();
    if threads < 2 || count < 2 {
        return open_each(rt, alloc, files, directories);
    }
    let helpers = threads / 2;
    let rest = threads - helpers;
    let (front, back) = directories.split_at(count / 2);
    let early = || -> Result<Vec<Block>, Fault>
        requires { IsSync T.row × IsSync F.row }
        ensures { IsOpeningOutcome (F.may_read files.entry.now) (paths_of front.entry.now) result }
    { open_among(rt, alloc, files, front, helpers) };
    let late = || -> Result<Vec<Block>, Fault>
        requires { IsSync T.row × IsSync F.row }
        ensures { IsOpeningOutcome (F.may_read files.entry.now) (paths_of back.entry.now) result }
    { open_among(rt, alloc, files, back, rest) };
    let (first, second) = join(rt, early, late);
    let mut blocks = first?;
    let mut more = second?;
    blocks.append(&mut more)?;
    Ok(blocks)
}

/// The blocks in these directories, in their order, at most 63.
///
/// Each directory is read and verified completely, up to four at the same time. The first at fault
/// is answered. `O3` comes after the last of them, if there are more than 63.
pub fn open_blocks<T: Threads + Sync, F: ReadFiles>(
    rt: &T,
    alloc: Global,
    files: &F,
    directories: &[&str],
) -> Result<Vec<Block>, Fault>
    ensures ok { IfOk result (λ blocks.
        AreBlocksAt (F.may_read files.now) (paths_of directories.now) (map part_in blocks.items)) }
    ensures few { IfOk result (λ blocks. length blocks.items ≤ 63) }
    ensures err { IfErr result (λ fault.
        IsOpeningFault (F.may_read files.now) (paths_of directories.now) fault) }
{
    let opened = open_among(rt, alloc, files, directories, THREADS)?;
    if opened.len() > MAX_BLOCKS {
        return Err(Fault::Refused(Refusal::Open(OpenError::Limit)));
    }
    Ok(opened)
}

/// The snapshot of the blocks in these directories, in their order, and of an empty head.
///
/// The directories are opened as by [`open_blocks`].
pub fn open_store<T: Threads + Sync, F: ReadFiles>(
    rt: &T,
    alloc: Global,
    files: &F,
    directories: &[&str],
) -> Result<Snapshot, Fault>
    ensures ok { IfOk result (λ s.
        IsOpeningOf (F.may_read files.now) (paths_of directories.now) s) }
    ensures err { IfErr result (λ fault.
        IsOpeningFault (F.may_read files.now) (paths_of directories.now) fault) }
{
    let blocks = open_blocks(rt, alloc, files, directories)?;
    Ok(Snapshot::opening(alloc, blocks)?)
}

//! Who walks the files of blocks: the calling thread, or several.

ghost use Rattle.std.specs.Prelude.{⊤, IfOk};
ghost use Rattle.std.specs.Thread.{IsSync};
ghost use Rattle.audit_command.specs.Walking.{bytes_of, IsTableOf};

use crate::files::BlockFiles;
use auditor::{BlockTable, Table, WalkError};
use std::alloc::{AllocError, Global};
use std::thread::Threads;

/// How many threads walk a block: four for each of four processors.
const THREADS: usize = 16;

fn table_by_one(alloc: Global, files: BlockFiles) -> Result<BlockTable, AllocError>
    ensures { IfOk result (λ table. IsTableOf (bytes_of files) table) }
{
    let BlockFiles {
        index,
        chunks,
        tombstones,
    } = files;
    match Table::walk(alloc, index.as_slice(), chunks, tombstones.as_slice()) {
        Ok(table) => Ok(BlockTable::Walked(table)),
        Err(WalkError::Memory) => Err(AllocError),
        Err(error) => Ok(BlockTable::Refused(error.code())),
    }
}

fn table_by_workers<T: Threads + Sync>(
    rt: &T,
    alloc: Global,
    files: BlockFiles,
) -> Result<BlockTable, AllocError>
    ensures { IfOk result (λ table. IsTableOf (bytes_of files) table) }
{
    let BlockFiles {
        index,
        chunks,
        tombstones,
    } = files;
    match Table::walk_by(
        rt,
        THREADS,
        alloc,
        index.as_slice(),
        chunks,
        tombstones.as_slice(),
    ) {
        Ok(table) => Ok(BlockTable::Walked(table)),
        Err(WalkError::Memory) => Err(AllocError),
        Err(error) => Ok(BlockTable::Refused(error.code())),
    }
}

/// Who walks the files of a block.
pub trait Walker {
    // What its work takes: that threads may share what starts them.
    ghost is_ready: { Self → Type 0 };

    /// What is known of the block.
    fn walk(&self, alloc: Global, files: BlockFiles) -> Result<BlockTable, AllocError>
        requires ready { is_ready self.now }
        ensures { IfOk result (λ table. IsTableOf (bytes_of files) table) };
}

/// The calling thread alone.
#[derive(Drop)]
pub struct OneThread;

impl Walker for OneThread {
    ghost is_ready = { λ _. ⊤ };

    fn walk(&self, alloc: Global, files: BlockFiles) -> Result<BlockTable, AllocError> {
        table_by_one(alloc, files)
    }
}

/// Several threads, the calling one among them.
#[derive(Drop)]
pub struct Workers<'a, T> {
    /// What starts them.
    pub rt: &'a T,
}

impl<'a, T: Threads + Sync> Walker for Workers<'a, T> {
    ghost is_ready = { λ _. IsSync T.row };

    fn walk(&self, alloc: Global, files: BlockFiles) -> Result<BlockTable, AllocError> {
        table_by_workers(self.rt, alloc, files)
    }
}

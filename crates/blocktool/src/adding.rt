//! Blocks that are added to a store that is kept in a folder.

ghost use Rattle.std.specs.Prelude.{IfOk, None};
ghost use Rattle.blocktool.specs.Opening.{AreAdded, names_in};

use crate::fault::Fault;
use crate::own_blocks::OpensOwn;
use crate::progress::Teller;
use crate::store_lock::{lock_store, not_changed};
use crate::target::send;
use block::Block;
use block_folder::Values;
use data_folder::HostFolder;
use head::{MAX_BLOCKS, ResumeError, Snapshot};
use std::alloc::{AllocError, Global};
use std::io::Write;
use std::thread::Threads;
use store_joiner::{ChangeFault, add_to_store};

/// The blocks in directories, in their order, and what their values mean. All must have values of
/// the same number of digits, which mean the same.
fn open_blocks<B: OpensOwn>(
    alloc: Global,
    own: &B,
    directories: &[&str],
) -> Result<(Vec<Block>, Option<Values>), Fault>
    ensures { IfOk result (λ x. AreAdded B.may_open own.now (names_in directories.now) None None
        x.0.items x.1) }
{
    let mut blocks = Vec::new(alloc);
    let (mut digits, mut values) = (None, None);
    for directory in directories {
        let opened = own.open(alloc, *directory)?;
        digits = Some(opened.check_digits(alloc, digits, *directory)?);
        values = Some(opened.check_values(alloc, values, *directory)?);
        blocks.push(opened.block)?;
    }
    Ok((blocks, values))
}

/// The opening of blocks, of which there may be no more than a store may have.
fn open_all(alloc: Global, blocks: Vec<Block>) -> Result<Snapshot, Fault> {
    if blocks.len() > MAX_BLOCKS {
        return Err(Fault::TooManyBlocks(blocks.len()));
    }
    let opening = Snapshot::opening(alloc, blocks)?;
    Ok(opening)
}

/// The fault that the values of blocks, all of which mean the same, mean something else than the
/// store's.
fn other_meaning(alloc: Global, directories: &[&str]) -> Fault {
    let first = match directories.first() {
        Some(directory) => *directory,
        None => "",
    };
    match String::from_str(alloc, first) {
        Ok(directory) => Fault::Meaning(directory),
        Err(_) => Fault::Memory,
    }
}

/// Why blocks are not added to a store.
fn not_added(
    alloc: Global,
    data: &str,
    directories: &[&str],
    fault: ChangeFault,
    opening: &Snapshot,
) -> Fault {
    match fault {
        ChangeFault::Meaning => other_meaning(alloc, directories),
        ChangeFault::Unfit(ResumeError::Unsound, count) => {
            if count > MAX_BLOCKS {
                return Fault::TooManyBlocks(count);
            }
            match String::from_str(alloc, data) {
                Ok(data) => Fault::HeadBelow(data, opening.floor()),
                Err(_) => Fault::Memory,
            }
        }
        fault => not_changed(alloc, data, fault),
    }
}

/// As `kept: 2 blocks added, 5 in all`.
fn line_of(alloc: Global, data: &str, added: usize, total: usize) -> Result<String, AllocError> {
    let noun = if added == 1 { "block" } else { "blocks" };
    format!(in alloc; "{data}: {added} {noun} added, {total} in all\n")
}

/// Adds blocks of this project to a store that no server keeps, before its own. If both have a
/// sample of one series at one time, the store's is kept. Their values must mean what its own mean.
/// A store that begins this way has whole numbers. What is in the journal is saved first. A crash
/// at any moment leaves the store as it was, or with all of them.
pub(crate) fn add<T: Threads + Sync, W: Write, E: Write>(
    threads: &T,
    alloc: Global,
    host: &HostRuntime,
    data: &str,
    directories: &[&str],
    out: &mut W,
    teller: &mut Teller<'_, E>,
) -> Result<(), Fault> {
    let lock = lock_store(alloc, host, data)?;
    teller.is_at("reading the blocks")?;
    let (blocks, values) = open_blocks(alloc, host, directories)?;
    let (opening, values) = (open_all(alloc, blocks)?, values.unwrap_or(Values::Whole));
    teller.is_at("adding the blocks")?;
    let folder = HostFolder::new(host, alloc, data);
    let total = match add_to_store(threads, alloc, folder, &opening, values) {
        Ok((total, _)) => total,
        Err((fault, _)) => return Err(not_added(alloc, data, directories, fault, &opening)),
    };
    drop(lock);
    let line = line_of(alloc, data, opening.blocks().len(), total)?;
    send(out, line.as_str())?;
    Ok(())
}

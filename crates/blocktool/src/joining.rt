//! The blocks of a store that is kept in a folder, joined.

use crate::fault::Fault;
use crate::progress::Teller;
use crate::store_lock::{lock_store, not_changed};
use crate::target::send;
use data_folder::HostFolder;
use std::alloc::{AllocError, Global};
use std::io::Write;
use std::thread::Threads;
use store_joiner::{BlockCounts, join_store};

/// As `kept: 63 blocks joined into 1`, or `kept: 1 block, none joined`.
fn line_of(alloc: Global, data: &str, counts: BlockCounts) -> Result<String, AllocError> {
    let BlockCounts { before, after } = counts;
    let noun = if before == 1 { "block" } else { "blocks" };
    if before == after {
        format!(in alloc; "{data}: {before} {noun}, none joined\n")
    } else {
        format!(in alloc; "{data}: {before} {noun} joined into {after}\n")
    }
}

/// Joins the blocks of a store that no server keeps: those that lie in `DIR/blocks`. What is in the
/// journal is saved first. A crash at any moment leaves the store as it was, or joined.
pub(crate) fn join<T: Threads + Sync, W: Write, E: Write>(
    threads: &T,
    alloc: Global,
    host: &HostRuntime,
    data: &str,
    out: &mut W,
    teller: &mut Teller<'_, E>,
) -> Result<(), Fault> {
    let lock = lock_store(alloc, host, data)?;
    teller.is_at("joining the blocks")?;
    let counts = match join_store(threads, alloc, HostFolder::new(host, alloc, data)) {
        Ok((counts, _)) => counts,
        Err((fault, _)) => return Err(not_changed(alloc, data, fault)),
    };
    drop(lock);
    let line = line_of(alloc, data, counts)?;
    send(out, line.as_str())?;
    Ok(())
}

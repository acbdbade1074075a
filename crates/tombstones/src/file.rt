//! The checks of a file in their order.

ghost use Rattle.std.specs.Prelude.{◌≡◌, ◌≤◌, ◌<◌, List, length};
ghost use Rattle.tombstones.specs.Outcome.{Gives};
ghost use Rattle.tombstones.specs.Grammar.{is_interval};
ghost use Rattle.tombstones.specs.Reading.{checked_at, deletions_from, deletions_of, entries_of};
ghost use Rattle.tombstones.specs.Reading.{entry_at};

use crate::deletion::Deletion;
use crate::error::TombstoneError;
use labels::is_time;
use std::alloc::Global;
use wire::{Cut, crc32c};

const LIMIT: usize = 0x4000_0000;

const MAGIC: u32 = 0x0130_BA30;

const VERSION: u8 = 1;

const MAX_REFERENCE: u64 = 0xFFFF_FFFF;

/// The deletions that a file spells, in its order.
#[tactic(auto, unfolding(crate::specs::Reading::deletions_of))]
pub(crate) fn deletions_of(alloc: Global, file: &[u8]) -> Result<Vec<Deletion>, TombstoneError>
    ensures { Gives (λ v. v.items) result (deletions_of file.now) }
{
    let entries = entries_of(file)?;
    deletions_in(alloc, entries)
}

#[tactic(auto, unfolding(crate::specs::Reading::entries_of))]
fn entries_of(file: &[u8]) -> Result<&[u8], TombstoneError>
    ensures { Gives (λ x. x.now) result (entries_of file.now) }
{
    let mut cut = Cut::new(file);
    let magic = cut.be32().or(Err(TombstoneError::Magic))?;
    if magic != MAGIC {
        return Err(TombstoneError::Magic);
    }
    let version = cut.u8().or(Err(TombstoneError::Version))?;
    if version != VERSION {
        return Err(TombstoneError::Version);
    }
    if file.len() > LIMIT {
        return Err(TombstoneError::Shape);
    }
    checked_of(cut.rest())
}

#[tactic(auto, unfolding(crate::specs::Reading::checked_at))]
fn checked_of(after: &[u8]) -> Result<&[u8], TombstoneError>
    ensures { Gives (λ x. x.now) result (checked_at after.now) }
{
    let mut cut = Cut::new(after);
    let entries = cut
        .bytes(after.len().saturating_sub(4))
        .or(Err(TombstoneError::Shape))?;
    let sum = cut.be32().or(Err(TombstoneError::Shape))?;
    if sum != crc32c(entries) {
        return Err(TombstoneError::Crc);
    }
    Ok(entries)
}

fn deletions_in(alloc: Global, entries: &[u8]) -> Result<Vec<Deletion>, TombstoneError>
    ensures { Gives (λ v. v.items) result (deletions_from (length entries.now) entries.now) }
{
    let mut deletions = Vec::new(alloc);
    let mut rest = entries;
    while !rest.is_empty() {
        let (deletion, after) = entry_of(rest)?;
        deletions.push(deletion)?;
        rest = after;
    }
    Ok(deletions)
}

#[tactic(auto, unfolding(crate::specs::Reading::entry_at))]
fn entry_of(bytes: &[u8]) -> Result<(Deletion, &[u8]), TombstoneError>
    ensures { Gives (λ x. (x.0, x.1.now)) result (entry_at bytes.now) }
{
    let mut cut = Cut::new(bytes);
    let reference = cut.uvarint().or(Err(TombstoneError::Shape))?;
    let from = cut.varint().or(Err(TombstoneError::Shape))?;
    let to = cut.varint().or(Err(TombstoneError::Shape))?;
    if reference > MAX_REFERENCE {
        return Err(TombstoneError::Shape);
    }
    if !is_interval(from, to) {
        return Err(TombstoneError::Shape);
    }
    let reference = reference as u32;
    Ok((
        Deletion {
            reference,
            from,
            to,
        },
        cut.rest(),
    ))
}

fn is_interval(from: i64, to: i64) -> bool
    ensures { result ≡ is_interval from to }
{
    from <= to && is_time(from) && is_time(to)
}

//! The searches over a block and over a head, the rows of many matches made by several threads.

ghost use Rattle.std.specs.Prelude.{◌≡◌, IfOk};
ghost use Rattle.std.specs.List.{filter_map};
ghost use Rattle.labels.specs.Parts.{IsPart};
ghost use Rattle.head.specs.Shown.{part_of};
ghost use Rattle.block_search.specs.Answering.{row_of_interval, IsFoundRow};
ghost use Rattle.block_search.specs.Answers.{IsPartAnswer};

use crate::one_part::found_row;
use block::Block;
use cover::{Interval, PartAnswer, cover};
use head::HeadView;
use labels::{Row, sort_rows};
use matchers::Query;
use postings::PartName;
use rayon::prelude::*;
use std::alloc::{AllocError, Global};
use std::thread::Threads;

/// The fewest intervals of a certificate that a thread is started for: a certificate of less than
/// twice as many is gone through by the calling thread.
const LEAST_RUN: usize = 256;

/// The rows of the series of a block that match, in the order of their references: by the calling
/// thread and others, at most two for each processor. Where no thread can be started, the calling
/// one makes the rows of its run too.
fn block_rows<R: Threads + Sync>(
    rt: &R,
    alloc: Global,
    block: &Block,
    certificate: &[Interval],
    query: &Query,
) -> Result<Vec<Row>, AllocError>
    ensures { IfOk result (λ rows. rows.items
        ≡ filter_map (row_of_interval query.now.from query.now.to block.now.part) certificate.now) }
{
    certificate
        .par_iter()
        .with_min_len(LEAST_RUN)
        .filter_map(
            |interval: &Interval| -> Option<Result<Row, AllocError>>
                ensures { IsFoundRow query.entry.now.from query.entry.now.to block.entry.now.part
                    interval.now result }
            { found_row(alloc, &block.view(), interval, query) },
        )
        .collect::<Result<Vec<_>, AllocError>>(rt, alloc)?
}

/// The same of a head.
fn head_rows<R: Threads + Sync>(
    rt: &R,
    alloc: Global,
    head: &HeadView,
    certificate: &[Interval],
    query: &Query,
) -> Result<Vec<Row>, AllocError>
    ensures { IfOk result (λ rows. rows.items
        ≡ filter_map (row_of_interval query.now.from query.now.to (part_of head.now))
        certificate.now) }
{
    certificate
        .par_iter()
        .with_min_len(LEAST_RUN)
        .filter_map(
            |interval: &Interval| -> Option<Result<Row, AllocError>>
                ensures { IsFoundRow query.entry.now.from query.entry.now.to
                    (part_of head.entry.now) interval.now result }
            { found_row(alloc, &head, interval, query) },
        )
        .collect::<Result<Vec<_>, AllocError>>(rt, alloc)?
}

/// What `search_part` gives of a block, the rows of many matches made by several threads.
pub(crate) fn search_block<R: Threads + Sync>(
    rt: &R,
    alloc: Global,
    part: PartName,
    block: &Block,
    query: &Query,
) -> Result<PartAnswer, AllocError>
    ensures part { IfOk result (λ a. a.part ≡ part) }
    ensures is_part { IsPart block.now.part }
    ensures answers { IfOk result (IsPartAnswer query.now block.now.part) }
{
    let cover = cover(alloc, &block.view(), query)?;
    let rows = block_rows(rt, alloc, block, cover.certificate.as_slice(), query)?;
    // For the proof alone: so these rows are in order, and none is compared.
    block.are_in_label_order();
    Ok(PartAnswer { part, rows, cover })
}

/// What `search_part` gives of a head, the rows of many matches made by several threads.
pub(crate) fn search_head<R: Threads + Sync>(
    rt: &R,
    alloc: Global,
    part: PartName,
    head: &HeadView,
    query: &Query,
) -> Result<PartAnswer, AllocError>
    ensures part { IfOk result (λ a. a.part ≡ part) }
    ensures is_part { IsPart (part_of head.now) }
    ensures answers { IfOk result (IsPartAnswer query.now (part_of head.now)) }
{
    let cover = cover(alloc, &head, query)?;
    let mut rows = head_rows(rt, alloc, head, cover.certificate.as_slice(), query)?;
    sort_rows(&mut rows)?;
    Ok(PartAnswer { part, rows, cover })
}

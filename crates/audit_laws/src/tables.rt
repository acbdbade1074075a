//! The tables of a snapshot's parts.

ghost use Rattle.std.specs.Prelude.{◌≡◌, IfOk};
ghost use Rattle.labels.specs.Parts.{IsPart};
ghost use Rattle.head.specs.Shown.{part_of};

use auditor::Table;
use block::Block;
use head::HeadView;
use postings::Source;
use std::alloc::{AllocError, Global};

/// The law of what a source lends lists of: it is a part.
fn lends_a_part<S: Source>(source: &S)
    ensures { IsPart (S.part source.now) }
{}

/// The table of a head: its series with their samples.
pub(crate) fn table_of_head(alloc: Global, head: &HeadView) -> Result<Table, AllocError>
    ensures { IfOk result (λ table. table ≡ part_of head.now) }
{
    lends_a_part(&head);
    Ok(Table::of_series(head.list_all(alloc)?))
}

/// The table of a block: its series with their undeleted samples.
pub(crate) fn table_of_block(alloc: Global, block: &Block) -> Result<Table, AllocError>
    ensures { IfOk result (λ table. table ≡ block.now.part) }
{
    // What holds of a block's part is known where its range is asked for.
    let _ = block.range();
    Ok(Table::of_series(block.list_all(alloc)?))
}

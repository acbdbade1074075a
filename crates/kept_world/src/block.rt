//! A block less what a deletion takes.

ghost use Rattle.std.specs.Prelude.{◌≡◌, IfOk, filter, map, not};
ghost use Rattle.labels.specs.Contents.{in_range};
ghost use Rattle.matchers.specs.Satisfies.{satisfies_all};
ghost use Rattle.kept_world.specs.States.{struck_row, struck_part};

use crate::choice::{Choice, Span};
use block_walk::Table;
use labels::{Row, Sample, SeriesRef};
use std::alloc::{AllocError, Global};

/// The samples of a range leave.
fn strike_samples(samples: &mut Vec<Sample>, span: &Span)
    ensures { samples.new.items
        ≡ filter (λ s. not (in_range span.now.from span.now.to s.0)) samples.old.items }
{
    samples.retain(|sample| !span.has(sample));
}

fn row_without(reference: SeriesRef, row: Row, choice: &mut Choice<'_>) -> (SeriesRef, Row)
    ensures struck { result ≡ struck_row (satisfies_all choice.old.matchers)
        choice.old.from choice.old.to (reference, row) }
    ensures same { choice.new ≡ choice.old }
{
    let (labels, mut samples) = row.into_parts();
    if choice.has_labels(&labels) {
        strike_samples(&mut samples, &choice.span());
    }
    (reference, Row::new(labels, samples))
}

fn rows_without(
    alloc: Global,
    rows: Vec<(SeriesRef, Row)>,
    choice: &mut Choice<'_>,
) -> Result<Vec<(SeriesRef, Row)>, AllocError>
    ensures struck { IfOk result (λ left. left.items ≡ struck_part
        (satisfies_all choice.old.matchers) choice.old.from choice.old.to rows.items) }
    ensures same { choice.new ≡ choice.old }
{
    let mut left = Vec::with_capacity(alloc, rows.len())?;
    for (reference, row) in rows {
        left.push(row_without(reference, row, choice))?;
    }
    Ok(left)
}

/// A block without the samples that a deletion takes. Its series are moved, and not copied.
fn block_without(alloc: Global, block: Table, choice: &mut Choice<'_>) -> Result<Table, AllocError>
    ensures struck { IfOk result (λ left. left ≡ struck_part
        (satisfies_all choice.old.matchers) choice.old.from choice.old.to block) }
    ensures same { choice.new ≡ choice.old }
{
    let rows = rows_without(alloc, block.into_series(), choice)?;
    Ok(Table::of_series(rows))
}

/// Blocks without the samples that a deletion takes.
pub(crate) fn blocks_without(
    alloc: Global,
    blocks: Vec<Table>,
    choice: &mut Choice<'_>,
) -> Result<Vec<Table>, AllocError>
    ensures struck { IfOk result (λ left. left.items ≡ map (struck_part
        (satisfies_all choice.old.matchers) choice.old.from choice.old.to) blocks.items) }
    ensures same { choice.new ≡ choice.old }
{
    let mut left = Vec::with_capacity(alloc, blocks.len())?;
    for block in blocks {
        left.push(block_without(alloc, block, choice)?)?;
    }
    Ok(left)
}

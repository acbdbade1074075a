//! Rows in memory as an input.

ghost use Rattle.std.specs.Prelude.{◌≡◌, ◌++◌, ◌==◌, length, IfOk, OnOk};
ghost use Rattle.labels.specs.Parts.{within};
ghost use Rattle.prometheus_block.specs.Rows.{row_if, rows_between};
ghost use Rattle.blocktool.specs.Listed.{IsGivenByRows};
ghost use Rattle.blocktool.specs.Listed.{RowsGiveTheirContent};

use crate::fault::Fault;
use crate::input::{Input, joined};
use block_outputs::{Counts, Stretch, count_samples};
use kept_samples::Tally;
use labels::{Row, Sample};
use prometheus_block::Counted;
use std::alloc::{AllocError, Global};

/// How many samples are counted together.
const PIECE: usize = 120;

/// Rows in memory.
#[derive(Drop)]
pub(crate) struct Listed {
    pub(crate) rows: Vec<Row>,
}

fn samples_in(alloc: Global, samples: &[Sample], times: Stretch) -> Result<Vec<Sample>, AllocError>
    ensures { IfOk result (λ v. v.items ≡ within times.from times.to samples.now) }
{
    samples
        .iter()
        .copied()
        .filter(|sample| times.has(sample.t()))
        .collect(alloc)
}

// Appends the samples of a row in a range, if there are any.
fn push_row(alloc: Global, rows: &mut Vec<Row>, row: &Row, times: Stretch) -> Result<(), AllocError>
    ensures { OnOk result (rows.new.items
        ≡ rows.old.items ++ row_if row.now.0 (within times.from times.to row.now.1)) }
{
    let samples = samples_in(alloc, row.samples(), times)?;
    if has_none(&samples) {
        return Ok(());
    }
    let labels = row.labels().try_clone()?;
    rows.push(Row::new(labels, samples))?;
    Ok(())
}

fn has_none(samples: &[Sample]) -> bool
    ensures { result ≡ (length samples.now == 0) }
{
    samples.is_empty()
}

// The rows in a range.
fn rows_between(alloc: Global, rows: &[Row], times: Stretch) -> Result<Vec<Row>, AllocError>
    ensures { IfOk result (λ v. v.items ≡ rows_between times.from times.to rows.now) }
{
    let mut found = Vec::new(alloc);
    for row in rows {
        push_row(alloc, &mut found, row, times)?;
    }
    Ok(found)
}

// The rows in a range, each of whose samples is kept.
fn rows_kept(
    alloc: Global,
    all: &[Row],
    times: Stretch,
    tally: &mut Tally,
) -> Result<Vec<Row>, Fault>
    ensures { IfOk result (λ rows.
        IsGivenByRows all.now times rows.items tally.old tally.new) }
{
    let rows = rows_between(alloc, all, times)?;
    tally.kept = tally.kept.saturating_add(count_samples(rows.as_slice()));
    Ok(rows)
}

impl Input for Listed {
    ghost may_give = { λ listed times rows old new.
        IsGivenByRows listed.rows.items times rows old new };

    fn rows_in(&self, alloc: Global, times: Stretch, tally: &mut Tally) -> Result<Vec<Row>, Fault> {
        rows_kept(alloc, self.rows.as_slice(), times, tally)
    }

    fn span(&self, _times: Stretch, before: Option<Stretch>) -> Option<Stretch> {
        let mut span = before;
        for row in self.rows.as_slice() {
            if let (Some(first), Some(last)) = (row.samples().first(), row.samples().last()) {
                let own = Stretch {
                    from: first.t(),
                    to: last.t(),
                };
                span = joined(span, own);
            }
        }
        span
    }

    fn count(&self, _alloc: Global, counts: &mut Counts) -> Result<Counted, Fault> {
        for row in self.rows.as_slice() {
            for piece in row.samples().chunks(PIECE) {
                if let (Some(first), Some(last)) = (piece.first(), piece.last()) {
                    counts.add(first.t(), last.t(), piece.len() as u64);
                }
            }
            counts.end_series();
        }
        counts.end_input();
        Ok(Counted {
            samples: count_samples(self.rows.as_slice()),
            histograms: 0,
        })
    }
}

/// A law: rows in memory give of a range exactly what they hold in it, as a conversion asks of its
/// inputs.
pub fn rows_give_their_content()
    ensures { RowsGiveTheirContent }
{}

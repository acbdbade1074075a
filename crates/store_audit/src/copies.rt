//! Copies of heads and blocks.

ghost use Rattle.std.specs.Prelude.{◌≡◌, IfOk};

use block_walk::Table;
use kept_walk::KeptSeries;
use labels::Row;
use std::alloc::{AllocError, Global};

fn copied_row(alloc: Global, row: &Row) -> Result<Row, AllocError>
    ensures { IfOk result (λ copy. copy ≡ row.now) }
{
    let labels = row.labels().try_clone()?;
    Ok(Row::new(labels, row.samples().to_vec(alloc)?))
}

fn copied_table(alloc: Global, table: &Table) -> Result<Table, AllocError>
    ensures { IfOk result (λ copy. copy ≡ table.now) }
{
    let mut series = Vec::new(alloc);
    for entry in table.series() {
        series.push((entry.0, copied_row(alloc, &entry.1)?))?;
    }
    Ok(Table::of_series(series))
}

pub(crate) fn copied_tables(alloc: Global, tables: &[Table]) -> Result<Vec<Table>, AllocError>
    ensures { IfOk result (λ copies. copies.items ≡ tables.now) }
{
    let mut copies = Vec::new(alloc);
    for table in tables {
        copies.push(copied_table(alloc, table)?)?;
    }
    Ok(copies)
}

fn copied_series(alloc: Global, series: &KeptSeries) -> Result<KeptSeries, AllocError>
    ensures { IfOk result (λ copy. copy ≡ series.now) }
{
    let labels = series.labels().try_clone()?;
    let samples = series.samples().to_vec(alloc)?;
    Ok(KeptSeries::new(labels, series.newest(), samples))
}

pub(crate) fn copied_head(alloc: Global, head: &[KeptSeries]) -> Result<Vec<KeptSeries>, AllocError>
    ensures { IfOk result (λ copies. copies.items ≡ head.now) }
{
    let mut copies = Vec::new(alloc);
    for series in head {
        copies.push(copied_series(alloc, series)?)?;
    }
    Ok(copies)
}

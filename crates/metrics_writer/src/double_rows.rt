//! Rows whose values stand for doubles, as text.

ghost use Rattle.std.specs.Prelude.{◌≡◌, ◌++◌, ◌∷◌, ℕ, List, [], true, false, map, Err, IfOk, OnOk};
ghost use Rattle.std.specs.Prelude.{IsErrOf};
ghost use Rattle.std.specs.BTreeMap as tree;
ghost use Rattle.std.specs.Cmp.Lexicographic.{slice_cmp};
ghost use Rattle.std.specs.List.{list_all};
ghost use Rattle.std.specs.Option.{option_map_or};
ghost use Rattle.std.specs.Ordering.{nat_cmp};
ghost use Rattle.metrics_writer.specs.Doubles.{AreJoined, IsDoubleLine, IsRowOfDoubles};
ghost use Rattle.metrics_writer.specs.Doubles.{IsTextOfDoubles, IsValueText};
ghost use Rattle.metrics_writer.specs.Groups.{grouped, of_metric};
ghost use Rattle.metrics_writer.specs.Series.{is_of_metric, series_text};
ghost use Rattle.metrics_writer.specs.declared.rows.WriteError.TheVariants.{Memory};

use crate::groups::{groups_of, take_group};
use crate::rows::{WriteError, append_field, are_of_metrics};
use crate::series::{metric_of, series_text};
use double_text::append_double;
use labels::{Row, Sample};
use std::alloc::{AllocError, Global};
use std::collections::BTreeMap;
use stored_doubles::restored;

fn append_value(alloc: Global, out: &mut Vec<u8>, v: i64) -> Result<(), AllocError>
    ensures { OnOk result ((text : List ℕ) × (out.new.items ≡ out.old.items ++ text)
        × IsValueText v text) }
{
    append_double(alloc, out, restored(v))
}

fn append_line(
    alloc: Global,
    out: &mut Vec<u8>,
    series: &[u8],
    sample: Sample,
) -> Result<(), AllocError>
    ensures { OnOk result ((line : List ℕ) × (out.new.items ≡ out.old.items ++ line)
        × IsDoubleLine series.now sample line) }
{
    out.extend_from_slice(series)?;
    out.push(b' ')?;
    append_value(alloc, out, sample.v())?;
    append_field(out, 3, sample.t())?;
    out.push(b'\n')?;
    Ok(())
}

fn append_lines(
    alloc: Global,
    out: &mut Vec<u8>,
    series: &[u8],
    samples: &[Sample],
) -> Result<(), AllocError>
    ensures { OnOk result ((text : List ℕ) × (out.new.items ≡ out.old.items ++ text)
        × AreJoined (IsDoubleLine series.now) samples.now text) }
{
    for sample in samples {
        append_line(alloc, out, series, *sample)?;
    }
    Ok(())
}

fn append_row(alloc: Global, out: &mut Vec<u8>, row: &Row) -> Result<(), AllocError>
    ensures { OnOk result ((text : List ℕ) × (out.new.items ≡ out.old.items ++ text)
        × IsRowOfDoubles row.now text) }
{
    let series = series_text(alloc, row.labels())?;
    append_lines(alloc, out, series.as_slice(), row.samples())
}

fn append_rows(alloc: Global, out: &mut Vec<u8>, rows: &[&Row]) -> Result<(), AllocError>
    ensures { OnOk result ((text : List ℕ) × (out.new.items ≡ out.old.items ++ text)
        × AreJoined IsRowOfDoubles (map (λ row. row.now) rows.now) text) }
{
    for row in rows {
        append_row(alloc, out, row)?;
    }
    Ok(())
}

// The rows of each metric where its first row stands.
fn order_of<'a>(
    alloc: Global,
    groups: BTreeMap<&'a str, Vec<&'a Row>>,
    rows: &'a [Row],
) -> Result<Vec<&'a Row>, AllocError>
    requires groups { (metric : List ℕ) →
        option_map_or (λ g. map (λ row. row.now) g.items)
        (tree.get_by (λ k. slice_cmp nat_cmp metric k.now) groups) []
        ≡ of_metric metric rows.now }
    ensures { IfOk result (λ order. map (λ row. row.now) order.items ≡ grouped rows.now) }
{
    let mut groups = groups;
    let mut order = Vec::with_capacity(alloc, rows.len())?;
    for row in rows {
        let group = take_group(alloc, &mut groups, metric_of(row.labels()));
        order.extend_from_slice(group.as_slice())?;
    }
    Ok(order)
}

fn text_of(alloc: Global, rows: &[Row]) -> Result<Vec<u8>, AllocError>
    ensures { IfOk result (λ text. IsTextOfDoubles rows.now text.items) }
{
    let groups = groups_of(alloc, rows)?;
    let order = order_of(alloc, groups, rows)?;
    let mut out = Vec::new(alloc);
    append_rows(alloc, &mut out, order.as_slice())?;
    out.extend_from_slice(b"# EOF\n")?;
    Ok(out)
}

/// The text of rows whose values stand for doubles: each row's samples in their order, with their
/// doubles as Prometheus prints them, and `# EOF`. The rows of a metric stand together, in their
/// order, where its first row stands.
pub fn write_doubles(alloc: Global, rows: &[Row]) -> Result<Vec<u8>, WriteError>
    // What is written is the text of the rows, grouped by metric, each of which names one.
    ensures text { IfOk result (λ text. IsTextOfDoubles rows.now text.items) }
    ensures named { OnOk result (list_all is_of_metric rows.now ≡ true) }
    // Rows are refused exactly where one names no metric.
    ensures refused { list_all is_of_metric rows.now ≡ false → result ≡ Err WriteError.NoMetric }
    ensures only { IsErrOf result WriteError.NoMetric → list_all is_of_metric rows.now ≡ false }
{
    if !are_of_metrics(rows) {
        return Err(WriteError::NoMetric);
    }
    let text = text_of(alloc, rows)?;
    Ok(text)
}

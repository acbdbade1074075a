//! Rows as text.

ghost use Rattle.std.specs.Prelude.{◌≡◌, ◌≤◌, ◌∷◌, ◌++◌, ℕ, List, [], true, false, map, Err, IfOk};
ghost use Rattle.std.specs.Prelude.{OnOk, IsErrOf};
ghost use Rattle.std.specs.BTreeMap as tree;
ghost use Rattle.std.specs.Cmp.Lexicographic.{slice_cmp};
ghost use Rattle.std.specs.List.{flat_map, list_all};
ghost use Rattle.std.specs.Option.{option_map_or};
ghost use Rattle.std.specs.Ordering.{nat_cmp};
ghost use Rattle.metrics_writer.specs.Groups.{grouped, of_metric};
ghost use Rattle.metrics_writer.specs.Numbers.{number_text};
ghost use Rattle.metrics_writer.specs.Series.{fields_text, is_of_metric, line_text, row_text};
ghost use Rattle.metrics_writer.specs.Series.{rows_text};
ghost use Rattle.metrics_writer.specs.Texts.{text_of};
ghost use Rattle.metrics_writer.specs.declared.rows.WriteError.TheVariants.{Memory};

use crate::groups::{groups_of, names_ascend, take_group};
use crate::numbers::append_number;
use crate::series::{metric_of, names_metric, series_text};
use labels::{Row, Sample};
use std::alloc::{AllocError, AllocFailed, Global};
use std::collections::BTreeMap;

/// Why rows are not written.
#[derive(Clone, Copy, Debug, PartialEq, Eq, Drop)]
pub enum WriteError {
    /// No memory is left.
    Memory,
    /// A label set has no `__name__` that names a metric: `[a-zA-Z_:][a-zA-Z0-9_:]*`.
    NoMetric,
}

impl From<AllocError> for WriteError {
    ghost from_gives = { λ _ e. e ≡ Memory };

    fn from(_error: AllocError) -> WriteError {
        WriteError::Memory
    }
}

impl<T: Drop> From<AllocFailed<T>> for WriteError {
    ghost from_gives = { λ _ e. e ≡ Memory };

    fn from(_error: AllocFailed<T>) -> WriteError {
        WriteError::Memory
    }
}

/// Appends a space and a number.
pub fn append_field(out: &mut Vec<u8>, places: u32, n: i64) -> Result<(), AllocError>
    requires { places ≤ 9 }
    ensures { OnOk result (out.new.items ≡ out.old.items ++ (32 ∷ number_text places n)) }
{
    out.push(b' ')?;
    append_number(out, places, n)
}

#[tactic(auto, unfolding(crate::specs::Series::fields_text))]
fn append_fields(out: &mut Vec<u8>, places: u32, sample: Sample) -> Result<(), AllocError>
    requires { places ≤ 9 }
    ensures { OnOk result (out.new.items ≡ out.old.items ++ fields_text places sample) }
{
    append_field(out, places, sample.v())?;
    append_field(out, 3, sample.t())
}

#[tactic(auto, unfolding(crate::specs::Series::line_text))]
fn append_line(
    out: &mut Vec<u8>,
    places: u32,
    series: &[u8],
    sample: Sample,
) -> Result<(), AllocError>
    requires { places ≤ 9 }
    ensures { OnOk result (out.new.items ≡ out.old.items ++ line_text places series.now sample) }
{
    out.extend_from_slice(series)?;
    append_fields(out, places, sample)?;
    out.push(b'\n')?;
    Ok(())
}

fn append_lines(
    out: &mut Vec<u8>,
    places: u32,
    series: &[u8],
    samples: &[Sample],
) -> Result<(), AllocError>
    requires { places ≤ 9 }
    ensures { OnOk result (out.new.items
        ≡ out.old.items ++ flat_map (line_text places series.now) samples.now) }
{
    for sample in samples {
        append_line(out, places, series, *sample)?;
    }
    Ok(())
}

#[tactic(auto, unfolding(crate::specs::Series::row_text))]
fn append_row(alloc: Global, out: &mut Vec<u8>, places: u32, row: &Row) -> Result<(), AllocError>
    requires { places ≤ 9 }
    ensures { OnOk result (out.new.items ≡ out.old.items ++ row_text places row.now) }
{
    let series = series_text(alloc, row.labels())?;
    append_lines(out, places, series.as_slice(), row.samples())
}

#[tactic(auto, unfolding(crate::specs::Series::rows_text))]
fn append_rows(
    alloc: Global,
    out: &mut Vec<u8>,
    places: u32,
    rows: &[Row],
) -> Result<(), AllocError>
    requires { places ≤ 9 }
    ensures { OnOk result (out.new.items ≡ out.old.items ++ rows_text places rows.now) }
{
    for row in rows {
        append_row(alloc, out, places, row)?;
    }
    Ok(())
}

// The same of rows that are borrowed one by one.
#[tactic(auto, unfolding(crate::specs::Series::rows_text))]
fn append_group(
    alloc: Global,
    out: &mut Vec<u8>,
    places: u32,
    group: &[&Row],
) -> Result<(), AllocError>
    requires { places ≤ 9 }
    ensures { OnOk result
        (out.new.items ≡ out.old.items ++ rows_text places (map (λ row. row.now) group.now)) }
{
    for row in group {
        append_row(alloc, out, places, row)?;
    }
    Ok(())
}

// Appends the rows of each metric where its first row stands.
fn append_groups<'a>(
    alloc: Global,
    out: &mut Vec<u8>,
    places: u32,
    groups: BTreeMap<&'a str, Vec<&'a Row>>,
    rows: &'a [Row],
) -> Result<(), AllocError>
    requires few { places ≤ 9 }
    requires groups { (metric : List ℕ) →
        option_map_or (λ g. map (λ row. row.now) g.items)
        (tree.get_by (λ k. slice_cmp nat_cmp metric k.now) groups) []
        ≡ of_metric metric rows.now }
    ensures { OnOk result (out.new.items ≡ out.old.items ++ rows_text places (grouped rows.now)) }
{
    let mut groups = groups;
    for row in rows {
        let group = take_group(alloc, &mut groups, metric_of(row.labels()));
        append_group(alloc, out, places, group.as_slice())?;
    }
    Ok(())
}

// Appends rows, those of each metric together.
fn append_grouped(
    alloc: Global,
    out: &mut Vec<u8>,
    places: u32,
    rows: &[Row],
) -> Result<(), AllocError>
    requires { places ≤ 9 }
    ensures { OnOk result (out.new.items ≡ out.old.items ++ rows_text places (grouped rows.now)) }
{
    if names_ascend(rows) {
        return append_rows(alloc, out, places, rows);
    }
    let groups = groups_of(alloc, rows)?;
    append_groups(alloc, out, places, groups, rows)
}

/// Whether each row names a metric.
pub fn are_of_metrics(rows: &[Row]) -> bool
    ensures { result ≡ list_all is_of_metric rows.now }
{
    rows.iter().all(|row| names_metric(row.labels()))
}

/// The text of rows, whose values are counted in parts of which 10^places make one: each row's
/// samples in their order, and `# EOF`. The rows of a metric stand together, in their order, where
/// its first row stands.
///
/// It takes time and memory in proportion to the text. If the names of metrics go back somewhere,
/// each row takes time for a look-up of its name as well, and memory for its place.
pub fn write_text(alloc: Global, rows: &[Row], places: u32) -> Result<Vec<u8>, WriteError>
    requires { places ≤ 9 }
    // What is written is the text of the rows, grouped by metric, each of which names one.
    ensures text { IfOk result (λ text. text.items ≡ text_of places rows.now) }
    ensures named { OnOk result (list_all is_of_metric rows.now ≡ true) }
    // Rows are refused exactly where one names no metric.
    ensures refused { list_all is_of_metric rows.now ≡ false → result ≡ Err WriteError.NoMetric }
    ensures only { IsErrOf result WriteError.NoMetric → list_all is_of_metric rows.now ≡ false }
{
    if !are_of_metrics(rows) {
        return Err(WriteError::NoMetric);
    }
    let mut out = Vec::new(alloc);
    append_grouped(alloc, &mut out, places, rows)?;
    out.extend_from_slice(b"# EOF\n")?;
    Ok(out)
}

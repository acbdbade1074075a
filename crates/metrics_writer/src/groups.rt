//! Rows by their metrics.

ghost use Rattle.std.specs.Prelude.{◌≡◌, ℕ, List, [], map, bytes_eq, IfOk, if◌then◌else◌};
ghost use Rattle.std.specs.Bool.{OnTrue};
ghost use Rattle.std.specs.BTreeMap as tree;
ghost use Rattle.std.specs.Cmp.Lexicographic.{slice_cmp};
ghost use Rattle.std.specs.Option.{option_map_or};
ghost use Rattle.std.specs.Ordering.{is_lt, nat_cmp};
ghost use Rattle.labels.specs.Labels.{text_cmp};
ghost use Rattle.metrics_writer.specs.Groups.{grouped, of_metric};

use crate::series::metric_of;
use labels::Row;
use std::alloc::{AllocError, Global};
use std::collections::BTreeMap;

fn is_before(a: &[u8], b: &[u8]) -> bool
    ensures { result ≡ is_lt (text_cmp a.now b.now) }
{
    a.cmp(b).is_lt()
}

/// Whether the names of metrics do not go back, so that the rows of each metric stand together.
pub fn names_ascend(rows: &[Row]) -> bool
    ensures { OnTrue result (grouped rows.now ≡ rows.now) }
{
    let mut last = "".as_bytes();
    for row in rows {
        let name = metric_of(row.labels()).as_bytes();
        if is_before(name, last) {
            return false;
        }
        last = name;
    }
    true
}

/// The rows of each metric, in their order.
pub fn groups_of<'a>(
    alloc: Global,
    rows: &'a [Row],
) -> Result<BTreeMap<&'a str, Vec<&'a Row>>, AllocError>
    ensures { IfOk result (λ groups. (metric : List ℕ) →
        option_map_or (λ g. map (λ row. row.now) g.items)
        (tree.get_by (λ k. slice_cmp nat_cmp metric k.now) groups) []
        ≡ of_metric metric rows.now) }
{
    let mut groups: BTreeMap<&str, Vec<&Row>> = BTreeMap::new(alloc);
    for row in rows {
        groups
            .entry(metric_of(row.labels()))?
            .or_default()
            .push(row)?;
    }
    Ok(groups)
}

/// Takes the rows of a metric out of those of each.
pub fn take_group<'a>(
    alloc: Global,
    groups: &mut BTreeMap<&'a str, Vec<&'a Row>>,
    metric: &str,
) -> Vec<&'a Row>
    ensures taken { map (λ row. row.now) result.items
        ≡ option_map_or (λ g. map (λ row. row.now) g.items)
        (tree.get_by (λ k. slice_cmp nat_cmp metric.now k.now) groups.old) [] }
    ensures left { (q : List ℕ) →
        option_map_or (λ g. map (λ row. row.now) g.items)
        (tree.get_by (λ k. slice_cmp nat_cmp q k.now) groups.new) []
        ≡ (if bytes_eq q metric.now then []
        else option_map_or (λ g. map (λ row. row.now) g.items)
        (tree.get_by (λ k. slice_cmp nat_cmp q k.now) groups.old) []) }
{
    match groups.remove(metric) {
        Some(group) => group,
        None => Vec::new(alloc),
    }
}

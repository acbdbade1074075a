//! What matchers and rows say of a label set.

ghost use Rattle.std.specs.Prelude.{◌≡◌, ◌<◌, ◌↔◌, ℕ, length, slice_get, Some, IsTrue};
ghost use Rattle.std.specs.Prelude.{IfOk, IfSome, IfNone};
ghost use Rattle.labels.specs.Rows.{Row as RowValue};
ghost use Rattle.matchers.specs.Satisfies.{satisfies};
ghost use Rattle.page_claims.specs.Asking.{rejecting_from};

use labels::{LabelSet, Row};
use matchers::Matcher;
use std::alloc::{AllocError, Global};

/// Whether a matcher accepts what its name has in a label set.
fn accepts(alloc: Global, matcher: &Matcher, labels: &LabelSet) -> Result<bool, AllocError>
    ensures { IfOk result (λ yes. yes ≡ satisfies matcher.now labels.now) }
{
    matcher.accepts(alloc, labels.value(matcher.name()))
}

/// The places, from 0, of the matchers that do not accept a label set, in their order.
pub fn rejecting(
    alloc: Global,
    matchers: &[Matcher],
    labels: &LabelSet,
) -> Result<Vec<usize>, AllocError>
    ensures { IfOk result (λ places. places.items ≡ rejecting_from 0 matchers.now labels.now) }
{
    let mut places = Vec::new(alloc);
    for at in 0..matchers.len() {
        if !accepts(alloc, &matchers[at], labels)? {
            places.push(at)?;
        }
    }
    Ok(places)
}

fn same(a: &LabelSet, b: &LabelSet) -> bool
    ensures { IsTrue result ↔ (a.now ≡ b.now) }
{
    a == b
}

fn has(row: &Row, labels: &LabelSet) -> bool
    ensures { IsTrue result ↔ (row.now.0 ≡ labels.now) }
{
    same(row.labels(), labels)
}

/// The place, from 0, of the first row with a label set, or `None` if no row has it.
pub fn row_with(rows: &[Row], labels: &LabelSet) -> Option<usize>
    ensures found { IfSome result (λ at. (at < length rows.now)
        × ((row : RowValue) → slice_get rows.now at ≡ Some row → row.0 ≡ labels.now)) }
    ensures first { IfSome result (λ at. (i : ℕ) (row : RowValue) → i < at
        → slice_get rows.now i ≡ Some row → row.0 ≡ labels.now → ⊥) }
    ensures none { IfNone result ((at : ℕ) (row : RowValue) → slice_get rows.now at ≡ Some row
        → row.0 ≡ labels.now → ⊥) }
{
    for at in 0..rows.len() {
        if has(&rows[at], labels) {
            return Some(at);
        }
    }
    None
}

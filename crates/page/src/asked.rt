//! What is said of a label set that somebody asks about.

ghost use Rattle.std.specs.Prelude.{IfOk};
ghost use Rattle.page.specs.Asking.{IsSaid};

use labels::{LabelSet, Row};
use matchers::Matcher;
use page_claims::{rejecting, row_with};
use std::alloc::{AllocError, Global};

/// What is said of a label set that somebody asks about.
#[derive(Debug, Drop)]
pub enum Asked {
    /// The row at this place, from 0, has it.
    Row(usize),
    /// No row has it, and the matchers at these places, from 0, do not accept it.
    Rejected(Vec<usize>),
    /// No row has it, and every matcher accepts it.
    Accepted,
}

/// What rows and matchers say of a label set: that a row has it, or which matchers do not accept
/// it, or that all do. It takes memory for the places of the matchers.
pub fn ask(
    alloc: Global,
    matchers: &[Matcher],
    rows: &[Row],
    labels: &LabelSet,
) -> Result<Asked, AllocError>
    ensures { IfOk result (λ asked. IsSaid matchers.now rows.now labels.now asked) }
{
    if let Some(at) = row_with(rows, labels) {
        return Ok(Asked::Row(at));
    }
    let places = rejecting(alloc, matchers, labels)?;
    if places.is_empty() {
        return Ok(Asked::Accepted);
    }
    Ok(Asked::Rejected(places))
}

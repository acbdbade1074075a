//! Whether a part has all that an answer shows.

ghost use Rattle.std.specs.Prelude.{◌≡◌, ◌↔◌, ◌≤◌, IsTrue, IfOk, List, length};
ghost use Rattle.std.specs.List.Sorted.{IsStrictlyIncreasing};
ghost use Rattle.labels.specs.Rows.{points_of};
ghost use Rattle.labels.specs.Parts.{Part, IsPart, references};
ghost use Rattle.matchers.specs.Views.{QueryView};
ghost use Rattle.cover.specs.Asking.{asked};
ghost use Rattle.cover.specs.Certificates.{AreSeparators, begins_of};
ghost use Rattle.cover.specs.declared.part_cover.PartAnswer.{PartAnswer as Answer};
ghost use Rattle.auditor.specs.Auditing.{IsSoundAnswer};
ghost use Rattle.whole_audit.specs.Counting.{asked_points};
ghost use Rattle.whole_audit.specs.Growing.{GrowsTo};
ghost use Rattle.whole_audit.specs.Showing.{AreReferences, HasAllShown};

use crate::looks::Looks;
use crate::references::{are_picked, first_shared};
use auditor::Table;
use cover::{Interval, PartAnswer};
use labels::{Row, SeriesRef};
use matchers::Query;
use std::alloc::{AllocError, Global};

/// The numbers with which the intervals begin.
fn begins_of(alloc: Global, certificate: &[Interval]) -> Result<Vec<SeriesRef>, AllocError>
    ensures { IfOk result (λ begins. begins.items ≡ begins_of certificate.now) }
{
    let mut begins = Vec::with_capacity(alloc, certificate.len())?;
    for interval in certificate {
        begins.push(interval.from)?;
    }
    Ok(begins)
}

/// Whether numbers are strictly ascending references of the series.
fn are_references(series: &[(SeriesRef, Row)], numbers: &[SeriesRef]) -> bool
    requires { IsStrictlyIncreasing (references series.now) }
    ensures { IsTrue result ↔ AreReferences series.now numbers.now }
{
    are_picked(series, numbers)
}

/// Whether numbers are strictly ascending references of the series, of which no two lie in one
/// fitting run.
fn are_separators(looks: &mut Looks<'_>, series: &[(SeriesRef, Row)], numbers: &[SeriesRef]) -> bool
    requires { IsStrictlyIncreasing (references series.now) }
    ensures separated { IsTrue result ↔ AreSeparators (asked series.now looks.old) numbers.now }
    ensures same { looks.new ≡ looks.old }
{
    are_picked(series, numbers) && first_shared(looks, series, numbers).is_none()
}

/// How many samples of the series the query asks for.
fn count_asked(looks: &mut Looks<'_>, series: &[(SeriesRef, Row)]) -> u128
    ensures counted { result ≡ length (asked_points looks.old series.now) }
    ensures same { looks.new ≡ looks.old }
{
    let mut count = 0;
    for entry in series {
        if looks.satisfies_all(entry.1.labels()) {
            count += looks.count_in_range(&entry.1) as u128;
        }
    }
    count
}

/// How many samples rows list.
fn count_listed(rows: &[Row]) -> u128
    ensures { result ≡ length (points_of rows.now) }
{
    let mut count = 0;
    for row in rows {
        count += row.samples().len() as u128;
    }
    count
}

/// Whether a part has all that an answer shows: the intervals begin with references of it, one
/// after another; the separators are strictly ascending references of it, no two in one fitting
/// run; and the query selects no fewer samples of it than the rows list.
///
/// The laws of [`showing_laws`] say what that is good for. By design, and stated by no clause: with
/// n series, m matchers and k separators it makes at most (m + 1)(2n + k) looks, as `auditor`
/// counts them. It takes memory for the searches of patterns, and for a number for each interval.
pub fn has_all_shown(
    alloc: Global,
    table: &Table,
    query: &Query,
    answer: &PartAnswer,
) -> Result<bool, AllocError>
    ensures { IfOk result (λ b. IsTrue b ↔ HasAllShown table.now query.now answer.now) }
{
    let series = table.series();
    let begins = begins_of(alloc, answer.cover.certificate.as_slice())?;
    if !are_references(series, begins.as_slice()) {
        return Ok(false);
    }
    let mut looks = Looks::new(alloc, query)?;
    if !are_separators(&mut looks, series, answer.cover.separators.as_slice()) {
        return Ok(false);
    }
    Ok(count_listed(answer.rows.as_slice()) <= count_asked(&mut looks, series))
}

/// The laws of what answers show, of a part that grows: what a part has, it has later; a part of
/// which an answer is sound has all that it shows; and an answer that is sound of a later part is
/// sound of an earlier one, if that has all that the answer shows. So of the parts that a part
/// grows through, the first that has all decides: if the answer is sound of any, it is sound of
/// that one.
pub fn showing_laws()
    ensures later { (earlier later : Part) (query : QueryView) (answer : Answer) → IsPart earlier
        → IsPart later → GrowsTo earlier later → HasAllShown earlier query answer
        → HasAllShown later query answer }
    ensures shown { (part : Part) (query : QueryView) (answer : Answer)
        → IsSoundAnswer part query answer → HasAllShown part query answer }
    ensures first { (earlier later : Part) (query : QueryView) (answer : Answer) → IsPart earlier
        → IsPart later → GrowsTo earlier later → HasAllShown earlier query answer
        → IsSoundAnswer later query answer → IsSoundAnswer earlier query answer }
{}

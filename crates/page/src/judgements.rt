//! What the auditor said of a part, and which series it knows.

ghost use Rattle.std.specs.Prelude.{◌≡◌};
ghost use Rattle.page.specs.Pages.{state_of};
ghost use Rattle.page.specs.Places.{finding_in, finding_by, finding_at};

use crate::pen::Pen;
use crate::said::{grade_at, is_of, judgement_at};
use crate::shown::View;
use crate::verdicts::series;
use crate::words::plural;
use auditor::{BlockTable, Judgement, Line, Table};
use cover::Interval;
use labels::{Row, SeriesRef};
use page_claims::shown_of;
use page_text::Tag;
use postings::PartName;
use state_claims::grade_of;
use whole_audit::Grade;

/// What a judge found of a searched part.
#[derive(Clone, Copy, Drop)]
pub(crate) enum Finding {
    Valid,
    /// It is right under other numbers than its block's files have: nothing is missing.
    NumberedOtherwise,
    Flawed,
}

impl Finding {
    /// Whether the answer is right of the part.
    pub(crate) fn is_valid(self) -> bool {
        match self {
            Finding::Valid | Finding::NumberedOtherwise => true,
            Finding::Flawed => false,
        }
    }
}

/// What the auditor found: a part that it passed over was not judged.
fn finding_in(judgement: Judgement) -> Option<Finding>
    ensures { result ≡ finding_in judgement }
{
    match judgement {
        Judgement::Valid => Some(Finding::Valid),
        Judgement::Skipped => None,
        Judgement::Flawed(_) | Judgement::Refused(_) => Some(Finding::Flawed),
    }
}

fn finding_by(grade: Grade) -> Option<Finding>
    ensures { result ≡ finding_by grade }
{
    match grade {
        Grade::Valid => Some(Finding::Valid),
        Grade::NumberedOtherwise => Some(Finding::NumberedOtherwise),
        Grade::Skipped => None,
        Grade::Flawed(_) | Grade::Misnamed => Some(Finding::Flawed),
    }
}

/// What a judge found of the part at a place of the reply, if one judged it: a part that it passed
/// over was not judged. Of two parts of one name each has what was found of itself.
pub(crate) fn finding_of(view: &View<'_>, at: usize, name: PartName) -> Option<Finding>
    ensures { let shown = view.now.shown.now in
        result ≡ finding_at (state_of shown) shown.lines.now at name }
{
    match view.shown.state {
        Some(state) => finding_by(grade_at(state.lines, at, name)?),
        None => finding_in(judgement_at(view.shown.lines, at, name)?),
    }
}

/// Whether the auditor judged a part of this name.
fn has_judgement(lines: &[Line], name: PartName) -> bool {
    for line in lines {
        if is_of(name, line.subject) && finding_in(line.judgement).is_some() {
            return true;
        }
    }
    false
}

/// Whether a judge judged a part of this name, at whatever place.
pub(crate) fn is_judged(view: &View<'_>, name: PartName) -> bool {
    let Some(state) = view.shown.state else {
        return has_judgement(view.shown.lines, name);
    };
    match grade_of(state.lines, name) {
        Some(grade) => finding_by(grade).is_some(),
        None => false,
    }
}

/// The block of a part, if the auditor knows its series.
pub(crate) fn table_of<'a>(tables: &'a [BlockTable], name: PartName) -> Option<&'a Table> {
    let PartName::Block(number) = name else {
        return None;
    };
    match tables.get(number)? {
        BlockTable::Walked(table) => Some(table),
        BlockTable::Refused(_) => None,
    }
}

const OTHERWISE: &str =
    "The auditor judged this part for what is missing, and not for how few its intervals are: its \
     series had other numbers than the block's files have.";

/// The judgement of a searched part, by what was found of it.
pub(crate) fn judgement(pen: &mut Pen, view: &View<'_>, finding: Option<Finding>) {
    if !view.is_audited() {
        return;
    }
    pen.begin(Tag::P, "note");
    pen.word(match finding {
        None => "The auditor did not judge this part: it was given no block for it.",
        Some(Finding::Valid) => "The auditor judged this part: it is valid.",
        Some(Finding::NumberedOtherwise) => OTHERWISE,
        Some(Finding::Flawed) => "The auditor names a flaw of this part: see above.",
    });
    pen.close();
    pen.line();
}

/// Most series of an interval that are named.
const MOST_SERIES: usize = 3;

/// The series of a table whose references lie in an interval.
fn series_in<'a>(table: &'a Table, interval: &Interval) -> &'a [(SeriesRef, Row)] {
    let all = table.series();
    let from = interval.from.number();
    let start = all.partition_point(|one| one.0.number() < from);
    let later = &all[start..];
    let end = later.partition_point(|one| u64::from(one.0.number()) < interval.until);
    &later[..end]
}

/// The first series of an interval, by the auditor's table of the block.
pub(crate) fn first_series(pen: &mut Pen, table: &Table, interval: &Interval) {
    let (shown, rest) = shown_of(series_in(table, interval), MOST_SERIES);
    let mut first = true;
    for one in shown {
        pen.word(if first { ": " } else { ", " });
        first = false;
        series(pen, one.1.labels());
    }
    if !rest.is_empty() {
        pen.word(" and ");
        plural(pen, rest.len() as u64, " more", " more");
    }
}

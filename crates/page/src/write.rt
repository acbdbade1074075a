//! Pages.

ghost use Rattle.std.specs.Prelude.{◌≡◌, ◌≤◌, ◌++◌, length, IfOk, OnOk};
ghost use Rattle.page_pins.specs.Boxes.{HasNoBox};
ghost use Rattle.page_pins.specs.Selectors.{ShowsFirst};
ghost use Rattle.page_text.specs.Marks.{marks_in, values_in};
ghost use Rattle.page_text.specs.Nesting.{IsContent};
ghost use Rattle.page_text.specs.Plain.{plain_text};
ghost use Rattle.page.specs.Pages.{IsBlocksClaim, IsStoreClaim, IsClaimOf, IsSaidOf};
ghost use Rattle.page.specs.Pages.{IsPageOf, IsTextOf};
ghost use Rattle.page.specs.Pages.{page_front, page_top, page_rest, page_end, page_bytes};
ghost use Rattle.page.specs.Pages.{wanted_marks, wanted_counts, AreShownValues};
ghost use Rattle.page.specs.Pages.{state_of};
ghost use Rattle.page.specs.Saying.{plain_claim, plain_state};

use crate::asked::{Asked, ask};
use crate::claim_text::{
    append_claim, append_claim_end, append_plain_claim, append_plain_state, append_state,
};
use crate::header::{self, details, heading, summary};
use crate::help::help;
use crate::key::key;
use crate::parts::certificates;
use crate::pen::Pen;
use crate::rows::rows;
use crate::shown::{Shown, View, axis_of, samples_in};
use crate::terminal::{self, question, terminal};
use crate::time::time;
use page_claims::{Claim, Completeness, find_claim};
use page_marks::{FEW_PARTS, MOST_ROWS, page_marks, row_values, text_marks};
use page_pins::{append_reply, check_boxes, check_selector};
use page_style::{append_back, append_front};
use page_text::{
    Mark, Piece, Tag, Value, marks_of, print, print_plain, same_marks, same_values, values_of,
};
use state_claims::{StateSaid, find_state_claim};
use std::alloc::{AllocError, Global};

/// What is claimed by what the auditor said of blocks in directories.
fn blocks_claim(alloc: Global, shown: &Shown<'_>) -> Result<Claim, AllocError>
    ensures { IfOk result (λ claim. IsBlocksClaim shown.now claim) }
{
    let matchers = shown.query.matchers().len();
    let claim = find_claim(alloc, matchers, shown.told, shown.tables, shown.lines)?;
    Ok(claim)
}

/// What is claimed by what a judge said over a store.
fn store_claim(alloc: Global, shown: &Shown<'_>, said: &StateSaid<'_>) -> Result<Claim, AllocError>
    ensures { IfOk result (λ claim. IsStoreClaim shown.now said.now claim) }
{
    let matchers = shown.query.matchers().len();
    let claim = find_state_claim(alloc, matchers, shown.told, said)?;
    Ok(claim)
}

/// What is claimed of what is shown.
fn claim_of(alloc: Global, shown: &Shown<'_>) -> Result<Claim, AllocError>
    ensures { IfOk result (λ claim. IsClaimOf shown.now claim) }
{
    match shown.state {
        None => blocks_claim(alloc, shown),
        Some(said) => store_claim(alloc, shown, said),
    }
}

/// What all sections need.
fn view_of<'a>(alloc: Global, shown: &'a Shown<'a>) -> Result<View<'a>, AllocError>
    ensures { IfOk result (λ view. IsClaimOf shown.now view.claim) }
{
    let claim = claim_of(alloc, shown)?;
    let mut intervals = 0u64;
    for answer in shown.told.answers.as_slice() {
        intervals = intervals.saturating_add(answer.cover.certificate.len() as u64);
    }
    Ok(View {
        alloc,
        shown,
        claim,
        intervals,
        samples: samples_in(shown.told.rows.as_slice()),
        few: shown.told.answers.len() <= FEW_PARTS,
        axis: axis_of(shown.query, shown.told),
    })
}

/// What is said of the label set that somebody asks about.
fn asked_of(alloc: Global, shown: &Shown<'_>) -> Result<Option<Asked>, AllocError>
    ensures { IfOk result (λ asked. IsSaidOf shown.now asked) }
{
    let Some(labels) = shown.about else {
        return Ok(None);
    };
    let rows = shown.told.rows.as_slice();
    let asked = ask(alloc, shown.query.matchers(), rows, labels)?;
    Ok(Some(asked))
}

/// What stands above the claim.
fn heading_of(alloc: Global, view: &View<'_>, selector: &str) -> Result<Vec<Piece>, AllocError>
    ensures content { IfOk result (λ pieces. IsContent pieces.items) }
    ensures boxes { IfOk result (λ pieces. HasNoBox pieces.items) }
    ensures selector { IfOk result (λ pieces. ShowsFirst 4096 selector.now pieces.items) }
{
    let mut pen = Pen::new(alloc);
    heading(&mut pen, view);
    let pieces = pen.finish()?;
    check_boxes(pieces.as_slice())?;
    check_selector(alloc, pieces.as_slice(), selector, header::MOST_SHOWN)?;
    Ok(pieces)
}

/// What stands with the claim.
fn details_of(alloc: Global, view: &View<'_>) -> Result<Vec<Piece>, AllocError>
    ensures content { IfOk result (λ pieces. IsContent pieces.items) }
    ensures boxes { IfOk result (λ pieces. HasNoBox pieces.items) }
{
    let mut pen = Pen::new(alloc);
    details(&mut pen, view);
    let pieces = pen.finish()?;
    check_boxes(pieces.as_slice())?;
    Ok(pieces)
}

/// What stands below the claim.
fn sections_of(
    alloc: Global,
    view: &View<'_>,
    asked: Option<&Asked>,
) -> Result<Vec<Piece>, AllocError>
    ensures content { IfOk result (λ pieces. IsContent pieces.items) }
    ensures boxes { IfOk result (λ pieces. HasNoBox pieces.items) }
{
    let mut pen = Pen::new(alloc);
    summary(&mut pen, view, asked);
    pen.open(Tag::Main);
    pen.line();
    key(&mut pen, view);
    certificates(&mut pen, view);
    time(&mut pen, view);
    rows(&mut pen, view);
    help(&mut pen, view);
    let pieces = pen.finish()?;
    check_boxes(pieces.as_slice())?;
    Ok(pieces)
}

/// The counts and the tiles that what is shown has below the claim.
fn wanted_marks(alloc: Global, shown: &Shown<'_>) -> Result<Vec<Mark>, AllocError>
    ensures { IfOk result (λ marks. marks.items ≡ wanted_marks shown.now) }
{
    let matchers = shown.query.matchers().len();
    let (answers, rows) = (shown.told.answers.as_slice(), shown.told.rows.as_slice());
    page_marks(alloc, matchers, answers, rows)
}

/// The counts that what is shown has in a text.
fn wanted_counts(alloc: Global, shown: &Shown<'_>) -> Result<Vec<Mark>, AllocError>
    ensures { IfOk result (λ marks. marks.items ≡ wanted_counts shown.now) }
{
    let matchers = shown.query.matchers().len();
    text_marks(alloc, matchers, shown.told.answers.as_slice())
}

/// The values that what is shown has below the claim, by what they mean.
fn wanted_values(alloc: Global, shown: &Shown<'_>) -> Result<Vec<Value>, AllocError>
    ensures { IfOk result (λ values. AreShownValues shown.now values.items) }
{
    let rows = shown.told.rows.as_slice();
    let most = MOST_ROWS.min(rows.len());
    row_values(alloc, shown.values, &rows[..most])
}

/// Whether pieces have these values: others are refused as if there were no memory for them.
fn check_values(alloc: Global, pieces: &[Piece], wanted: &[Value]) -> Result<(), AllocError>
    ensures { IfOk result (λ _. values_in pieces.now ≡ wanted.now) }
{
    let drawn = values_of(alloc, pieces)?;
    if same_values(drawn.as_slice(), wanted) {
        Ok(())
    } else {
        Err(AllocError)
    }
}

/// Whether pieces have these marks: others are refused as if there were no memory for them.
fn check_marks(alloc: Global, pieces: &[Piece], wanted: &[Mark]) -> Result<(), AllocError>
    ensures { IfOk result (λ _. marks_in pieces.now ≡ wanted.now) }
{
    let drawn = marks_of(alloc, pieces)?;
    if same_marks(drawn.as_slice(), wanted) {
        Ok(())
    } else {
        Err(AllocError)
    }
}

/// Most bytes of a page: what would make it more is refused as if there were no memory for it.
pub const MOST_BYTES: usize = 268_435_456;

/// A page: what it claims; what it says of the label set that somebody asks about; and its bytes.
/// Above the claim, with it and below it stand pieces that are trees, in which texts from outside
/// are texts alone; a text for a terminal has the selector for a heading, below the claim.
#[derive(Drop)]
pub struct Page {
    pub heading: Vec<Piece>,
    pub claim: Claim,
    pub details: Vec<Piece>,
    pub asked: Option<Asked>,
    pub sections: Vec<Piece>,
    pub bytes: Vec<u8>,
}

/// Appends what begins each page.
#[tactic(auto, unfolding(crate::specs::Pages::page_front))]
fn append_page_front(out: &mut Vec<u8>) -> Result<(), AllocError>
    ensures { OnOk result (out.new.items ≡ out.old.items ++ page_front) }
{
    append_front(out)
}

/// Appends what begins each page, the heading and the claim.
#[tactic(auto, unfolding(crate::specs::Pages::page_top))]
fn append_top(
    alloc: Global,
    out: &mut Vec<u8>,
    shown: &Shown<'_>,
    claim: &Claim,
    heading: &[Piece],
) -> Result<(), AllocError>
    ensures { OnOk result (out.new.items
        ≡ out.old.items ++ page_top shown.now claim.now heading.now) }
{
    append_page_front(out)?;
    print(out, heading)?;
    append_claim(alloc, out, claim.completeness, claim.unjudged.as_slice())?;
    append_state(alloc, out, shown.state)
}

/// Appends what stands with the claim and below it.
#[tactic(auto, unfolding(crate::specs::Pages::page_rest))]
fn append_rest(out: &mut Vec<u8>, details: &[Piece], sections: &[Piece]) -> Result<(), AllocError>
    ensures { OnOk result (out.new.items ≡ out.old.items ++ page_rest details.now sections.now) }
{
    print(out, details)?;
    append_claim_end(out)?;
    print(out, sections)
}

/// Appends which reply is shown, and what ends each page.
#[tactic(auto, unfolding(crate::specs::Pages::page_end))]
fn append_end(alloc: Global, out: &mut Vec<u8>, shown: &Shown<'_>) -> Result<(), AllocError>
    ensures { OnOk result (out.new.items ≡ out.old.items ++ page_end shown.now) }
{
    append_reply(alloc, out, shown.length, shown.digest)?;
    append_back(out)
}

/// The print of a page.
#[tactic(auto, unfolding(crate::specs::Pages::page_bytes))]
fn bytes_of(
    alloc: Global,
    shown: &Shown<'_>,
    claim: &Claim,
    heading: &[Piece],
    details: &[Piece],
    sections: &[Piece],
) -> Result<Vec<u8>, AllocError>
    ensures text { IfOk result (λ bytes. bytes.items
        ≡ page_bytes shown.now claim.now heading.now details.now sections.now) }
    ensures few { IfOk result (λ bytes. length bytes.items ≤ 268435456) }
{
    let mut bytes = Vec::new(alloc);
    append_top(alloc, &mut bytes, shown, claim, heading)?;
    append_rest(&mut bytes, details, sections)?;
    append_end(alloc, &mut bytes, shown)?;
    if bytes.len() > MOST_BYTES {
        return Err(AllocError);
    }
    Ok(bytes)
}

/// A page: one file of HTML without a script, that fetches nothing. The same bytes for the same
/// question, reply, tables and lines.
///
/// It claims that no series is missing exactly if each part passes the checks that need no series,
/// the rows are the merged rows of the parts, and no line of the auditor names a flaw. The box of
/// the claim is green only if a judge found no flaw in each part, or in each but a head that is
/// told to have no series, which the box then says. Else it is plain, and names the parts that
/// nobody judged. No other box is of its class. Above it stands the selector. Below it the marks,
/// the counts and tiles that the page tells of, are exactly those of the reply (`page_marks`), and
/// so are the first, last, least and greatest values of the rows in the table, by what they mean.
/// Last stand the length and the SHA-256 of the reply.
///
/// It has at most 268,435,456 bytes, and at most 4,000,000 pieces each above the claim, with it and
/// below it, however many intervals, rows and samples there are. It takes time in proportion to the
/// reply, and a sort's for the merge.
pub fn write_page(alloc: Global, shown: &Shown<'_>) -> Result<Page, AllocError>
    ensures { IfOk result (λ page. IsPageOf shown.now page) }
{
    let view = view_of(alloc, shown)?;
    let asked = asked_of(alloc, shown)?;
    let heading = heading_of(alloc, &view, shown.selector)?;
    let details = details_of(alloc, &view)?;
    let sections = sections_of(alloc, &view, asked.as_ref())?;
    let wanted = wanted_marks(alloc, shown)?;
    check_marks(alloc, sections.as_slice(), wanted.as_slice())?;
    let values = wanted_values(alloc, shown)?;
    check_values(alloc, sections.as_slice(), values.as_slice())?;
    let bytes = bytes_of(
        alloc,
        shown,
        &view.claim,
        heading.as_slice(),
        details.as_slice(),
        sections.as_slice(),
    )?;
    Ok(Page {
        heading,
        claim: view.claim,
        details,
        asked,
        sections,
        bytes,
    })
}

/// The lines of the selector.
fn question_of(alloc: Global, view: &View<'_>, selector: &str) -> Result<Vec<Piece>, AllocError>
    ensures content { IfOk result (λ pieces. IsContent pieces.items) }
    ensures selector { IfOk result (λ pieces. ShowsFirst 4180 selector.now pieces.items) }
{
    let mut pen = Pen::new(alloc);
    question(&mut pen, view);
    let pieces = pen.finish()?;
    check_selector(alloc, pieces.as_slice(), selector, terminal::MOST_SHOWN)?;
    Ok(pieces)
}

/// What stands on the lines below.
fn lines_of(alloc: Global, view: &View<'_>, asked: Option<&Asked>) -> Result<Vec<Piece>, AllocError>
    ensures { IfOk result (λ pieces. IsContent pieces.items) }
{
    let mut pen = Pen::new(alloc);
    terminal(&mut pen, view, asked);
    pen.finish()
}

/// The claim, and the texts and numbers of the lines.
fn plain_of(
    alloc: Global,
    shown: &Shown<'_>,
    completeness: Completeness,
    question: &[Piece],
    lines: &[Piece],
) -> Result<Vec<u8>, AllocError>
    ensures text { IfOk result (λ bytes. bytes.items
        ≡ plain_claim completeness ++ plain_state (state_of shown.now)
        ++ plain_text question.now ++ plain_text lines.now) }
    ensures few { IfOk result (λ bytes. length bytes.items ≤ 268435456) }
{
    let mut bytes = Vec::new(alloc);
    append_plain_claim(&mut bytes, completeness)?;
    append_plain_state(alloc, &mut bytes, shown.state)?;
    print_plain(&mut bytes, question)?;
    print_plain(&mut bytes, lines)?;
    if bytes.len() > MOST_BYTES {
        return Err(AllocError);
    }
    Ok(bytes)
}

/// The same for a terminal: the claim, the question, the key, a letter for each interval of each
/// part, and the sentence about a series. Lines are at most 80 characters wide, names and values of
/// more than 24 characters aside. It has at most 268,435,456 bytes.
pub fn write_text(alloc: Global, shown: &Shown<'_>) -> Result<Page, AllocError>
    ensures { IfOk result (λ page. IsTextOf shown.now page) }
{
    let view = view_of(alloc, shown)?;
    let asked = asked_of(alloc, shown)?;
    let question = question_of(alloc, &view, shown.selector)?;
    let lines = lines_of(alloc, &view, asked.as_ref())?;
    let wanted = wanted_counts(alloc, shown)?;
    check_marks(alloc, lines.as_slice(), wanted.as_slice())?;
    let bytes = plain_of(
        alloc,
        shown,
        view.claim.completeness,
        question.as_slice(),
        lines.as_slice(),
    )?;
    Ok(Page {
        heading: question,
        claim: view.claim,
        details: Vec::new(alloc),
        asked,
        sections: lines,
        bytes,
    })
}

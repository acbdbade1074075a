//! The claim of a page, in words.

ghost use Rattle.std.specs.Prelude.{◌≡◌, ◌++◌, codes, IfOk, OnOk};
ghost use Rattle.std.specs.Option.{option_copied};
ghost use Rattle.std.specs.List.{flat_map};
ghost use Rattle.auditor.specs.Judgements.{subject_text};
ghost use Rattle.auditor.specs.declared.judgement.Subject.TheVariants.{Part};
ghost use Rattle.page.specs.Saying.{claim_text, claim_front, claim_mark, claim_words, claim_note};
ghost use Rattle.page.specs.Saying.{first_name, later_name, unjudged_names, unjudged_words};
ghost use Rattle.page.specs.Saying.{mark_front, claim_box, plain_note, plain_claim};
ghost use Rattle.page.specs.Saying.{otherwise_front, first_otherwise, otherwise_names};
ghost use Rattle.page.specs.Saying.{otherwise_words, state_front, state_place, state_words};
ghost use Rattle.page.specs.Saying.{state_paragraph, state_text, otherwise_list, otherwise_lines};
ghost use Rattle.page.specs.Saying.{front_lines, place_lines, name_line, state_lines, plain_state};
ghost use Rattle.page_escape.specs.Escaping.{word_text};
ghost use Rattle.state_claims.specs.Claiming.{otherwise_of};

use auditor::Subject;
use page_claims::Completeness;
use page_escape::append_word;
use postings::PartName;
use state_claims::{StateSaid, is_right_of_state, otherwise_of};
use std::alloc::{AllocError, Global};

/// What begins the box of a claim: green for one that a judge stands behind, red for one that is
/// not made, else plain.
#[tactic(auto, unfolding(crate::specs::Saying::claim_front))]
fn front(completeness: Completeness) -> &'static [u8]
    ensures { result.now ≡ claim_front completeness }
{
    match completeness {
        Completeness::Judged | Completeness::DirectoriesJudged => b"<div class=\"say ok\">",
        Completeness::Certified => b"<div class=\"say plain\">",
        Completeness::NotShown => b"<div class=\"say bad\">",
    }
}

/// The mark of a claim.
#[tactic(auto, unfolding(crate::specs::Saying::claim_mark))]
fn mark(completeness: Completeness) -> &'static [u8]
    ensures { result.now ≡ claim_mark completeness }
{
    match completeness {
        Completeness::Judged | Completeness::DirectoriesJudged => b"&#10003;</span> ",
        Completeness::Certified => b"&#9675;</span> ",
        Completeness::NotShown => b"&#10007;</span> ",
    }
}

/// The claim in words, and on what it rests.
#[tactic(auto, unfolding(crate::specs::Saying::claim_words))]
fn words(completeness: Completeness) -> &'static [u8]
    ensures { result.now ≡ claim_words completeness }
{
    match completeness {
        Completeness::Judged => b"No series is missing. The auditor found no flaw.",
        Completeness::DirectoriesJudged =>
            b"No series of these directories is missing. The auditor found no flaw.",
        Completeness::Certified => b"No series is missing, by the certificates below.",
        Completeness::NotShown => b"This reply does not show that no series is missing.",
    }
}

/// What nobody judged, for a terminal.
#[tactic(auto, unfolding(crate::specs::Saying::plain_note))]
fn plain_note(completeness: Completeness) -> &'static [u8]
    ensures { result.now ≡ plain_note completeness }
{
    match completeness {
        Completeness::DirectoriesJudged =>
            b"The reply tells of a head without series, which nobody judged.\n",
        Completeness::Judged | Completeness::Certified | Completeness::NotShown => b"",
    }
}

/// Appends the name of a part.
fn append_name(alloc: Global, out: &mut Vec<u8>, name: PartName) -> Result<(), AllocError>
    ensures { OnOk result (out.new.items ≡ out.old.items ++ subject_text (Part name)) }
{
    let part = Subject::Part(name);
    let text = format!(in alloc; "{part}")?;
    out.extend_from_slice(text.as_bytes())
}

/// Appends the names of parts that stand after another.
fn append_later_names(
    alloc: Global,
    out: &mut Vec<u8>,
    names: &[PartName],
) -> Result<(), AllocError>
    ensures { OnOk result (out.new.items ≡ out.old.items ++ flat_map later_name names.now) }
{
    for name in names {
        out.extend_from_slice(b", ")?;
        append_name(alloc, out, *name)?;
    }
    Ok(())
}

/// Appends what begins the sentence of parts that nobody judged.
#[tactic(auto, unfolding(crate::specs::Saying::first_name))]
fn append_first_name(alloc: Global, out: &mut Vec<u8>, name: PartName) -> Result<(), AllocError>
    ensures { OnOk result (out.new.items ≡ out.old.items ++ first_name name) }
{
    out.extend_from_slice(b"Nobody judged: ")?;
    append_name(alloc, out, name)
}

/// Appends which parts, of which there are some, nobody judged.
#[tactic(auto, unfolding(crate::specs::Saying::unjudged_names))]
fn append_names(
    alloc: Global,
    out: &mut Vec<u8>,
    name: PartName,
    names: &[PartName],
) -> Result<(), AllocError>
    ensures { OnOk result (out.new.items ≡ out.old.items ++ unjudged_names name names.now) }
{
    append_first_name(alloc, out, name)?;
    append_later_names(alloc, out, names)?;
    out.extend_from_slice(b".")
}

/// Appends which parts nobody judged.
#[tactic(auto, unfolding(crate::specs::Saying::unjudged_words))]
fn append_unjudged(
    alloc: Global,
    out: &mut Vec<u8>,
    unjudged: &[PartName],
) -> Result<(), AllocError>
    ensures { OnOk result (out.new.items ≡ out.old.items ++ unjudged_words unjudged.now) }
{
    match unjudged.split_first() {
        None => out.extend_from_slice(b"The reply does not name the head and each block once."),
        Some((name, names)) => append_names(alloc, out, *name, names),
    }
}

/// Appends a paragraph that says what nobody judged, if that belongs to the claim.
#[tactic(auto, unfolding(crate::specs::Saying::claim_note))]
fn append_note(
    alloc: Global,
    out: &mut Vec<u8>,
    completeness: Completeness,
    unjudged: &[PartName],
) -> Result<(), AllocError>
    ensures { OnOk result (out.new.items ≡ out.old.items ++ claim_note completeness unjudged.now) }
{
    match completeness {
        Completeness::Judged | Completeness::NotShown => Ok(()),
        Completeness::DirectoriesJudged => out.extend_from_slice(
            b"<p>The reply tells of a head without series, which nobody judged.</p>\n",
        ),
        Completeness::Certified => {
            out.extend_from_slice(b"<p>")?;
            append_unjudged(alloc, out, unjudged)?;
            out.extend_from_slice(b"</p>\n")
        }
    }
}

/// Appends what stands before the mark of a claim.
#[tactic(auto, unfolding(crate::specs::Saying::mark_front))]
fn append_mark_front(out: &mut Vec<u8>) -> Result<(), AllocError>
    ensures { OnOk result (out.new.items ≡ out.old.items ++ mark_front) }
{
    out.extend_from_slice(b"<p class=\"big\"><span class=\"mark\" aria-hidden=\"true\">")
}

/// Appends what begins the box of a claim, and its mark.
#[tactic(auto, unfolding(crate::specs::Saying::claim_box))]
fn append_box(out: &mut Vec<u8>, completeness: Completeness) -> Result<(), AllocError>
    ensures { OnOk result (out.new.items ≡ out.old.items ++ claim_box completeness) }
{
    out.extend_from_slice(front(completeness))?;
    append_mark_front(out)?;
    out.extend_from_slice(mark(completeness))
}

/// Appends the claim and what nobody judged, in a box that is open still.
#[tactic(auto, unfolding(crate::specs::Saying::claim_text))]
pub(crate) fn append_claim(
    alloc: Global,
    out: &mut Vec<u8>,
    completeness: Completeness,
    unjudged: &[PartName],
) -> Result<(), AllocError>
    ensures { OnOk result (out.new.items ≡ out.old.items ++ claim_text completeness unjudged.now) }
{
    append_box(out, completeness)?;
    out.extend_from_slice(words(completeness))?;
    out.extend_from_slice(b"</p>\n")?;
    append_note(alloc, out, completeness, unjudged)
}

/// Appends what ends the box of a claim.
pub(crate) fn append_claim_end(out: &mut Vec<u8>) -> Result<(), AllocError>
    ensures { OnOk result (out.new.items ≡ out.old.items ++ codes "</div>\n") }
{
    out.extend_from_slice(b"</div>\n")
}

/// Appends the claim on lines of its own.
#[tactic(auto, unfolding(crate::specs::Saying::plain_claim))]
pub(crate) fn append_plain_claim(
    out: &mut Vec<u8>,
    completeness: Completeness,
) -> Result<(), AllocError>
    ensures { OnOk result (out.new.items ≡ out.old.items ++ plain_claim completeness) }
{
    out.extend_from_slice(words(completeness))?;
    out.extend_from_slice(b"\n")?;
    out.extend_from_slice(plain_note(completeness))
}

/// That a reply is right of a state, or of none.
#[tactic(auto, unfolding(crate::specs::Saying::state_front))]
fn state_front(said: &StateSaid<'_>) -> &'static [u8]
    ensures { result.now ≡ state_front said.now }
{
    if is_right_of_state(said) {
        b"It is right of the store at "
    } else {
        b"It is right of no state of the store that was sought. It was judged at "
    }
}

/// Appends which state a reply was held against.
#[tactic(auto, unfolding(crate::specs::Saying::state_place))]
fn append_place(
    alloc: Global,
    out: &mut Vec<u8>,
    mark: &[u8],
    said: &StateSaid<'_>,
) -> Result<(), AllocError>
    ensures { OnOk result (out.new.items ≡ out.old.items ++ state_place mark.now said.now) }
{
    let (told, events) = (said.told, said.events);
    let place = format!(in alloc; "event {told} of {events}, mark ")?;
    out.extend_from_slice(place.as_bytes())?;
    out.extend_from_slice(mark)?;
    out.extend_from_slice(b".")
}

/// Appends what stands before the names of blocks that were judged under other numbers.
#[tactic(auto, unfolding(crate::specs::Saying::otherwise_front))]
fn append_otherwise_front(out: &mut Vec<u8>) -> Result<(), AllocError>
    ensures { OnOk result (out.new.items ≡ out.old.items ++ otherwise_front) }
{
    out.extend_from_slice(b" Judged for what is missing, and not for how few its intervals are: ")
}

/// Appends what begins the sentence of these blocks.
#[tactic(auto, unfolding(crate::specs::Saying::first_otherwise))]
fn append_first_otherwise(
    alloc: Global,
    out: &mut Vec<u8>,
    name: PartName,
) -> Result<(), AllocError>
    ensures { OnOk result (out.new.items ≡ out.old.items ++ first_otherwise name) }
{
    append_otherwise_front(out)?;
    append_name(alloc, out, name)
}

/// Appends which blocks, of which there are some, were judged under other numbers.
#[tactic(auto, unfolding(crate::specs::Saying::otherwise_names))]
fn append_otherwise_names(
    alloc: Global,
    out: &mut Vec<u8>,
    name: PartName,
    names: &[PartName],
) -> Result<(), AllocError>
    ensures { OnOk result (out.new.items ≡ out.old.items ++ otherwise_names name names.now) }
{
    append_first_otherwise(alloc, out, name)?;
    append_later_names(alloc, out, names)?;
    out.extend_from_slice(b".")
}

/// Appends which blocks were judged under other numbers.
#[tactic(auto, unfolding(crate::specs::Saying::otherwise_words))]
fn append_otherwise(alloc: Global, out: &mut Vec<u8>, names: &[PartName]) -> Result<(), AllocError>
    ensures { OnOk result (out.new.items ≡ out.old.items ++ otherwise_words names.now) }
{
    match names.split_first() {
        None => Ok(()),
        Some((name, later)) => append_otherwise_names(alloc, out, *name, later),
    }
}

/// Appends which blocks a judge found right under other numbers.
fn append_said_otherwise(
    alloc: Global,
    out: &mut Vec<u8>,
    said: &StateSaid<'_>,
) -> Result<(), AllocError>
    ensures { OnOk result (out.new.items
        ≡ out.old.items ++ otherwise_words (otherwise_of said.now.lines.now)) }
{
    let names = otherwise_of(alloc, said.lines)?;
    append_otherwise(alloc, out, names.as_slice())
}

/// Appends of which state of a store it is claimed, with the text of its mark.
#[tactic(auto, unfolding(crate::specs::Saying::state_words))]
fn append_state_words(
    alloc: Global,
    out: &mut Vec<u8>,
    mark: &[u8],
    said: &StateSaid<'_>,
) -> Result<(), AllocError>
    ensures { OnOk result (out.new.items ≡ out.old.items ++ state_words mark.now said.now) }
{
    out.extend_from_slice(state_front(said))?;
    append_place(alloc, out, mark, said)?;
    append_said_otherwise(alloc, out, said)
}

/// The text of a mark, as a page writes it.
fn escaped(alloc: Global, mark: &str) -> Result<Vec<u8>, AllocError>
    ensures { IfOk result (λ text. text.items ≡ word_text mark.now) }
{
    let mut text = Vec::new(alloc);
    append_word(&mut text, mark)?;
    Ok(text)
}

#[tactic(auto, unfolding(crate::specs::Saying::state_paragraph))]
fn append_paragraph(
    alloc: Global,
    out: &mut Vec<u8>,
    said: &StateSaid<'_>,
) -> Result<(), AllocError>
    ensures { OnOk result (out.new.items ≡ out.old.items ++ state_paragraph said.now) }
{
    let mark = escaped(alloc, said.mark)?;
    out.extend_from_slice(b"<p>")?;
    append_state_words(alloc, out, mark.as_slice(), said)?;
    out.extend_from_slice(b"</p>\n")
}

/// Appends of which state of a store it is claimed, in a paragraph.
#[tactic(auto, unfolding(crate::specs::Saying::state_text))]
pub(crate) fn append_state(
    alloc: Global,
    out: &mut Vec<u8>,
    state: Option<&StateSaid<'_>>,
) -> Result<(), AllocError>
    ensures { OnOk result (out.new.items
        ≡ out.old.items ++ state_text (option_copied state.entry)) }
{
    match state {
        None => Ok(()),
        Some(said) => append_paragraph(alloc, out, said),
    }
}

/// That a reply is right of a state, or of none, for a terminal.
#[tactic(auto, unfolding(crate::specs::Saying::front_lines))]
fn front_lines(said: &StateSaid<'_>) -> &'static [u8]
    ensures { result.now ≡ front_lines said.now }
{
    if is_right_of_state(said) {
        b"It is right of the store at "
    } else {
        b"It is right of no state of the store that was sought.\nIt was judged at "
    }
}

/// Appends which state a reply was held against, for a terminal.
#[tactic(auto, unfolding(crate::specs::Saying::place_lines))]
fn append_place_lines(
    alloc: Global,
    out: &mut Vec<u8>,
    said: &StateSaid<'_>,
) -> Result<(), AllocError>
    ensures { OnOk result (out.new.items ≡ out.old.items ++ place_lines said.now) }
{
    let (told, events, mark) = (said.told, said.events, said.mark);
    let place = format!(in alloc; "event {told} of {events},\nmark {mark}.\n")?;
    out.extend_from_slice(place.as_bytes())
}

/// Appends the name of a part on a line of its own.
fn append_name_line(alloc: Global, out: &mut Vec<u8>, name: PartName) -> Result<(), AllocError>
    ensures { OnOk result (out.new.items ≡ out.old.items ++ name_line name) }
{
    out.extend_from_slice(b"  ")?;
    append_name(alloc, out, name)?;
    out.extend_from_slice(b"\n")
}

/// Appends the names of parts, each on a line of its own.
fn append_name_lines(alloc: Global, out: &mut Vec<u8>, names: &[PartName]) -> Result<(), AllocError>
    ensures { OnOk result (out.new.items ≡ out.old.items ++ flat_map name_line names.now) }
{
    for name in names {
        append_name_line(alloc, out, *name)?;
    }
    Ok(())
}

/// Appends which blocks, of which there are some, were judged under other numbers, for a terminal.
#[tactic(auto, unfolding(crate::specs::Saying::otherwise_list))]
fn append_otherwise_list(
    alloc: Global,
    out: &mut Vec<u8>,
    names: &[PartName],
) -> Result<(), AllocError>
    ensures { OnOk result (out.new.items ≡ out.old.items ++ otherwise_list names.now) }
{
    out.extend_from_slice(b"Judged for what is missing, and not for how few its intervals are:\n")?;
    append_name_lines(alloc, out, names)
}

/// Appends which blocks were judged under other numbers, for a terminal.
#[tactic(auto, unfolding(crate::specs::Saying::otherwise_lines))]
fn append_otherwise_lines(
    alloc: Global,
    out: &mut Vec<u8>,
    names: &[PartName],
) -> Result<(), AllocError>
    ensures { OnOk result (out.new.items ≡ out.old.items ++ otherwise_lines names.now) }
{
    match names.split_first() {
        None => Ok(()),
        Some(_) => append_otherwise_list(alloc, out, names),
    }
}

#[tactic(auto, unfolding(crate::specs::Saying::state_lines))]
fn append_state_lines(
    alloc: Global,
    out: &mut Vec<u8>,
    said: &StateSaid<'_>,
) -> Result<(), AllocError>
    ensures { OnOk result (out.new.items ≡ out.old.items ++ state_lines said.now) }
{
    let otherwise = otherwise_of(alloc, said.lines)?;
    out.extend_from_slice(front_lines(said))?;
    append_place_lines(alloc, out, said)?;
    append_otherwise_lines(alloc, out, otherwise.as_slice())
}

/// Appends the same for a terminal of 80 columns.
#[tactic(auto, unfolding(crate::specs::Saying::plain_state))]
pub(crate) fn append_plain_state(
    alloc: Global,
    out: &mut Vec<u8>,
    state: Option<&StateSaid<'_>>,
) -> Result<(), AllocError>
    ensures { OnOk result (out.new.items
        ≡ out.old.items ++ plain_state (option_copied state.entry)) }
{
    match state {
        None => Ok(()),
        Some(said) => append_state_lines(alloc, out, said),
    }
}

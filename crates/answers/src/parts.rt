//! The text of what an answer says of each part: its certificate, its rows and its separators, or
//! that it is skipped.

ghost use Rattle.std.specs.Prelude.{◌≡◌, ◌++◌, OnOk, IfOk, string_bytes};
ghost use Rattle.serde_json.specs.Written.{compact_text};
ghost use Rattle.answers.specs.Body.{verdict_data, interval_data, json_list, natural};
ghost use Rattle.answers.specs.Body.{name_text, part_data, searched_data, skipped_data};
ghost use Rattle.answers.specs.AfterCommas.{interval_after_comma, part_after_comma};
ghost use Rattle.answers.specs.AfterCommas.{after_commas, searched_front, searched_back};

use crate::brackets::close_list;
use crate::number::append_natural;
use crate::rows::append_rows;
use crate::strings::append_string;
use block_search::AnsweredPart;
use cover::{Interval, PartAnswer, Verdict};
use labels::SeriesRef;
use postings::PartName;
use std::alloc::{AllocError, Global};

#[tactic(auto, unfolding(json::specs::Print::escape_byte))]
fn append_verdict(out: &mut Vec<u8>, verdict: Verdict) -> Result<(), AllocError>
    ensures { OnOk result (out.new.items ≡ out.old.items ++ compact_text (verdict_data verdict)) }
{
    match verdict {
        Verdict::Match => out.extend_from_slice(b"\"match\""),
        Verdict::NoSample => out.extend_from_slice(b"\"none\""),
        Verdict::Rejected(matcher) => append_natural(out, matcher as u64),
    }
}

/// Appends a comma and the interval.
fn append_interval_after_comma(out: &mut Vec<u8>, interval: &Interval) -> Result<(), AllocError>
    ensures { OnOk result (out.new.items ≡ out.old.items ++ interval_after_comma interval.now) }
{
    out.extend_from_slice(b",{\"from\":")?;
    append_natural(out, interval.from.number() as u64)?;
    out.extend_from_slice(b",\"until\":")?;
    append_natural(out, interval.until)?;
    out.extend_from_slice(b",\"verdict\":")?;
    append_verdict(out, interval.verdict)?;
    out.push(b'}')?;
    Ok(())
}

/// Appends the intervals, each with a comma before it.
fn append_intervals_after_commas(
    out: &mut Vec<u8>,
    intervals: &[Interval],
) -> Result<(), AllocError>
    ensures { OnOk result (out.new.items
        ≡ out.old.items ++ after_commas interval_data intervals.now) }
{
    for interval in intervals {
        append_interval_after_comma(out, interval)?;
    }
    Ok(())
}

/// Appends the intervals as a list.
fn append_intervals(out: &mut Vec<u8>, intervals: &[Interval]) -> Result<(), AllocError>
    ensures { OnOk result (out.new.items
        ≡ out.old.items ++ json_list interval_data intervals.now) }
{
    let start = out.len();
    append_intervals_after_commas(out, intervals)?;
    close_list(out, start, b'[', b']')
}

/// Appends the references, each with a comma before it.
fn append_references_after_commas(
    out: &mut Vec<u8>,
    references: &[SeriesRef],
) -> Result<(), AllocError>
    ensures { OnOk result (out.new.items ≡ out.old.items ++ after_commas natural references.now) }
{
    for reference in references {
        out.push(b',')?;
        append_natural(out, reference.number() as u64)?;
    }
    Ok(())
}

/// Appends the references as a list.
fn append_references(out: &mut Vec<u8>, references: &[SeriesRef]) -> Result<(), AllocError>
    ensures { OnOk result (out.new.items ≡ out.old.items ++ json_list natural references.now) }
{
    let start = out.len();
    append_references_after_commas(out, references)?;
    close_list(out, start, b'[', b']')
}

fn name_of(alloc: Global, part: PartName) -> Result<String, AllocError>
    ensures { IfOk result (λ s. string_bytes s ≡ name_text part) }
{
    match part {
        PartName::Block(n) => format!(in alloc; "block {n}"),
        PartName::Head => String::from_str(alloc, "head"),
    }
}

/// Appends what an answer says of a part before its rows.
pub(crate) fn append_searched_front(
    alloc: Global,
    out: &mut Vec<u8>,
    answer: &PartAnswer,
) -> Result<(), AllocError>
    ensures { OnOk result (out.new.items ≡ out.old.items ++ searched_front answer.now) }
{
    let name = name_of(alloc, answer.part)?;
    out.extend_from_slice(b"{\"intervals\":")?;
    append_intervals(out, answer.cover.certificate.as_slice())?;
    out.extend_from_slice(b",\"part\":")?;
    append_string(out, name.as_str())?;
    out.extend_from_slice(b",\"rows\":")?;
    Ok(())
}

/// Appends what an answer says of a part behind its rows.
pub(crate) fn append_searched_back(out: &mut Vec<u8>, answer: &PartAnswer) -> Result<(), AllocError>
    ensures { OnOk result (out.new.items ≡ out.old.items ++ searched_back answer.now) }
{
    out.extend_from_slice(b",\"separators\":")?;
    append_references(out, answer.cover.separators.as_slice())?;
    out.push(b'}')?;
    Ok(())
}

/// Appends the answer of a part.
fn append_searched(alloc: Global, out: &mut Vec<u8>, answer: &PartAnswer) -> Result<(), AllocError>
    ensures { OnOk result
        (out.new.items ≡ out.old.items ++ compact_text (searched_data answer.now)) }
{
    append_searched_front(alloc, out, answer)?;
    append_rows(out, answer.rows.as_slice())?;
    append_searched_back(out, answer)
}

/// Appends that a part is skipped.
pub(crate) fn append_skipped(
    alloc: Global,
    out: &mut Vec<u8>,
    name: PartName,
) -> Result<(), AllocError>
    ensures { OnOk result (out.new.items ≡ out.old.items ++ compact_text (skipped_data name)) }
{
    let name = name_of(alloc, name)?;
    out.extend_from_slice(b"{\"part\":")?;
    append_string(out, name.as_str())?;
    out.extend_from_slice(b",\"skipped\":true}")?;
    Ok(())
}

/// Appends what an answer says of a part.
fn append_part(alloc: Global, out: &mut Vec<u8>, part: &AnsweredPart) -> Result<(), AllocError>
    ensures { OnOk result (out.new.items ≡ out.old.items ++ compact_text (part_data part.now)) }
{
    match part {
        AnsweredPart::Searched(answer) => append_searched(alloc, out, answer),
        AnsweredPart::Skipped(name) => append_skipped(alloc, out, *name),
    }
}

/// Appends a comma and what an answer says of a part.
fn append_part_after_comma(
    alloc: Global,
    out: &mut Vec<u8>,
    part: &AnsweredPart,
) -> Result<(), AllocError>
    ensures { OnOk result (out.new.items ≡ out.old.items ++ part_after_comma part.now) }
{
    out.push(b',')?;
    append_part(alloc, out, part)
}

/// Appends what an answer says of each part, with a comma before it.
pub(crate) fn append_parts_after_commas(
    alloc: Global,
    out: &mut Vec<u8>,
    parts: &[AnsweredPart],
) -> Result<(), AllocError>
    ensures { OnOk result (out.new.items ≡ out.old.items ++ after_commas part_data parts.now) }
{
    for part in parts {
        append_part_after_comma(alloc, out, part)?;
    }
    Ok(())
}

/// Appends what an answer says of each part as a list.
pub(crate) fn append_parts(
    alloc: Global,
    out: &mut Vec<u8>,
    parts: &[AnsweredPart],
) -> Result<(), AllocError>
    ensures { OnOk result (out.new.items ≡ out.old.items ++ json_list part_data parts.now) }
{
    let start = out.len();
    append_parts_after_commas(alloc, out, parts)?;
    close_list(out, start, b'[', b']')
}

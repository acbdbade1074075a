//! The labels of a sample.

ghost use Rattle.std.specs.Prelude.{◌≡◌, drop};
ghost use Rattle.open_metrics.specs.Outcome.{Gives};
ghost use Rattle.open_metrics.specs.Labels.{after_comma, comma_at, is_end, labels_at, may_end};
ghost use Rattle.open_metrics.specs.Labels.{next_at, others_at, pair_at, pair_in};
ghost use Rattle.open_metrics.specs.Labels.{next_in, pairs_in, within_at};
ghost use Rattle.open_metrics.specs.Texts.{until_end};

use crate::comments::Format;
use crate::error::{Fault, Reason};
use crate::texts::cut_text;
use crate::tokens::{Class, cut_byte, cut_name, skip_blanks};
use std::alloc::Global;

/// The greatest number of labels in the braces of a sample.
const MAX_LABELS: usize = 64;

/// A label of a sample.
#[derive(Drop)]
pub struct Label<'a> {
    /// Its name, in ASCII.
    pub name: &'a [u8],
    /// Its text, without escapes.
    pub text: Vec<u8>,
}

#[tactic(auto, unfolding(crate::specs::Labels::pair_at))]
fn cut_pair(alloc: Global, format: Format, bytes: &[u8]) -> Result<(Label<'_>, &[u8]), Fault>
    ensures { Gives (λ x. (pair_in x.0, x.1.now)) result (pair_at format bytes.now) }
{
    let (name, rest) = cut_name(Class::Label, Reason::Label, skip_blanks(format, bytes))?;
    let rest = cut_byte(b'=', Reason::Label, skip_blanks(format, rest))?;
    let rest = cut_byte(b'"', Reason::Text, skip_blanks(format, rest))?;
    let (text, rest) = cut_text(alloc, rest)?;
    Ok((Label { name, text }, rest))
}

// Whether a brace stands here.
fn is_end(bytes: &[u8]) -> bool
    ensures { result ≡ is_end bytes.now }
{
    match bytes.split_first() {
        Some((first, _)) => *first == b'}',
        None => false,
    }
}

// Whether labels may end behind a comma.
fn may_end(format: Format) -> bool
    ensures { result ≡ may_end format }
{
    match format {
        Format::OpenMetrics => false,
        Format::Prometheus => true,
    }
}

// What stands behind the first byte.
fn behind_one(bytes: &[u8]) -> &[u8]
    ensures { result.now ≡ drop 1 bytes.now }
{
    match bytes.split_first() {
        Some((_, rest)) => rest,
        None => bytes,
    }
}

// A label behind a comma, or the end of the labels.
#[tactic(auto, unfolding(crate::specs::Labels::after_comma))]
fn cut_after(
    alloc: Global,
    format: Format,
    bytes: &[u8],
) -> Result<(Option<Label<'_>>, &[u8]), Fault>
    ensures { Gives (λ x. (next_in x.0, x.1.now)) result (after_comma format bytes.now) }
{
    let rest = skip_blanks(format, bytes);
    if may_end(format) && is_end(rest) {
        return Ok((None, behind_one(rest)));
    }
    let (label, rest) = cut_pair(alloc, format, bytes)?;
    Ok((Some(label), rest))
}

#[tactic(auto, unfolding(crate::specs::Labels::comma_at))]
fn cut_comma(
    alloc: Global,
    format: Format,
    bytes: &[u8],
) -> Result<(Option<Label<'_>>, &[u8]), Fault>
    ensures { Gives (λ x. (next_in x.0, x.1.now)) result (comma_at format bytes.now) }
{
    let Some((first, rest)) = bytes.split_first() else {
        return Err(Fault::At(Reason::Label, 0));
    };
    if *first == b'}' {
        return Ok((None, rest));
    }
    if *first != b',' {
        return Err(Fault::At(Reason::Label, bytes.len()));
    }
    cut_after(alloc, format, rest)
}

// A comma and a label, or the end of the labels.
fn cut_next(
    alloc: Global,
    format: Format,
    bytes: &[u8],
) -> Result<(Option<Label<'_>>, &[u8]), Fault>
    ensures { Gives (λ x. (next_in x.0, x.1.now)) result (next_at format bytes.now) }
{
    cut_comma(alloc, format, skip_blanks(format, bytes))
}

// Adds labels up to the end of them, which must stand among so many.
fn cut_each<'a>(
    alloc: Global,
    format: Format,
    bytes: &'a [u8],
    count: usize,
) -> Result<(Vec<Label<'a>>, &'a [u8]), Fault>
    ensures { Gives (λ x. (pairs_in x.0.items, x.1.now)) result
        (until_end (next_at format) Reason.Many count bytes.now) }
{
    let mut labels = Vec::new(alloc);
    let mut rest = bytes;
    for counter in 0..count {
        let (next, after) = cut_next(alloc, format, rest)?;
        let Some(label) = next else {
            return Ok((labels, after));
        };
        labels.push(label)?;
        rest = after;
    }
    Err(Fault::At(Reason::Many, rest.len()))
}

#[tactic(auto, unfolding(crate::specs::Labels::others_at))]
fn cut_others(alloc: Global, format: Format, bytes: &[u8]) -> Result<(Vec<Label<'_>>, &[u8]), Fault>
    ensures { Gives (λ x. (pairs_in x.0.items, x.1.now)) result (others_at format bytes.now) }
{
    cut_each(alloc, format, bytes, MAX_LABELS)
}

#[tactic(auto, unfolding(crate::specs::Labels::within_at))]
fn cut_within(alloc: Global, format: Format, bytes: &[u8]) -> Result<(Vec<Label<'_>>, &[u8]), Fault>
    ensures { Gives (λ x. (pairs_in x.0.items, x.1.now)) result (within_at format bytes.now) }
{
    let rest = skip_blanks(format, bytes);
    if is_end(rest) {
        return Ok((Vec::new(alloc), behind_one(rest)));
    }
    let (label, rest) = cut_pair(alloc, format, bytes)?;
    let (others, rest) = cut_others(alloc, format, rest)?;
    let mut labels = others;
    labels.insert(0, label)?;
    Ok((labels, rest))
}

/// The labels within braces, none where no brace begins, and what stands behind them. In the older
/// text a comma may stand behind the last.
#[tactic(auto, unfolding(crate::specs::Labels::labels_at))]
pub fn cut_labels(
    alloc: Global,
    format: Format,
    bytes: &[u8],
) -> Result<(Vec<Label<'_>>, &[u8]), Fault>
    ensures { Gives (λ x. (pairs_in x.0.items, x.1.now)) result (labels_at format bytes.now) }
{
    let Some((first, rest)) = bytes.split_first() else {
        return Ok((Vec::new(alloc), bytes));
    };
    if *first != b'{' {
        return Ok((Vec::new(alloc), bytes));
    }
    let (labels, rest) = cut_within(alloc, format, rest)?;
    Ok((labels, rest))
}

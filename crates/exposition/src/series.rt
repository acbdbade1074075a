//! The label set of a sample.

ghost use Rattle.std.specs.Prelude.{◌≡◌, ◌∷◌, [], ◌++◌, None, Some, true, false, string_bytes};
ghost use Rattle.std.specs.Prelude.{IfNone, IfSome, MatchResult};
ghost use Rattle.std.specs.Str.{is_utf8};
ghost use Rattle.labels.specs.LabelSets.{IsMadeOf, refusal_of};
ghost use Rattle.labels.specs.Pairs.{pairs_of};
ghost use Rattle.open_metrics.specs.Labels.{pair_in, pairs_in};
ghost use Rattle.open_metrics.specs.Lines.{sample_in};
ghost use Rattle.exposition.specs.Faults.{are_utf8, is_utf8_pair, pairs_fault, pairs_of_sample};
ghost use Rattle.exposition.specs.Faults.{refused_for};
ghost use Rattle.exposition.specs.Series.{IfCaused, IsNoUtf8};

use crate::error::Cause;
use labels::{LabelError, LabelSet};
use open_metrics::{Label, SampleLine};
use std::alloc::{AllocError, AllocFailed, Global};

const NAME: &str = "__name__";

/// Why labels make no label set; no memory, where there is no cause.
#[derive(Clone, Copy, Drop)]
pub struct NoLabels {
    pub cause: Option<Cause>,
}

impl From<AllocError> for NoLabels {
    ghost from_gives = { λ _ e. e.cause ≡ None };

    fn from(_error: AllocError) -> NoLabels {
        NoLabels { cause: None }
    }
}

impl<T: Drop> From<AllocFailed<T>> for NoLabels {
    ghost from_gives = { λ _ e. e.cause ≡ None };

    fn from(_error: AllocFailed<T>) -> NoLabels {
        NoLabels { cause: None }
    }
}

fn text_in(bytes: &[u8]) -> Result<&str, NoLabels>
    ensures { MatchResult result (λ text. (text.now ≡ bytes.now) × (is_utf8 bytes.now ≡ true))
        (λ e. IsNoUtf8 (is_utf8 bytes.now) e) }
{
    match str::from_utf8(bytes) {
        Ok(text) => Ok(text),
        Err(_) => Err(NoLabels {
            cause: Some(Cause::Text),
        }),
    }
}

fn string_of(alloc: Global, bytes: &[u8]) -> Result<String, NoLabels>
    ensures { MatchResult result
        (λ text. (string_bytes text ≡ bytes.now) × (is_utf8 bytes.now ≡ true))
        (λ e. IsNoUtf8 (is_utf8 bytes.now) e) }
{
    let text = text_in(bytes)?;
    Ok(String::from_str(alloc, text)?)
}

fn push_pair(
    alloc: Global,
    pairs: &mut Vec<(String, String)>,
    name: &[u8],
    text: &[u8],
) -> Result<(), NoLabels>
    ensures { MatchResult result
        (λ _. (pairs_of pairs.new.items ≡ pairs_of pairs.old.items ++ (name.now, text.now) ∷ [])
        × (is_utf8_pair (name.now, text.now) ≡ true))
        (λ e. IsNoUtf8 (is_utf8_pair (name.now, text.now)) e) }
{
    let name = string_of(alloc, name)?;
    let text = string_of(alloc, text)?;
    pairs.push((name, text))?;
    Ok(())
}

fn push_label(
    alloc: Global,
    pairs: &mut Vec<(String, String)>,
    label: &Label<'_>,
) -> Result<(), NoLabels>
    ensures { MatchResult result
        (λ _. (pairs_of pairs.new.items ≡ pairs_of pairs.old.items ++ pair_in label.now ∷ [])
        × (is_utf8_pair (pair_in label.now) ≡ true))
        (λ e. IsNoUtf8 (is_utf8_pair (pair_in label.now)) e) }
{
    push_pair(alloc, pairs, label.name, label.text.as_slice())?;
    Ok(())
}

fn push_pairs(
    alloc: Global,
    pairs: &mut Vec<(String, String)>,
    labels: &[Label<'_>],
) -> Result<(), NoLabels>
    ensures { MatchResult result
        (λ _. (pairs_of pairs.new.items ≡ pairs_of pairs.old.items ++ pairs_in labels.now)
        × (are_utf8 (pairs_in labels.now) ≡ true))
        (λ e. IsNoUtf8 (are_utf8 (pairs_in labels.now)) e) }
{
    for label in labels {
        push_label(alloc, pairs, label)?;
    }
    Ok(())
}

fn all_pairs(alloc: Global, sample: &SampleLine<'_>) -> Result<Vec<(String, String)>, NoLabels>
    ensures { MatchResult result
        (λ v. (pairs_of v.items ≡ pairs_of_sample (sample_in sample.now))
        × (are_utf8 (pairs_of_sample (sample_in sample.now)) ≡ true))
        (λ e. IsNoUtf8 (are_utf8 (pairs_of_sample (sample_in sample.now))) e) }
{
    let mut pairs = Vec::new(alloc);
    push_pair(alloc, &mut pairs, NAME.as_bytes(), sample.name)?;
    push_pairs(alloc, &mut pairs, sample.labels.as_slice())?;
    Ok(pairs)
}

fn made_of(alloc: Global, pairs: Vec<(String, String)>) -> Result<LabelSet, NoLabels>
    ensures { MatchResult result
        (λ l. IsMadeOf l (pairs_of pairs.items) × (refusal_of (pairs_of pairs.items) ≡ None))
        (λ e. IfCaused e (refused_for (refusal_of (pairs_of pairs.items)))) }
{
    match LabelSet::new(alloc, pairs) {
        Ok(labels) => Ok(labels),
        Err(LabelError::Memory) => Err(NoLabels { cause: None }),
        Err(error) => Err(NoLabels {
            cause: Some(Cause::Labels(error)),
        }),
    }
}

/// The label set of a sample: its labels, and the name of its metric.
pub fn label_set(alloc: Global, sample: &SampleLine<'_>) -> Result<LabelSet, NoLabels>
    ensures { MatchResult result
        (λ l. IsMadeOf l (pairs_of_sample (sample_in sample.now))
        × (pairs_fault (pairs_of_sample (sample_in sample.now)) ≡ None))
        (λ e. IfCaused e (pairs_fault (pairs_of_sample (sample_in sample.now)))) }
{
    let pairs = all_pairs(alloc, sample)?;
    made_of(alloc, pairs)
}

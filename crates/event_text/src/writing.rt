//! Writing an event.

ghost use Rattle.std.specs.Prelude.{◌≡◌, ◌<◌, ◌+◌, ◌^◌, ◌++◌, ◌∷◌, OnOk, length, true};
ghost use Rattle.std.specs.List.{list_all};
ghost use Rattle.wire.specs.Spelling.{uvarint};
ghost use Rattle.labels.specs.LabelSets.{IsLabelSet};
ghost use Rattle.head.specs.BatchRows.{batch_of_rows};
ghost use Rattle.head.specs.Worlds.{Event, batch, cut, deletion};
ghost use Rattle.event_text.specs.Runs.{are_runs, is_filled, runs_of, values_in};
ghost use Rattle.event_text.specs.Spelling.{event_text, labels_text, many_text, matcher_text};
ghost use Rattle.event_text.specs.Spelling.{op_number, pair_text, run_text, sample_text};
ghost use Rattle.event_text.specs.Spelling.{string_text};
ghost use Rattle.event_text.specs.Spelling.{AreMany, HasSpelling, IsMatcher, IsPair, IsRun};
ghost use Rattle.event_text.specs.Spelling.{IsSample};
ghost use Rattle.event_text.specs.Spelling.{IsText};

use crate::runs::{are_runs, batch_in, lead, run_count};
use labels::{LabelSet, Row, Sample};
use matchers::{Matcher, Op};
use std::alloc::{AllocError, Global};
use wire::{put_bytes, put_u8, put_uvarint, put_varint};

/// Appends how many things there are.
pub fn put_count(out: &mut Vec<u8>, count: usize) -> Result<(), AllocError>
    ensures text { OnOk result (out.new.items ≡ out.old.items ++ uvarint count) }
    ensures small { count < 2 ^ 64 }
{
    put_uvarint(out, count as u64)
}

fn put_string(out: &mut Vec<u8>, text: &str) -> Result<(), AllocError>
    ensures text { OnOk result (out.new.items ≡ out.old.items ++ string_text text.now) }
    ensures spelled { OnOk result (IsText text.now) }
{
    put_count(out, text.len())?;
    put_bytes(out, text.as_bytes())
}

fn put_pair(out: &mut Vec<u8>, name: &str, value: &str) -> Result<(), AllocError>
    ensures text { OnOk result (out.new.items
        ≡ out.old.items ++ pair_text (name.now, value.now)) }
    ensures spelled { OnOk result (IsPair (name.now, value.now)) }
{
    put_string(out, name)?;
    put_string(out, value)
}

/// Appends a label set. Where memory runs out, some of it may stand there.
#[tactic(auto, unfolding(crate::specs::Spelling::labels_text))]
pub fn put_labels(out: &mut Vec<u8>, labels: &LabelSet) -> Result<(), AllocError>
    ensures text { OnOk result (out.new.items ≡ out.old.items ++ labels_text labels.now) }
    ensures spelled { OnOk result (AreMany IsPair labels.now × IsLabelSet labels.now) }
{
    put_count(out, labels.len())?;
    for i in 0..labels.len() {
        let (name, value) = labels.pair(i);
        put_pair(out, name, value)?;
    }
    Ok(())
}

/// Appends a time and a value. Where memory runs out, some of it may stand there.
#[tactic(auto, unfolding(crate::specs::Spelling::sample_text))]
pub fn put_sample(out: &mut Vec<u8>, sample: Sample) -> Result<(), AllocError>
    ensures text { OnOk result (out.new.items ≡ out.old.items ++ sample_text sample) }
    ensures spelled { OnOk result (IsSample sample) }
{
    put_varint(out, sample.t())?;
    put_varint(out, sample.v())
}

/// Appends how many samples there are, and the samples. Where memory runs out, some of it may stand
/// there.
pub fn put_each_sample(out: &mut Vec<u8>, samples: &[Sample]) -> Result<(), AllocError>
    ensures text { OnOk result (out.new.items
        ≡ out.old.items ++ many_text sample_text samples.now) }
    ensures spelled { OnOk result (AreMany IsSample samples.now) }
{
    put_count(out, samples.len())?;
    for sample in samples {
        put_sample(out, *sample)?;
    }
    Ok(())
}

/// Appends how many samples there are, and the samples.
fn put_samples(
    out: &mut Vec<u8>,
    first: Sample,
    others: &[(LabelSet, Sample)],
) -> Result<(), AllocError>
    requires { length others.now + 1 < 2 ^ 64 }
    ensures text { OnOk result (out.new.items
        ≡ out.old.items ++ many_text sample_text (first ∷ values_in others.now)) }
    ensures spelled { OnOk result (AreMany IsSample (first ∷ values_in others.now)) }
{
    put_count(out, others.len() + 1)?;
    put_sample(out, first)?;
    for sample in others {
        put_sample(out, sample.1)?;
    }
    Ok(())
}

/// Appends a run: the others have the label set of the first.
#[tactic(auto, unfolding(crate::specs::Spelling::run_text))]
fn put_run(
    out: &mut Vec<u8>,
    first: &(LabelSet, Sample),
    others: &[(LabelSet, Sample)],
) -> Result<(), AllocError>
    requires { length others.now + 1 < 2 ^ 64 }
    ensures text { OnOk result (out.new.items
        ≡ out.old.items ++ run_text (first.now.0, first.now.1 ∷ values_in others.now)) }
    ensures spelled { OnOk result (IsRun (first.now.0, first.now.1 ∷ values_in others.now)) }
{
    put_labels(out, &first.0)?;
    put_samples(out, first.1, others)
}

fn put_runs(out: &mut Vec<u8>, samples: &[(LabelSet, Sample)]) -> Result<(), AllocError>
    ensures text { OnOk result (out.new.items
        ≡ out.old.items ++ many_text run_text (runs_of samples.now)) }
    ensures spelled { OnOk result (AreMany IsRun (runs_of samples.now)) }
{
    put_count(out, run_count(samples))?;
    let mut rest = samples;
    'runs: while let Some((first, others)) = rest.split_first() {
        let (run, after) = others.split_at(lead(&first.0, others));
        put_run(out, first, run)?;
        rest = after;
    }
    Ok(())
}

#[tactic(auto, unfolding(crate::specs::Spelling::run_text))]
fn put_row(out: &mut Vec<u8>, row: &Row) -> Result<(), AllocError>
    requires { 0 < length row.now.1 }
    ensures text { OnOk result (out.new.items ≡ out.old.items ++ run_text row.now) }
    ensures spelled { OnOk result (IsRun row.now) }
{
    put_labels(out, row.labels())?;
    put_each_sample(out, row.samples())
}

fn put_each_row(out: &mut Vec<u8>, rows: &[Row]) -> Result<(), AllocError>
    requires { list_all is_filled rows.now ≡ true }
    ensures text { OnOk result (out.new.items ≡ out.old.items ++ many_text run_text rows.now) }
    ensures spelled { OnOk result (AreMany IsRun rows.now) }
{
    put_count(out, rows.len())?;
    for row in rows {
        put_row(out, row)?;
    }
    Ok(())
}

fn op_number(op: Op) -> u8
    ensures { result ≡ op_number op }
{
    match op {
        Op::Equal => 0,
        Op::NotEqual => 1,
        Op::Like => 2,
        Op::NotLike => 3,
    }
}

#[tactic(auto, unfolding(crate::specs::Spelling::matcher_text))]
fn put_matcher(out: &mut Vec<u8>, matcher: &Matcher) -> Result<(), AllocError>
    ensures text { OnOk result (out.new.items ≡ out.old.items ++ matcher_text matcher.now) }
    ensures spelled { OnOk result (IsMatcher matcher.now) }
{
    put_u8(out, op_number(matcher.op()))?;
    put_pair(out, matcher.name(), matcher.text())
}

fn put_matchers(out: &mut Vec<u8>, matchers: &[Matcher]) -> Result<(), AllocError>
    ensures text { OnOk result (out.new.items
        ≡ out.old.items ++ many_text matcher_text matchers.now) }
    ensures spelled { OnOk result (AreMany IsMatcher matchers.now) }
{
    put_count(out, matchers.len())?;
    for matcher in matchers {
        put_matcher(out, matcher)?;
    }
    Ok(())
}

/// Appends the one text of a batch. Where memory runs out, some of it may stand there.
#[tactic(auto, unfolding(crate::specs::Spelling::event_text))]
pub fn put_batch(out: &mut Vec<u8>, samples: &[(LabelSet, Sample)]) -> Result<(), AllocError>
    ensures text { OnOk result (out.new.items ≡ out.old.items ++ event_text (batch samples.now)) }
    ensures spelled { OnOk result (HasSpelling (batch samples.now)) }
{
    put_u8(out, 1)?;
    put_runs(out, samples)
}

/// Appends the text of a batch whose runs stand in rows.
fn put_run_rows(out: &mut Vec<u8>, rows: &[Row]) -> Result<(), AllocError>
    requires { are_runs rows.now ≡ true }
    ensures text { OnOk result (out.new.items
        ≡ out.old.items ++ event_text (batch (batch_of_rows rows.now))) }
    ensures spelled { OnOk result (HasSpelling (batch (batch_of_rows rows.now))) }
{
    put_u8(out, 1)?;
    put_each_row(out, rows)
}

/// Appends the one text of the batch that rows are. Where memory runs out, some of it may stand
/// there.
///
/// Rows that are runs are written as they stand: each has a sample, and another label set than the
/// next. Else the batch is made first, whose samples share the label sets.
pub fn put_rows(alloc: Global, out: &mut Vec<u8>, rows: &[Row]) -> Result<(), AllocError>
    ensures text { OnOk result (out.new.items
        ≡ out.old.items ++ event_text (batch (batch_of_rows rows.now))) }
    ensures spelled { OnOk result (HasSpelling (batch (batch_of_rows rows.now))) }
{
    if are_runs(rows) {
        return put_run_rows(out, rows);
    }
    let batch = batch_in(alloc, rows)?;
    put_batch(out, &batch)
}

/// Appends the one text of a deletion. Where memory runs out, some of it may stand there.
#[tactic(auto, unfolding(crate::specs::Spelling::event_text))]
pub fn put_deletion(
    out: &mut Vec<u8>,
    matchers: &[Matcher],
    from: i64,
    to: i64,
) -> Result<(), AllocError>
    ensures text { OnOk result (out.new.items
        ≡ out.old.items ++ event_text (deletion matchers.now from to)) }
    ensures spelled { OnOk result (HasSpelling (deletion matchers.now from to)) }
{
    put_u8(out, 2)?;
    put_matchers(out, matchers)?;
    put_varint(out, from)?;
    put_varint(out, to)
}

/// Appends the one text of a cut. Where memory runs out, some of it may stand there.
#[tactic(auto, unfolding(crate::specs::Spelling::event_text))]
pub fn put_cut(out: &mut Vec<u8>, at: i64) -> Result<(), AllocError>
    ensures text { OnOk result (out.new.items ≡ out.old.items ++ event_text (cut at)) }
    ensures spelled { OnOk result (HasSpelling (cut at)) }
{
    put_u8(out, 3)?;
    put_varint(out, at)
}

/// Each event has one text, and no two have the same.
pub fn one_spelling()
    ensures { (a b : Event) → HasSpelling a → HasSpelling b → event_text a ≡ event_text b → a ≡ b }
{}

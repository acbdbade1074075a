//! Whole texts.

ghost use Rattle.std.specs.Prelude.{◌≡◌, ◌≤◌, None, Ok, IfErr, IfOk, OnOk, MatchResult};
ghost use Rattle.open_metrics.specs.Lines.{line_at, meaning_in, sample_in};
ghost use Rattle.exposition.specs.Faults.{line_fault, meaning_fault, pairs_fault};
ghost use Rattle.exposition.specs.Faults.{pairs_of_sample, sample_fault};
ghost use Rattle.exposition.specs.Reading.{Adds, AddAll, AddsLine, AddsNear, AddsSample};
ghost use Rattle.exposition.specs.Reading.{AddsValue, IsText, HasExemplars};
ghost use Rattle.exposition.specs.Reading.{exemplars_in, has_exemplar, is_exemplar};
ghost use Rattle.exposition.specs.Reading.{IsValueAs, fractions_in};
ghost use Rattle.exposition.specs.Reading.{Said, place_of, said_in, texts_in, told_in, unsaid};
ghost use Rattle.exposition.specs.Refusing.{Gives, IfRefused, IsFirstWrong, IsFor, IsRefused};
ghost use Rattle.exposition.specs.Runs.{AreRising};
ghost use Rattle.exposition.specs.Series.{IsCausedBy};
ghost use Rattle.labels.specs.LabelSets.{IsMadeOf};

use crate::error::{Cause, ReadError};
use crate::lines::{Numbered, column_at, lines_of, refused};
use crate::runs::Runs;
use crate::series::{NoLabels, label_set};
use crate::values::double_in;
use labels::{LabelSet, Row, Sample, is_time};
use open_metrics::{Fault, Format, Line, SampleLine, Value, read_line};
use std::alloc::{AllocError, Global};

/// What becomes of values that are no whole numbers of parts, but have a nearest one.
#[derive(Clone, Copy, Debug, PartialEq, Eq, Drop)]
pub enum Fractions {
    /// They are told beside the rows.
    Beside,
    /// They stand in the rows as the nearest number of parts, of two the even one.
    Rounded,
}

/// What the values of a text are read as.
#[derive(Clone, Copy, Debug, PartialEq, Eq, Drop)]
pub enum Reading {
    /// Decimals, in parts of which a power of ten make one; and what becomes of the fractions of
    /// these.
    Decimals(Fractions),
    /// The doubles nearest to them, each of which is kept as the number for it.
    Doubles,
}

/// The time of a sample whose value is not kept as it is written, and where its value stands.
#[derive(Clone, Copy, Debug, PartialEq, Eq, Drop)]
pub struct Left {
    /// Its time, in milliseconds.
    pub t: i64,
    /// The number of its line, from 1.
    pub line: u64,
    /// The column of its value in bytes, from 1.
    pub column: u64,
}

/// What a text says.
#[derive(Drop)]
pub struct Exposition {
    /// Rows whose times ascend. A label set may have several: what stands in a row counts before
    /// what stands in rows behind it.
    pub rows: Vec<Row>,
    /// The samples that do not stand in the rows, in the order of their lines: their values are no
    /// whole numbers of parts, or are 2^63 parts and more in size.
    pub others: Vec<Left>,
    /// The samples whose values were rounded, in the order of their lines.
    pub rounded: Vec<Left>,
    /// How many lines have an exemplar behind their sample. No exemplar is kept.
    pub exemplars: u64,
}

/// What lines say.
#[derive(Drop)]
struct Gathered {
    runs: Runs,
    others: Vec<Left>,
    rounded: Vec<Left>,
}

fn fractions_in(reading: Reading) -> Fractions
    ensures { result ≡ fractions_in reading }
{
    match reading {
        Reading::Decimals(fractions) => fractions,
        Reading::Doubles => Fractions::Beside,
    }
}

// The value of a sample, as it is asked for.
fn value_as(reading: Reading, at: Numbered<'_>, sample: &SampleLine<'_>) -> Value
    ensures { IsValueAs reading at.entry.line.now (sample_in sample.now) result }
{
    match reading {
        Reading::Decimals(_) => sample.value,
        Reading::Doubles => double_in(at.line, sample.from_value),
    }
}

fn left_in(at: Numbered<'_>, sample: &SampleLine<'_>) -> Left
    ensures { result ≡ place_of at.entry.number at.entry.line.now (sample_in sample.now) }
{
    Left {
        t: sample.t,
        line: at.number,
        column: column_at(at.line, sample.from_value),
    }
}

fn no_labels(number: u64, error: NoLabels) -> ReadError
    ensures { IfRefused result (IsCausedBy number error) }
{
    match error.cause {
        Some(cause) => refused(number, 1, cause),
        None => ReadError::Memory,
    }
}

// The label set of a sample whose time is one of samples.
#[tactic(auto, using(crate::proofs::Places::labels_wrong, crate::proofs::Places::time_wrong, crate::proofs::Places::none_wrong))]
fn labels_of(
    alloc: Global,
    at: Numbered<'_>,
    sample: &SampleLine<'_>,
) -> Result<LabelSet, ReadError>
    ensures { MatchResult result
        (λ l. IsMadeOf l (pairs_of_sample (sample_in sample.now))
        × (sample_fault at.entry.line.now (sample_in sample.now) ≡ None))
        (λ e. IfRefused e
        (IsFor at.entry.number (sample_fault at.entry.line.now (sample_in sample.now)))) }
{
    let labels = match label_set(alloc, sample) {
        Ok(labels) => labels,
        Err(error) => return Err(no_labels(at.number, error)),
    };
    if !is_time(sample.t) {
        let column = column_at(at.line, sample.from_time);
        return Err(refused(at.number, column, Cause::Time));
    }
    Ok(labels)
}

// Adds a value that is no whole number of parts, and the nearest.
fn add_near(
    alloc: Global,
    fractions: Fractions,
    gathered: &mut Gathered,
    labels: &LabelSet,
    v: i64,
    place: Left,
) -> Result<(), AllocError>
    ensures { OnOk result
        (AddsNear fractions v labels.now place (said_in gathered.old) (said_in gathered.new)) }
{
    match fractions {
        Fractions::Beside => gathered.others.push(place)?,
        Fractions::Rounded => {
            gathered.runs.put(alloc, labels, Sample::new(place.t, v))?;
            gathered.rounded.push(place)?;
        }
    }
    Ok(())
}

fn add_value(
    alloc: Global,
    fractions: Fractions,
    gathered: &mut Gathered,
    labels: &LabelSet,
    value: Value,
    place: Left,
) -> Result<(), AllocError>
    ensures { OnOk result
        (AddsValue fractions value labels.now place (said_in gathered.old) (said_in gathered.new)) }
{
    match value {
        Value::Parts(v) => gathered.runs.put(alloc, labels, Sample::new(place.t, v))?,
        Value::Near(v) => add_near(alloc, fractions, gathered, labels, v, place)?,
        Value::Other => gathered.others.push(place)?,
    }
    Ok(())
}

fn add_sample(
    alloc: Global,
    reading: Reading,
    gathered: &mut Gathered,
    sample: &SampleLine<'_>,
    at: Numbered<'_>,
) -> Result<(), ReadError>
    ensures adds { OnOk result (AddsSample reading at.entry.number at.entry.line.now
        (sample_in sample.now) (said_in gathered.old) (said_in gathered.new)) }
    ensures wrong { IfErr result (λ e. IfRefused e
        (IsFor at.entry.number (sample_fault at.entry.line.now (sample_in sample.now)))) }
{
    let labels = labels_of(alloc, at, sample)?;
    let place = left_in(at, sample);
    let value = value_as(reading, at, sample);
    add_value(
        alloc,
        fractions_in(reading),
        gathered,
        &labels,
        value,
        place,
    )?;
    Ok(())
}

// Adds what a line says, and tells whether an exemplar stands behind it.
fn add_read(
    alloc: Global,
    reading: Reading,
    gathered: &mut Gathered,
    read: Line<'_>,
    at: Numbered<'_>,
) -> Result<bool, ReadError>
    ensures adds { OnOk result (Adds reading at.entry.number at.entry.line.now
        (meaning_in read.entry) (said_in gathered.old) (said_in gathered.new)) }
    ensures told { IfOk result (λ has. has ≡ is_exemplar (meaning_in read.entry)) }
    ensures wrong { IfErr result (λ e. IfRefused e
        (IsFor at.entry.number (meaning_fault at.entry.line.now (Ok (meaning_in read.entry))))) }
{
    match read {
        Line::Nothing => Ok(false),
        Line::End => Err(refused(at.number, 1, Cause::End)),
        Line::Sample(sample) => {
            add_sample(alloc, reading, gathered, &sample, at)?;
            Ok(sample.exemplar)
        }
    }
}

fn line_of(
    alloc: Global,
    format: Format,
    places: u32,
    at: Numbered<'_>,
) -> Result<Line<'_>, ReadError>
    requires { places ≤ 9 }
    ensures found { IfOk result (λ l. line_at format places at.entry.line.now ≡ Ok (meaning_in l)) }
    ensures wrong { IfErr result (λ e. IfRefused e
        (IsFor at.entry.number (line_fault format places at.entry.line.now))) }
{
    match read_line(alloc, format, places, at.line) {
        Ok(read) => Ok(read),
        Err(Fault::Memory) => Err(ReadError::Memory),
        Err(Fault::At(reason, left)) => {
            let column = column_at(at.line, left);
            Err(refused(at.number, column, Cause::Line(reason)))
        }
    }
}

fn add_line(
    alloc: Global,
    format: Format,
    places: u32,
    reading: Reading,
    gathered: &mut Gathered,
    at: Numbered<'_>,
) -> Result<bool, ReadError>
    requires { places ≤ 9 }
    ensures adds { OnOk result (AddsLine format places reading at.entry.number
        at.entry.line.now (said_in gathered.old) (said_in gathered.new)) }
    ensures told { IfOk result (λ has. has ≡ has_exemplar format places at.entry.line.now) }
    ensures wrong { IfErr result (λ e. IfRefused e
        (IsFor at.entry.number (line_fault format places at.entry.line.now))) }
{
    let read = line_of(alloc, format, places, at)?;
    let has = add_read(alloc, reading, gathered, read, at)?;
    Ok(has)
}

// What lines say, and how many of them have an exemplar.
fn gather(
    alloc: Global,
    format: Format,
    places: u32,
    reading: Reading,
    lines: &[&[u8]],
) -> Result<(Gathered, u64), ReadError>
    requires { places ≤ 9 }
    ensures adds { IfOk result (λ g.
        AddAll format places reading 1 (texts_in lines.now) unsaid (said_in g.0)) }
    ensures counted { IfOk result
        (λ g. g.1 ≡ exemplars_in format places (texts_in lines.now)) }
    ensures wrong { IfErr result (λ e. IfRefused e
        (IsFirstWrong format places reading (texts_in lines.now))) }
{
    let mut gathered = Gathered {
        runs: Runs::new(alloc),
        others: Vec::new(alloc),
        rounded: Vec::new(alloc),
    };
    let mut exemplars = 0u64;
    let mut number = 1u64;
    for line in lines {
        let at = Numbered { number, line };
        let has = add_line(alloc, format, places, reading, &mut gathered, at)?;
        exemplars += u64::from(has);
        number += 1;
    }
    Ok((gathered, exemplars))
}

#[tactic(auto, using(crate::proofs::Refusals::text_read, crate::proofs::Refusals::exemplars_read, crate::proofs::Refusals::end_missing, crate::proofs::Refusals::line_wrong))]
fn read_lines(
    alloc: Global,
    format: Format,
    places: u32,
    reading: Reading,
    text: &[u8],
) -> Result<Exposition, ReadError>
    requires { places ≤ 9 }
    ensures found { IfOk result (λ e. IsText format places reading text.now (told_in e)) }
    ensures rise { IfOk result (λ e. AreRising e.rows.items) }
    ensures exemplars { IfOk result (λ e. HasExemplars format places text.now e.exemplars) }
    ensures refused { IfErr result
        (λ e. IfRefused e (IsRefused format places reading text.now)) }
{
    let lines = lines_of(alloc, format, text)?;
    let (gathered, exemplars) = gather(alloc, format, places, reading, lines.as_slice())?;
    let Gathered {
        runs,
        others,
        rounded,
    } = gathered;
    Ok(Exposition {
        rows: runs.into_rows(),
        others,
        rounded,
        exemplars,
    })
}

/// The samples of a text in rows. Values are read as decimals, in parts of which 10^places make
/// one, and fractions of these are rounded, or told beside the rows; or as doubles, each the
/// nearest to what the text writes.
///
/// A text of OpenMetrics without its end is refused, and then the first line that is wrong. It
/// takes time in proportion to the text.
pub fn read_text(
    alloc: Global,
    format: Format,
    places: u32,
    reading: Reading,
    text: &[u8],
) -> Result<Exposition, ReadError>
    requires { places ≤ 9 }
    // Line by line, the text says the samples that the rows hold and the others, and no more.
    ensures found { IfOk result (λ e. IsText format places reading text.now (told_in e)) }
    ensures rise { IfOk result (λ e. AreRising e.rows.items) }
    // The lines with an exemplar are counted.
    ensures exemplars { IfOk result (λ e. HasExemplars format places text.now e.exemplars) }
    // The end that is missing is told, or the first line that is wrong: its number, where, and why.
    ensures refused { IfErr result
        (λ e. IfRefused e (IsRefused format places reading text.now)) }
    // A text that says something gives it, unless memory runs out.
    ensures only { (said : Said) → IsText format places reading text.now said
        → Gives told_in result (Ok said) }
{
    read_lines(alloc, format, places, reading, text)
}

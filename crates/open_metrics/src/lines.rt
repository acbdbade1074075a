//! Lines of a text.

ghost use Rattle.std.specs.Prelude.{◌≡◌, ◌≤◌, IfOk, Ok};
ghost use Rattle.open_metrics.specs.Grammar.{IfSampled, IsSample};
ghost use Rattle.open_metrics.specs.Lines.{empty_in, exemplar_at, line_at, line_in, meaning_in};
ghost use Rattle.open_metrics.specs.Lines.{of_comment};
ghost use Rattle.open_metrics.specs.Lines.{sample_at, sample_in, tail_at, tail_in, time_at};
ghost use Rattle.open_metrics.specs.Lines.{Sampled, sampled, time_places, value_at};
ghost use Rattle.open_metrics.specs.Outcome.{Gives};

use crate::comments::{Format, read_comment};
use crate::error::{Fault, Reason};
use crate::labels::{Label, cut_labels};
use crate::numbers::{Value, number};
use crate::tokens::{Class, cut_byte, cut_gap, cut_name, cut_word, skip_blanks};
use std::alloc::Global;

/// A sample, as a line writes it.
#[derive(Drop)]
pub struct SampleLine<'a> {
    /// The name of its metric, in ASCII.
    pub name: &'a [u8],
    /// Its other labels, in the order of the line. A name may stand twice.
    pub labels: Vec<Label<'a>>,
    /// Its value, in the parts that were asked for.
    pub value: Value,
    /// Its time, in milliseconds.
    pub t: i64,
    /// Whether an exemplar stands behind it.
    pub exemplar: bool,
    /// How many bytes of the line stand from the value on.
    pub from_value: usize,
    /// How many bytes of the line stand from the time on.
    pub from_time: usize,
}

/// What a line says.
#[derive(Drop)]
pub enum Line<'a> {
    /// Nothing of samples: it is empty, or a comment.
    Nothing,
    /// The text of OpenMetrics ends with it.
    End,
    /// A sample.
    Sample(SampleLine<'a>),
}

#[tactic(auto, unfolding(crate::specs::Lines::value_at))]
fn cut_value(places: u32, bytes: &[u8]) -> Result<(Value, &[u8]), Fault>
    requires { places ≤ 9 }
    ensures { Gives (λ x. (x.0, x.1.now)) result (value_at places bytes.now) }
{
    let (word, rest) = cut_word(Class::Word, bytes);
    let Some(value) = number(word, places) else {
        return Err(Fault::At(Reason::Value, bytes.len()));
    };
    Ok((value, rest))
}

fn time_places(format: Format) -> u32
    ensures is { result ≡ time_places format }
    ensures few { result ≤ 9 }
{
    match format {
        Format::OpenMetrics => 3,
        Format::Prometheus => 0,
    }
}

#[tactic(auto, unfolding(crate::specs::Lines::time_at))]
fn cut_time(format: Format, bytes: &[u8]) -> Result<(i64, &[u8]), Fault>
    ensures { Gives (λ x. (x.0, x.1.now)) result (time_at format bytes.now) }
{
    let (word, rest) = cut_word(Class::Word, bytes);
    match number(word, time_places(format)) {
        Some(Value::Parts(t)) => Ok((t, rest)),
        Some(Value::Near(_)) => Err(Fault::At(Reason::Time, bytes.len())),
        Some(Value::Other) => Err(Fault::At(Reason::Time, bytes.len())),
        None => Err(Fault::At(Reason::Time, bytes.len())),
    }
}

#[tactic(auto, unfolding(crate::specs::Lines::exemplar_at))]
fn read_exemplar(bytes: &[u8]) -> Result<bool, Fault>
    ensures { Gives (λ x. x) result (exemplar_at bytes.now) }
{
    let a = cut_byte(b' ', Reason::After, bytes)?;
    let b = cut_byte(b'#', Reason::After, a)?;
    let c = cut_byte(b' ', Reason::After, b)?;
    cut_byte(b'{', Reason::After, c)?;
    Ok(true)
}

fn read_tail_in(format: Format, bytes: &[u8]) -> Result<bool, Fault>
    ensures { Gives (λ x. x) result (tail_in format bytes.now) }
{
    match format {
        Format::OpenMetrics => read_exemplar(bytes),
        Format::Prometheus => Err(Fault::At(Reason::After, bytes.len())),
    }
}

#[tactic(auto, unfolding(crate::specs::Lines::tail_at))]
fn read_tail(format: Format, bytes: &[u8]) -> Result<bool, Fault>
    ensures { Gives (λ x. x) result (tail_at format bytes.now) }
{
    if bytes.is_empty() {
        return Ok(false);
    }
    read_tail_in(format, bytes)
}

#[tactic(auto, unfolding(crate::specs::Lines::sample_at))]
fn read_sample(
    alloc: Global,
    format: Format,
    places: u32,
    line: &[u8],
) -> Result<SampleLine<'_>, Fault>
    requires { places ≤ 9 }
    ensures { Gives sample_in result (sample_at format places line.now) }
{
    let (name, rest) = cut_name(Class::Metric, Reason::Name, line)?;
    let (labels, rest) = cut_labels(alloc, format, rest)?;
    let value_text = cut_gap(format, Reason::Value, rest)?;
    let (value, rest) = cut_value(places, value_text)?;
    let time_text = cut_gap(format, Reason::Time, rest)?;
    let (t, rest) = cut_time(format, time_text)?;
    let exemplar = read_tail(format, rest)?;
    Ok(SampleLine {
        name,
        labels,
        value,
        t,
        exemplar,
        from_value: value_text.len(),
        from_time: time_text.len(),
    })
}

fn read_empty<'a>(format: Format) -> Result<Line<'a>, Fault>
    ensures { Gives meaning_in result (empty_in format) }
{
    match format {
        Format::OpenMetrics => Err(Fault::At(Reason::Comment, 0)),
        Format::Prometheus => Ok(Line::Nothing),
    }
}

fn of_comment<'a>(ends: bool) -> Line<'a>
    ensures { meaning_in result ≡ of_comment ends }
{
    if ends { Line::End } else { Line::Nothing }
}

#[tactic(auto, unfolding(crate::specs::Lines::line_in))]
fn line_in(alloc: Global, format: Format, places: u32, line: &[u8]) -> Result<Line<'_>, Fault>
    requires { places ≤ 9 }
    ensures { Gives meaning_in result (line_in format places line.now) }
{
    let Some((first, rest)) = line.split_first() else {
        return read_empty(format);
    };
    if *first == b'#' {
        let ends = read_comment(format, rest)?;
        return Ok(of_comment(ends));
    }
    let sample = read_sample(alloc, format, places, line)?;
    Ok(Line::Sample(sample))
}

fn line_of(alloc: Global, format: Format, places: u32, line: &[u8]) -> Result<Line<'_>, Fault>
    requires { places ≤ 9 }
    ensures { Gives meaning_in result (line_at format places line.now) }
{
    line_in(alloc, format, places, skip_blanks(format, line))
}

/// What a line says, without the end of the line; values are counted in parts of which 10^places
/// make one.
///
/// The first fault is answered, with how many bytes of the line stand from its place on. The texts
/// of labels are copied, and nothing else is. It takes time in proportion to the line's length.
pub fn read_line(alloc: Global, format: Format, places: u32, line: &[u8]) -> Result<Line<'_>, Fault>
    requires { places ≤ 9 }
    // The first fault is answered; if there is none, what reading gives.
    ensures exact { Gives meaning_in result (line_at format places line.now) }
    // A sample that is given is the one that the line spells.
    ensures found { IfOk result
        (λ l. IfSampled (meaning_in l) (IsSample format places line.now)) }
    // A line that spells a sample gives it, unless memory runs out.
    ensures only { (s : Sampled) → IsSample format places line.now s
        → Gives meaning_in result (Ok (sampled s)) }
{
    line_of(alloc, format, places, line)
}

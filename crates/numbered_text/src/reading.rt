//! The text that a content by number stands for.

ghost use Rattle.std.specs.Prelude.{◌≡◌, ◌<◌, ◌≤◌, ◌^◌, ◌++◌, IfOk, OnOk, length};
ghost use Rattle.wire.specs.Outcome.{Takes, or_refused};
ghost use Rattle.wire.specs.Reading.{uvarint_at};
ghost use Rattle.wire.specs.Spelling.{uvarint, varint, zigzag};
ghost use Rattle.numbered_text.specs.declared.error.NumberError.TheVariants.{Field};
ghost use Rattle.numbered_text.specs.Each.{each_at, many_at, with_front};
ghost use Rattle.numbered_text.specs.Outcome.{Gives};
ghost use Rattle.numbered_text.specs.Reading.{label_at, name_at, new_at, numbered_at, time_after};
ghost use Rattle.numbered_text.specs.Reading.{past_label, past_pairs, past_text, plain_of, run_at};
ghost use Rattle.numbered_text.specs.Reading.{runs_of, sample_at};

use crate::error::NumberError;
use crate::parts::Time;
use labels::is_time;
use name_table::NameTable;
use std::alloc::{AllocError, Global};
use wire::{Cut, put_bytes, put_u8, put_uvarint, put_varint};

#[tactic(auto, unfolding(crate::specs::Reading::past_text))]
fn past_text(bytes: &[u8]) -> Result<&[u8], NumberError>
    ensures exact { Gives (λ rest. rest.now) result (past_text bytes.now) }
    ensures shorter { IfOk result (λ rest. length rest.now ≤ length bytes.now) }
{
    let mut cut = Cut::new(bytes);
    let len = cut.uvarint().or(Err(NumberError::Field))?;
    let _text = cut.bytes(len as usize).or(Err(NumberError::Field))?;
    Ok(cut.rest())
}

fn past_pairs(bytes: &[u8], count: u64) -> Result<&[u8], NumberError>
    ensures exact { Gives (λ rest. rest.now) result (past_pairs count bytes.now) }
    ensures shorter { IfOk result (λ rest. length rest.now ≤ length bytes.now) }
{
    let mut rest = bytes;
    for counter in 0..count {
        let value = past_text(rest)?;
        let after = past_text(value)?;
        rest = after;
    }
    Ok(rest)
}

#[tactic(auto, unfolding(crate::specs::Reading::past_label))]
fn past_label(bytes: &[u8]) -> Result<&[u8], NumberError>
    ensures exact { Gives (λ rest. rest.now) result (past_label bytes.now) }
    ensures shorter { IfOk result (λ rest. length rest.now ≤ length bytes.now) }
{
    let mut cut = Cut::new(bytes);
    let count = cut.uvarint().or(Err(NumberError::Field))?;
    past_pairs(cut.rest(), count)
}

/// The text of the label set in front, and the bytes after it.
#[tactic(auto, unfolding(crate::specs::Reading::label_at))]
pub(crate) fn label_of(bytes: &[u8]) -> Result<(&[u8], &[u8]), NumberError>
    ensures { Gives (λ x. (x.0.now, x.1.now)) result (label_at bytes.now) }
{
    let rest = past_label(bytes)?;
    Ok((bytes.split_at(bytes.len() - rest.len()).0, rest))
}

/// A label set that has no number: it gets the next one.
#[tactic(auto, unfolding(crate::specs::Reading::new_at))]
fn push_new<'a>(
    alloc: Global,
    out: &mut Vec<u8>,
    names: &mut NameTable,
    bytes: &'a [u8],
) -> Result<&'a [u8], NumberError>
    ensures { Gives (λ rest. ((out.new.items, names.new), rest.now)) result
        (with_front out.old.items (new_at names.old bytes.now)) }
{
    let (label, rest) = label_of(bytes)?;
    if names.number_of(label) != names.len() {
        return Err(NumberError::Named);
    }
    put_bytes(out, label)?;
    names.push(Vec::from_slice(alloc, label)?)?;
    Ok(rest)
}

/// The label set of a number.
fn push_numbered<'a>(
    alloc: Global,
    out: &mut Vec<u8>,
    names: &mut NameTable,
    number: u64,
    bytes: &'a [u8],
) -> Result<&'a [u8], NumberError>
    ensures { Gives (λ rest. ((out.new.items, names.new), rest.now)) result
        (with_front out.old.items (numbered_at names.old number bytes.now)) }
{
    if let Some(label) = names.get(number as usize) {
        put_bytes(out, label)?;
        return Ok(bytes);
    }
    if number as usize != names.len() {
        return Err(NumberError::Number);
    }
    push_new(alloc, out, names, bytes)
}

/// A number, and the label set where it is new.
#[tactic(auto, unfolding(crate::specs::Reading::name_at))]
fn push_name<'a>(
    alloc: Global,
    out: &mut Vec<u8>,
    names: &mut NameTable,
    bytes: &'a [u8],
) -> Result<&'a [u8], NumberError>
    ensures { Gives (λ rest. ((out.new.items, names.new), rest.now)) result
        (with_front out.old.items (name_at names.old bytes.now)) }
{
    let mut cut = Cut::new(bytes);
    let number = cut.uvarint().or(Err(NumberError::Field))?;
    push_numbered(alloc, out, names, number, cut.rest())
}

/// The time so much later than a time.
#[tactic(auto, unfolding(crate::specs::Reading::time_after))]
fn time_after(before: Time, step: i64) -> Option<i64>
    ensures { result ≡ time_after before step }
{
    let time = before.at().checked_add(step)?;
    if !is_time(time) {
        return None;
    }
    Some(time)
}

/// Appends the text of a sample.
pub(crate) fn push_text(out: &mut Vec<u8>, time: i64, value: i64) -> Result<(), AllocError>
    ensures ok { OnOk result (out.new.items ≡ out.old.items ++ (varint time ++ varint value)) }
    ensures small { (zigzag time < 2 ^ 64) × (zigzag value < 2 ^ 64) }
{
    put_varint(out, time)?;
    put_varint(out, value)
}

/// A sample after a time, which becomes its own.
#[tactic(auto, unfolding(crate::specs::Reading::sample_at))]
fn push_sample<'a>(
    out: &mut Vec<u8>,
    time: &mut Time,
    bytes: &'a [u8],
) -> Result<&'a [u8], NumberError>
    ensures { Gives (λ rest. ((out.new.items, time.new), rest.now)) result
        (with_front out.old.items (sample_at time.old bytes.now)) }
{
    let mut cut = Cut::new(bytes);
    let step = cut.varint().or(Err(NumberError::Field))?;
    let value = cut.varint().or(Err(NumberError::Field))?;
    let Some(at) = time_after(*time, step) else {
        return Err(NumberError::Bounds);
    };
    push_text(out, at, value)?;
    *time = Time::new(at);
    Ok(cut.rest())
}

fn push_each_sample<'a>(
    out: &mut Vec<u8>,
    time: &mut Time,
    bytes: &'a [u8],
    count: u64,
) -> Result<&'a [u8], NumberError>
    ensures { Gives (λ rest. ((out.new.items, time.new), rest.now)) result
        (with_front out.old.items (each_at sample_at count time.old bytes.now)) }
{
    let mut rest = bytes;
    for counter in 0..count {
        let after = push_sample(out, time, rest)?;
        rest = after;
    }
    Ok(rest)
}

/// How many items, and the bytes after that.
pub(crate) fn count_of(bytes: &[u8]) -> Result<(u64, &[u8]), NumberError>
    ensures exact { Gives (λ x. (x.0, x.1.now)) result (or_refused Field (uvarint_at bytes.now)) }
    ensures found { IfOk result (λ x. Takes (uvarint x.0) bytes.now x.1.now) }
    ensures small { IfOk result (λ x. x.0 < 2 ^ 64) }
{
    let mut cut = Cut::new(bytes);
    let count = cut.uvarint().or(Err(NumberError::Field))?;
    Ok((count, cut.rest()))
}

fn push_samples<'a>(
    out: &mut Vec<u8>,
    time: &mut Time,
    bytes: &'a [u8],
) -> Result<&'a [u8], NumberError>
    ensures { Gives (λ rest. ((out.new.items, time.new), rest.now)) result
        (with_front out.old.items (many_at sample_at time.old bytes.now)) }
{
    let (count, rest) = count_of(bytes)?;
    put_uvarint(out, count)?;
    push_each_sample(out, time, rest, count)
}

fn push_run<'a>(
    alloc: Global,
    out: &mut Vec<u8>,
    names: &mut NameTable,
    time: &mut Time,
    bytes: &'a [u8],
) -> Result<&'a [u8], NumberError>
    ensures { Gives (λ rest. ((out.new.items, (names.new, time.new)), rest.now)) result
        (with_front out.old.items (run_at (names.old, time.old) bytes.now)) }
{
    let rest = push_name(alloc, out, names, bytes)?;
    push_samples(out, time, rest)
}

fn push_each_run<'a>(
    alloc: Global,
    out: &mut Vec<u8>,
    names: &mut NameTable,
    time: &mut Time,
    bytes: &'a [u8],
    count: u64,
) -> Result<&'a [u8], NumberError>
    ensures { Gives (λ rest. ((out.new.items, (names.new, time.new)), rest.now)) result
        (with_front out.old.items (each_at run_at count (names.old, time.old) bytes.now)) }
{
    let mut rest = bytes;
    for counter in 0..count {
        let after = push_run(alloc, out, names, time, rest)?;
        rest = after;
    }
    Ok(rest)
}

fn push_runs<'a>(
    alloc: Global,
    out: &mut Vec<u8>,
    names: &mut NameTable,
    time: &mut Time,
    bytes: &'a [u8],
) -> Result<&'a [u8], NumberError>
    ensures { Gives (λ rest. ((out.new.items, (names.new, time.new)), rest.now)) result
        (with_front out.old.items (many_at run_at (names.old, time.old) bytes.now)) }
{
    let (count, rest) = count_of(bytes)?;
    put_uvarint(out, count)?;
    push_each_run(alloc, out, names, time, rest, count)
}

/// The text of a batch, all of the bytes.
#[tactic(auto, unfolding(crate::specs::Reading::runs_of))]
fn batch_text(alloc: Global, names: &mut NameTable, bytes: &[u8]) -> Result<Vec<u8>, NumberError>
    ensures { Gives (λ text. (text.items, names.new)) result (runs_of names.old bytes.now) }
{
    let mut out = Vec::new(alloc);
    put_u8(&mut out, 1)?;
    let mut time = Time::new(0);
    let rest = push_runs(alloc, &mut out, names, &mut time, bytes)?;
    if rest.len() > 0 {
        return Err(NumberError::Rest);
    }
    Ok(out)
}

/// The text that a content stands for by the names that there are, and its names after them. One of
/// today's kinds stands for itself.
///
/// After an `Err` the names may be any.
pub fn plain_text(
    alloc: Global,
    names: &mut NameTable,
    content: &[u8],
) -> Result<Vec<u8>, NumberError>
    ensures { Gives (λ text. (text.items, names.new)) result (plain_of names.old content.now) }
{
    match content {
        [4, rest @ ..] => batch_text(alloc, names, rest),
        _ => Ok(Vec::from_slice(alloc, content)?),
    }
}

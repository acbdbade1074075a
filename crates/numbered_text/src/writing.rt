//! A content by number that stands for a text.

ghost use Rattle.std.specs.Prelude.{◌≡◌, ◌<◌, ◌≤◌, ◌^◌, ◌++◌, ◌∷◌, ◌-ℤ◌, [], Ok, IfOk, OnOk};
ghost use Rattle.std.specs.Prelude.{OnErr, length, true, false};
ghost use Rattle.wire.specs.Spelling.{uvarint, varint};
ghost use Rattle.labels.specs.Contents.{is_time};
ghost use Rattle.name_table.specs.Names.{number_of, BeginWith};
ghost use Rattle.numbered_text.specs.Each.{each_at, many_at};
ghost use Rattle.numbered_text.specs.Reading.{is_numbered, name_at, plain_of, run_at, sample_at};
ghost use Rattle.numbered_text.specs.Writing.{Writes};

use crate::error::NumberError;
use crate::parts::Time;
use crate::reading::{count_of, label_of, push_text};
use labels::is_time;
use name_table::NameTable;
use std::alloc::{AllocError, Global};
use wire::{Cut, put_bytes, put_u8, put_uvarint};

/// A content is not written by number where it would be longer than this.
const MAX_CONTENT: usize = 0x400_0000;

/// Names a label set that has no number, and appends its text.
fn name(
    alloc: Global,
    out: &mut Vec<u8>,
    names: &mut NameTable,
    label: &[u8],
) -> Result<(), AllocError>
    requires { number_of label.now names.old ≡ length names.old }
    ensures ok { OnOk result ((out.new.items ≡ out.old.items ++ label.now)
        × (names.new ≡ names.old ++ label.now ∷ [])) }
    ensures begins { BeginWith names.old names.new }
{
    put_bytes(out, label)?;
    names.push(Vec::from_slice(alloc, label)?)
}

/// Appends the number of a label set, and the label set if it is new.
fn put_number(
    alloc: Global,
    out: &mut Vec<u8>,
    names: &mut NameTable,
    label: &[u8],
) -> Result<(), AllocError>
    ensures old { OnOk result (number_of label.now names.old < length names.old
        → (out.new.items ≡ out.old.items ++ uvarint (number_of label.now names.old))
        × (names.new ≡ names.old)) }
    ensures new { OnOk result (number_of label.now names.old ≡ length names.old
        → (out.new.items ≡ out.old.items ++ (uvarint (length names.old) ++ label.now))
        × (names.new ≡ names.old ++ label.now ∷ [])) }
    ensures small { number_of label.now names.old < 2 ^ 64 }
    ensures begins { BeginWith names.old names.new }
{
    let number = names.number_of(label);
    put_uvarint(out, number as u64)?;
    if number < names.len() {
        return Ok(());
    }
    name(alloc, out, names, label)
}

/// Writes the label set in front by its number.
fn number_label<'a>(
    alloc: Global,
    out: &mut Vec<u8>,
    names: &mut NameTable,
    bytes: &'a [u8],
) -> Result<&'a [u8], NumberError>
    ensures ok { IfOk result (λ rest. Writes name_at names.old names.new bytes.now rest.now
        out.old.items out.new.items) }
    ensures begins { BeginWith names.old names.new }
{
    let (label, rest) = label_of(bytes)?;
    put_number(alloc, out, names, label)?;
    Ok(rest)
}

/// How much later a time is.
fn step(before: Time, time: i64) -> i64
    requires before { is_time before ≡ true }
    requires time { is_time time ≡ true }
    ensures { result ≡ time -ℤ before }
{
    time - before.at()
}

/// The time and the value in front, and the bytes after them.
fn sample_of(bytes: &[u8]) -> Result<(i64, i64, &[u8]), NumberError>
    ensures { IfOk result (λ x. bytes.now ≡ varint x.0 ++ (varint x.1 ++ x.2.now)) }
{
    let mut cut = Cut::new(bytes);
    let time = cut.varint().or(Err(NumberError::Field))?;
    let value = cut.varint().or(Err(NumberError::Field))?;
    Ok((time, value, cut.rest()))
}

/// Writes the sample in front by how much later it is.
fn number_sample<'a>(
    out: &mut Vec<u8>,
    time: &mut Time,
    bytes: &'a [u8],
) -> Result<&'a [u8], NumberError>
    requires { is_time time.old ≡ true }
    ensures ok { IfOk result (λ rest. Writes sample_at time.old time.new bytes.now rest.now
        out.old.items out.new.items) }
    ensures dated { is_time time.new ≡ true }
{
    let (at, value, rest) = sample_of(bytes)?;
    if !is_time(at) {
        return Err(NumberError::Bounds);
    }
    push_text(out, step(*time, at), value)?;
    *time = Time::new(at);
    Ok(rest)
}

fn number_each_sample<'a>(
    out: &mut Vec<u8>,
    time: &mut Time,
    bytes: &'a [u8],
    count: u64,
) -> Result<&'a [u8], NumberError>
    requires { is_time time.old ≡ true }
    ensures ok { IfOk result (λ rest. Writes (each_at sample_at count) time.old time.new bytes.now
        rest.now out.old.items out.new.items) }
    ensures dated { is_time time.new ≡ true }
{
    let mut rest = bytes;
    for counter in 0..count {
        let after = number_sample(out, time, rest)?;
        rest = after;
    }
    Ok(rest)
}

fn number_samples<'a>(
    out: &mut Vec<u8>,
    time: &mut Time,
    bytes: &'a [u8],
) -> Result<&'a [u8], NumberError>
    requires { is_time time.old ≡ true }
    ensures ok { IfOk result (λ rest. Writes (many_at sample_at) time.old time.new bytes.now
        rest.now out.old.items out.new.items) }
    ensures dated { is_time time.new ≡ true }
{
    let (count, rest) = count_of(bytes)?;
    put_uvarint(out, count)?;
    number_each_sample(out, time, rest, count)
}

fn number_run<'a>(
    alloc: Global,
    out: &mut Vec<u8>,
    names: &mut NameTable,
    time: &mut Time,
    bytes: &'a [u8],
) -> Result<&'a [u8], NumberError>
    requires { is_time time.old ≡ true }
    ensures ok { IfOk result (λ rest. Writes run_at (names.old, time.old) (names.new, time.new)
        bytes.now rest.now out.old.items out.new.items) }
    ensures dated { is_time time.new ≡ true }
    ensures begins { BeginWith names.old names.new }
{
    let rest = number_label(alloc, out, names, bytes)?;
    number_samples(out, time, rest)
}

fn number_each_run<'a>(
    alloc: Global,
    out: &mut Vec<u8>,
    names: &mut NameTable,
    time: &mut Time,
    bytes: &'a [u8],
    count: u64,
) -> Result<&'a [u8], NumberError>
    requires { is_time time.old ≡ true }
    ensures ok { IfOk result (λ rest. Writes (each_at run_at count) (names.old, time.old)
        (names.new, time.new) bytes.now rest.now out.old.items out.new.items) }
    ensures begins { BeginWith names.old names.new }
{
    let mut rest = bytes;
    for counter in 0..count {
        let after = number_run(alloc, out, names, time, rest)?;
        rest = after;
    }
    Ok(rest)
}

fn number_runs<'a>(
    alloc: Global,
    out: &mut Vec<u8>,
    names: &mut NameTable,
    time: &mut Time,
    bytes: &'a [u8],
) -> Result<&'a [u8], NumberError>
    requires { is_time time.old ≡ true }
    ensures ok { IfOk result (λ rest. Writes (many_at run_at) (names.old, time.old)
        (names.new, time.new) bytes.now rest.now out.old.items out.new.items) }
    ensures begins { BeginWith names.old names.new }
{
    let (count, rest) = count_of(bytes)?;
    put_uvarint(out, count)?;
    number_each_run(alloc, out, names, time, rest, count)
}

/// A batch by number, of the bytes after the kind of its text.
fn number_batch(alloc: Global, names: &mut NameTable, bytes: &[u8]) -> Result<Vec<u8>, NumberError>
    ensures ok { IfOk result (λ text. plain_of names.old text.items
        ≡ Ok (1 ∷ bytes.now, names.new)) }
    ensures short { IfOk result (λ text. length text.items ≤ 2 ^ 26) }
    ensures begins { BeginWith names.old names.new }
{
    let mut out = Vec::new(alloc);
    put_u8(&mut out, 4)?;
    let mut time = Time::new(0);
    let rest = number_runs(alloc, &mut out, names, &mut time, bytes)?;
    if rest.len() > 0 {
        return Err(NumberError::Rest);
    }
    if out.len() > MAX_CONTENT {
        return Err(NumberError::Bounds);
    }
    Ok(out)
}

/// A content that stands for a text by the names that there are: by number if the text is that of a
/// batch, and if no more than 2^26 bytes stand for it so; else the text itself. A text that begins
/// as a content by number has none.
pub fn numbered_text(
    alloc: Global,
    names: &mut NameTable,
    text: &[u8],
) -> Result<Vec<u8>, AllocError>
    requires { is_numbered text.now ≡ false }
    // It is read as the text, and the names that are read then are those that there are then.
    ensures stands { IfOk result (λ content. plain_of names.old content.items
        ≡ Ok (text.now, names.new)) }
    // It is longer than 2^26 bytes only where the text is.
    ensures short { IfOk result (λ content. length text.now ≤ 2 ^ 26
        → length content.items ≤ 2 ^ 26) }
    // After an `Err` the names are as they were.
    ensures err { OnErr result (names.new ≡ names.old) }
    ensures begins { BeginWith names.old names.new }
{
    let count = names.len();
    if let [1, rest @ ..] = text {
        match number_batch(alloc, names, rest) {
            Ok(content) => return Ok(content),
            Err(_) => names.forget(count),
        }
    }
    Vec::from_slice(alloc, text)
}

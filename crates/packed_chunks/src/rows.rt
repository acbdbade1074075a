//! The writing of rows.

ghost use Rattle.std.specs.Prelude.{◌≡◌, ◌*◌, ◌<◌, ◌≤◌, ◌++◌, [], length, OnOk, IfOk, IsTrue};
ghost use Rattle.byteorder.specs.Endian.{little_bytes};
ghost use Rattle.packed_chunks.specs.Packed.{row_text, IsForm, IsPlain, ReadsAs};

use crate::form::Form;
use byteorder::{ByteOrder, LittleEndian};
use labels::Sample;
use std::alloc::AllocError;

/// Adds the lowest bytes of a number, the lowest first.
#[inline(always)]
fn push_low(rows: &mut Vec<u8>, number: u64, bytes: u8) -> Result<(), AllocError>
    requires { bytes ≤ 8 }
    ensures { OnOk result (rows.new.items ≡ rows.old.items ++ little_bytes bytes number) }
{
    let end = rows.len() + bytes as usize;
    let mut all = [0u8; 8];
    LittleEndian::write_u64(&mut all, number);
    rows.extend_from_slice(&all)?;
    rows.truncate(end);
    Ok(())
}

/// Adds the row of two numbers.
#[inline(always)]
fn push_row(rows: &mut Vec<u8>, form: &Form, low: u64, high: u64) -> Result<(), AllocError>
    requires { IsForm form.now }
    ensures { OnOk result (rows.new.items ≡ rows.old.items ++ row_text form.now low high) }
{
    if form.value_place != 0 {
        push_low(rows, low, form.value_place)?;
    }
    push_low(rows, high, form.width - form.value_place)
}

/// Adds a row for each sample, and is true. It is false if the row of a sample would not give the
/// sample back, and then adds no more rows.
pub(crate) fn push_rows(
    rows: &mut Vec<u8>,
    form: &Form,
    samples: &[Sample],
) -> Result<bool, AllocError>
    requires form { IsForm form.now }
    requires few { length samples.now < 65536 }
    requires none { rows.old.items ≡ [] }
    ensures length { IfOk result (λ whole. IsTrue whole
        → length rows.new.items ≡ length samples.now * form.now.width) }
    ensures reads { IfOk result (λ whole. IsTrue whole
        → ReadsAs form.now rows.new.items (length samples.now) samples.now) }
{
    rows.reserve(samples.len() * form.width as usize + 8)?;
    for i in 0..samples.len() {
        let sample = samples[i];
        let (low, high) = form.numbers_of(i as u64, sample);
        if form.sample_of(i as u64, low, high) != sample {
            return Ok(false);
        }
        push_row(rows, form, low, high)?;
    }
    Ok(true)
}

/// Adds a row of 16 bytes for each sample.
pub(crate) fn push_plain_rows(
    rows: &mut Vec<u8>,
    form: &Form,
    samples: &[Sample],
) -> Result<(), AllocError>
    requires form { IsForm form.now }
    requires plain { IsPlain form.now }
    requires none { rows.old.items ≡ [] }
    ensures length { OnOk result (length rows.new.items ≡ length samples.now * form.now.width) }
    ensures reads { OnOk result (ReadsAs form.now rows.new.items (length samples.now) samples.now) }
{
    for place in 0..samples.len() {
        let sample = samples[place];
        push_row(
            rows,
            form,
            sample.t().cast_unsigned(),
            sample.v().cast_unsigned(),
        )?;
    }
    Ok(())
}

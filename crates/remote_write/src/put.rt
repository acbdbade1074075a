//! Writing series at the end of a vector.

ghost use Rattle.std.specs.Prelude.{◌≡◌, ◌<◌, ◌++◌, length, map, OnOk};
ghost use Rattle.remote_write.specs.Reading.{label_seen, sample_seen, series_seen};
ghost use Rattle.remote_write.specs.Writing.{body_text, label_text, labels_text, sample_text};
ghost use Rattle.remote_write.specs.Writing.{samples_text, series_text, text_field};

use crate::label::Label;
use crate::sample::Sample;
use crate::series::Series;
use byteorder::{ByteOrder, LittleEndian};
use std::alloc::AllocError;
use varints::{put_varint, varint_len};

/// Appends a field of bytes.
#[inline(always)]
pub fn put_text(out: &mut Vec<u8>, number: u32, text: &[u8]) -> Result<(), AllocError>
    ensures { OnOk result (out.new.items ≡ out.old.items ++ text_field number text.now) }
{
    put_varint(out, u64::from(number) * 8 + 2)?;
    put_varint(out, text.len() as u64)?;
    out.extend_from_slice(text)?;
    Ok(())
}

/// Appends a label of a series, by way of `room`, whose contents are lost.
pub fn put_label(out: &mut Vec<u8>, room: &mut Vec<u8>, label: &Label<'_>) -> Result<(), AllocError>
    ensures { OnOk result
        (out.new.items ≡ out.old.items ++ text_field 1 (label_text (label_seen label.now))) }
{
    room.clear();
    put_text(room, 1, label.name)?;
    put_text(room, 2, label.value)?;
    put_text(out, 1, room.as_slice())
}

fn put_labels(out: &mut Vec<u8>, room: &mut Vec<u8>, labels: &[Label<'_>]) -> Result<(), AllocError>
    ensures { OnOk result
        (out.new.items ≡ out.old.items ++ labels_text (map label_seen labels.now)) }
{
    for label in labels {
        put_label(out, room, label)?;
    }
    Ok(())
}

// How many bytes the fields of a sample have: 11 to 20.
#[inline(always)]
fn sample_len(sample: Sample) -> u64
    ensures { result ≡ length (sample_text (sample_seen sample)) }
{
    10 + varint_len(sample.time.cast_unsigned()) as u64
}

#[inline(always)]
fn put_fields(out: &mut Vec<u8>, sample: Sample) -> Result<(), AllocError>
    ensures { OnOk result (out.new.items ≡ out.old.items ++ sample_text (sample_seen sample)) }
{
    let mut value = [0u8; 8];
    LittleEndian::write_u64(&mut value, sample.value);
    put_varint(out, 9)?;
    out.extend_from_slice(&value)?;
    put_varint(out, 16)?;
    put_varint(out, sample.time.cast_unsigned())?;
    Ok(())
}

/// Appends a sample of a series. Every bit of its value is written, of minus zero too.
pub fn put_sample(out: &mut Vec<u8>, sample: Sample) -> Result<(), AllocError>
    ensures { OnOk result
        (out.new.items ≡ out.old.items ++ text_field 2 (sample_text (sample_seen sample))) }
{
    put_varint(out, 18)?;
    put_varint(out, sample_len(sample))?;
    put_fields(out, sample)
}

fn put_samples(out: &mut Vec<u8>, samples: &[Sample]) -> Result<(), AllocError>
    ensures { OnOk result
        (out.new.items ≡ out.old.items ++ samples_text (map sample_seen samples.now)) }
{
    for sample in samples {
        put_sample(out, *sample)?;
    }
    Ok(())
}

/// Appends a series without its histograms, by way of `room` and `small`, whose contents are lost.
pub fn put_series(
    out: &mut Vec<u8>,
    room: &mut Vec<u8>,
    small: &mut Vec<u8>,
    series: &Series<'_>,
) -> Result<(), AllocError>
    ensures { OnOk result
        (out.new.items ≡ out.old.items ++ text_field 1 (series_text (series_seen series.now))) }
{
    room.clear();
    put_labels(room, small, series.labels.as_slice())?;
    put_samples(room, series.samples.as_slice())?;
    put_text(out, 1, room.as_slice())
}

/// Appends series one after another: a body of remote write, or one result of remote read.
pub fn put_body(
    out: &mut Vec<u8>,
    room: &mut Vec<u8>,
    small: &mut Vec<u8>,
    all: &[Series<'_>],
) -> Result<(), AllocError>
    ensures { OnOk result (out.new.items ≡ out.old.items ++ body_text (map series_seen all.now)) }
{
    for series in all {
        put_series(out, room, small, series)?;
    }
    Ok(())
}

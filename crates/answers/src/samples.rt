//! Samples.

ghost use Rattle.std.specs.Prelude.{◌≡◌, ◌+◌, ◌≤◌, ◌∷◌, ◌++◌, length, drop, OnOk};
ghost use Rattle.answers.specs.Body.{sample_data, json_list};
ghost use Rattle.answers.specs.AfterCommas.{sample_after_comma, after_commas};

use crate::brackets::close_list;
use crate::number::place_integer;
use labels::Sample;
use std::alloc::AllocError;

/// How many samples are placed before they are copied.
const BLOCK: usize = 64;

/// The room for a block of samples: each takes two brackets, two commas and two numbers of at most
/// 20 bytes.
pub const ROOM: usize = 2816;

#[inline(always)]
fn place_byte(byte: u8, buf: &mut [u8], end: usize) -> usize
    requires room { 1 ≤ end }
    requires within { end ≤ length buf.old }
    ensures start { result + 1 ≡ end }
    ensures written { drop result buf.new ≡ byte ∷ drop end buf.old }
{
    buf[end - 1] = byte;
    end - 1
}

/// Writes the sample so that it ends at `end`, with a comma before it, and returns where that
/// starts.
#[inline(always)]
fn place_sample(sample: Sample, buf: &mut [u8], end: usize) -> usize
    requires room { 44 ≤ end }
    requires within { end ≤ length buf.old }
    ensures near { end ≤ result + 44 }
    ensures start { result ≤ end }
    ensures written { drop result buf.new ≡ sample_after_comma sample ++ drop end buf.old }
{
    let at = place_byte(b']', buf, end);
    let at = place_integer(sample.v(), buf, at);
    let at = place_byte(b',', buf, at);
    let at = place_integer(sample.t(), buf, at);
    let at = place_byte(b'[', buf, at);
    place_byte(b',', buf, at)
}

/// Writes the samples at the end, each with a comma before it, and returns where they start.
fn place_samples(samples: &[Sample], buf: &mut [u8; ROOM]) -> usize
    requires { length samples.now ≤ 64 }
    ensures start { result ≤ 2816 }
    ensures written { drop result buf.new ≡ after_commas sample_data samples.now }
{
    let mut at = ROOM;
    let mut left = samples.len();
    while left > 0 {
        left -= 1;
        at = place_sample(samples[left], buf, at);
    }
    at
}

/// Appends the samples, each with a comma before it.
fn append_samples_after_commas(
    out: &mut Vec<u8>,
    buf: &mut [u8; ROOM],
    samples: &[Sample],
) -> Result<(), AllocError>
    ensures { OnOk result (out.new.items ≡ out.old.items ++ after_commas sample_data samples.now) }
{
    let mut rest = samples;
    while !rest.is_empty() {
        let (front, back) = rest.split_at(rest.len().min(BLOCK));
        let at = place_samples(front, buf);
        out.extend_from_slice(&buf[at..])?;
        rest = back;
    }
    Ok(())
}

/// Appends the samples as a list. What `buf` holds is lost.
pub fn append_samples(
    out: &mut Vec<u8>,
    buf: &mut [u8; ROOM],
    samples: &[Sample],
) -> Result<(), AllocError>
    ensures { OnOk result (out.new.items ≡ out.old.items ++ json_list sample_data samples.now) }
{
    let start = out.len();
    append_samples_after_commas(out, buf, samples)?;
    close_list(out, start, b'[', b']')
}

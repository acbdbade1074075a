//! Chunks as they are written.

ghost use Rattle.std.specs.Prelude.{◌≡◌, ◌<◌, ◌++◌, ◌∷◌, length, OnOk};
ghost use Rattle.std.specs.List.{flat_map, All};
ghost use Rattle.chunk_reader.specs.Grammar.{batch_text, plain, sample_text};
ghost use Rattle.block_writer.specs.Typed.{IsOf64Bits};
ghost use Rattle.block_writer.specs.Writing.{piece_text};

use crate::sections::put_sum;
use byteorder::{BigEndian, ByteOrder};
use labels::Sample;
use std::alloc::AllocError;
use wire::{put_be64, put_bytes, put_u8, put_uvarint};

const PLAIN: u8 = 0xE0;

/// Appends a chunk of these samples. Where memory runs out a prefix of it may have been appended.
#[tactic(auto, unfolding(crate::specs::Writing::piece_text))]
pub(crate) fn put_chunk(out: &mut Vec<u8>, samples: &[Sample]) -> Result<(), AllocError>
    requires { length samples.now < 65536 }
    ensures text { OnOk result (out.new.items ≡ out.old.items ++ piece_text samples.now) }
    ensures typed { OnOk result (All IsOf64Bits samples.now) }
{
    put_uvarint(out, 2 + 16 * samples.len() as u64)?;
    let start = out.len();
    put_content(out, samples)?;
    put_sum(out, start)
}

/// Appends the encoding's byte, the count and the samples.
fn put_content(out: &mut Vec<u8>, samples: &[Sample]) -> Result<(), AllocError>
    requires { length samples.now < 65536 }
    ensures text { OnOk result (out.new.items ≡ out.old.items ++ plain ∷ batch_text samples.now) }
    ensures typed { OnOk result (All IsOf64Bits samples.now) }
{
    let mut count = [0u8; 2];
    BigEndian::write_u16(&mut count, samples.len() as u16);
    put_u8(out, PLAIN)?;
    put_bytes(out, &count)?;
    put_samples(out, samples)
}

fn put_samples(out: &mut Vec<u8>, samples: &[Sample]) -> Result<(), AllocError>
    ensures text { OnOk result (out.new.items ≡ out.old.items ++ flat_map sample_text samples.now) }
    ensures typed { OnOk result (All IsOf64Bits samples.now) }
{
    for sample in samples {
        put_sample(out, *sample)?;
    }
    Ok(())
}

fn put_sample(out: &mut Vec<u8>, sample: Sample) -> Result<(), AllocError>
    ensures text { OnOk result (out.new.items ≡ out.old.items ++ sample_text sample) }
    ensures typed { OnOk result (IsOf64Bits sample) }
{
    put_be64(out, sample.t().cast_unsigned())?;
    put_be64(out, sample.v().cast_unsigned())?;
    Ok(())
}

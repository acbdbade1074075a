//! The data of a whole chunk.

ghost use Rattle.std.specs.Prelude.{◌≡◌, ◌<◌, ◌≤◌, ◌+◌, ◌-◌, ◌++◌, ℤ, ℕ, List, IfOk, Ok};
ghost use Rattle.wire.specs.Outcome.{Answers};
ghost use Rattle.xor_reader.specs.Bits.{bits_of, is_padding};
ghost use Rattle.xor_reader.specs.Grammar.{IsState, IsXorChunk, Sample, sample_of};
ghost use Rattle.xor_reader.specs.Outcome.{Gives, ReadsFront};
ghost use Rattle.xor_reader.specs.Reading.{head_at, later_at, samples_at, steps_at, with_front};
ghost use Rattle.xor_reader.specs.Reading.{after_samples, padding_at};

use crate::bits::Bits;
use crate::error::XorError;
use crate::sample::FloatSample;
use crate::step::{State, Window, read_step, read_value};
use labels::is_time;
use std::alloc::Global;
use wire::Cut;

// The window before any was told: all bits of a value.
const WHOLE: Window = Window {
    leading: 0,
    significant: 64,
};

// The count of samples, and the first of them.
#[tactic(auto, unfolding(crate::specs::Reading::head_at))]
fn read_head(cut: &mut Cut<'_>) -> Result<(u64, State), XorError>
    ensures exact { ReadsFront (λ x. x) (head_at cut.old) result cut.new }
    ensures state { IfOk result (λ x. IsState x.1 × (1 ≤ x.0) × (x.0 < 65536)) }
{
    let high = cut.u8()?;
    let low = cut.u8()?;
    let count = u64::from(high) * 256 + u64::from(low);
    if count == 0 {
        return Err(XorError::Empty);
    }
    let time = cut.varint()?;
    if !is_time(time) {
        return Err(XorError::OutOfRange);
    }
    let value = cut.be64()?;
    Ok((
        count,
        State {
            time,
            step: 0,
            value,
            window: WHOLE,
        },
    ))
}

fn sample_of(state: State) -> FloatSample
    ensures { result ≡ sample_of state }
{
    FloatSample::new(state.time, state.value)
}

// Appends the next `count` samples.
fn read_steps(
    samples: &mut Vec<FloatSample>,
    bits: &mut Bits<'_>,
    first: State,
    count: u64,
) -> Result<(), XorError>
    requires { IsState first }
    ensures { Gives (λ _. (samples.new.items, bits.new)) result
        (with_front samples.old.items (steps_at count first bits.old)) }
{
    let mut state = first;
    for _ in 0..count {
        state = read_step(bits, state)?;
        samples.push(sample_of(state))?;
    }
    Ok(())
}

// Appends the samples after the first.
#[tactic(auto, unfolding(crate::specs::Reading::later_at))]
fn read_later(
    samples: &mut Vec<FloatSample>,
    bytes: &[u8],
    first: State,
    count: u64,
) -> Result<(), XorError>
    requires state { IsState first }
    requires some { 1 ≤ count }
    ensures { Gives (λ _. samples.new.items) result
        (after_samples samples.old.items (later_at count first bytes.now)) }
{
    let mut cut = Cut::new(bytes);
    if count == 1 {
        return check_padding(&Bits::new(bytes));
    }
    let step = cut.uvarint()?;
    let mut bits = Bits::new(cut.rest());
    let second = read_value(&mut bits, first, i128::from(step))?;
    samples.push(sample_of(second))?;
    read_steps(samples, &mut bits, second, count - 2)?;
    check_padding(&bits)
}

fn check_padding(bits: &Bits<'_>) -> Result<(), XorError>
    ensures { Answers (λ _. bits.now) result (padding_at bits.now) }
{
    if !bits.is_padding() {
        return Err(XorError::Trailing);
    }
    Ok(())
}

#[tactic(auto, unfolding(crate::specs::Reading::samples_at))]
fn read_all(alloc: Global, bytes: &[u8]) -> Result<Vec<FloatSample>, XorError>
    ensures { Gives (λ v. v.items) result (samples_at bytes.now) }
{
    let mut cut = Cut::new(bytes);
    let (count, first) = read_head(&mut cut)?;
    let mut samples = Vec::with_capacity(alloc, count as usize)?;
    samples.push(sample_of(first))?;
    read_later(&mut samples, cut.rest(), first, count)?;
    Ok(samples)
}

/// Reads the samples that the data of an XOR chunk spells.
///
/// `bytes` is the data alone: neither the length and the encoding before it nor the checksum after
/// it. The checks, of which the first that fails from the front is answered, are those of
/// [`XorError`], `X1` to `X7`. It takes one pass and 16 bytes of memory for each sample that the
/// data counts, at most 1 MiB.
pub fn read_xor_chunk(alloc: Global, bytes: &[u8]) -> Result<Vec<FloatSample>, XorError>
    // The first check that fails is answered; where none does, what was read is given.
    ensures exact { Gives (λ v. v.items) result (samples_at bytes.now) }
    // What is given is what the bytes spell.
    ensures found { IfOk result (λ v. IsXorChunk bytes.now v.items) }
    // Bytes that spell samples are read, and give what they spell, unless memory runs out.
    ensures only { (samples : List Sample) → IsXorChunk bytes.now samples
        → Gives (λ v. v.items) result (Ok samples) }
{
    read_all(alloc, bytes)
}

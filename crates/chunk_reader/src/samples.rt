//! Samples in the bytes in which they stand.

ghost use Rattle.std.specs.Prelude.{◌≡◌, ◌+◌, ◌-◌, ◌*◌, ◌/◌, ◌%◌, ◌<◌, ◌≤◌, ◌↔◌, [], ℤ, List, pos};
ghost use Rattle.std.specs.Prelude.{◌-ℤ◌, length, drop, slice_get, IsTrue, IfOk, Some};
ghost use Rattle.chunk_reader.specs.Reading.{samples_in, rises};

use byteorder::{BigEndian, ByteOrder};
use labels::{MAX_TIME, MIN_TIME, Sample};
use std::alloc::{AllocError, Global};
use std::marker::Model;

/// Samples that stand one after the other, sixteen bytes each, and are decoded as they are asked
/// for.
#[derive(Drop)]
pub struct Samples<'a> {
    bytes: &'a [u8],
}

impl<'a> Model for Samples<'a> {
    ghost use Rattle.std.specs.Prelude.{◌≡◌, ◌%◌, ℤ, List, length};

    ghost Value = { List (ℤ × ℤ) };

    ghost use Rattle.chunk_reader.specs.Reading.{samples_in};

    ghost view = { λ s. samples_in s.bytes.now };

    ghost invariant = { λ s. length s.bytes.now % 16 ≡ 0 };
}

impl<'a> Samples<'a> {
    /// The samples that these bytes hold.
    pub fn new(bytes: &'a [u8]) -> Samples<'a>
        requires { length bytes.now % 16 ≡ 0 }
        ensures { result ≡ samples_in bytes.now }
    {
        Samples { bytes }
    }

    /// How many samples there are.
    #[tactic(auto, using(crate::proofs::Places::places))]
    pub fn len(&self) -> usize
        ensures { result ≡ length self.now }
    {
        self.bytes.len() / 16
    }

    /// Whether there are none.
    #[tactic(auto, using(crate::proofs::Places::places))]
    pub fn is_empty(&self) -> bool
        ensures { IsTrue result ↔ (length self.now ≡ 0) }
    {
        self.len() == 0
    }

    /// The sample at a place, from 0.
    pub fn get(&self, i: usize) -> Sample
        requires { i < length self.now }
        ensures { slice_get self.now i ≡ Some result }
    {
        sample_at(self.bytes, i)
    }

    /// A copy of the samples.
    pub fn to_vec(&self, alloc: Global) -> Result<Vec<Sample>, AllocError>
        ensures { IfOk result (λ v. v.items ≡ self.now) }
    {
        let mut samples = Vec::with_capacity(alloc, self.len())?;
        for i in 0..self.len() {
            samples.push(self.get(i))?;
        }
        Ok(samples)
    }
}

#[tactic(auto, using(crate::proofs::Places::places))]
fn sample_at(bytes: &[u8], i: usize) -> Sample
    requires { i < length (samples_in bytes.now) }
    ensures { slice_get (samples_in bytes.now) i ≡ Some result }
{
    let (_, sample) = bytes.split_at(16 * i);
    let (_, value) = sample.split_at(8);
    Sample::new(BigEndian::read_i64(sample), BigEndian::read_i64(value))
}

/// Whether the times ascend strictly and lie in [`MIN_TIME`] to [`MAX_TIME`].
pub(crate) fn are_rising(samples: &Samples<'_>) -> bool
    ensures { result ≡ rises (MIN_TIME -ℤ pos 1) samples.now }
{
    let mut before = MIN_TIME - 1;
    for i in 0..samples.len() {
        let time = samples.get(i).t();
        let in_turn = (before < time) & (time <= MAX_TIME);
        if !in_turn {
            return false;
        }
        before = time;
    }
    true
}

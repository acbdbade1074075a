//! Samples, read from the rows of a chunk.

ghost use Rattle.std.specs.Prelude.{◌≡◌, ◌+◌, ◌-◌, ◌*◌, ◌<◌, ◌≤◌, ◌↔◌, ◌++◌, ◌<ℤ◌, ◌≤ℤ◌, ℕ, ℤ};
ghost use Rattle.std.specs.Prelude.{filter, length, slice_get, IsTrue, OnOk, Some};
ghost use Rattle.packed_chunks.specs.Packed.{samples_in, sample_in, time_at, word_at, in_range};
ghost use Rattle.packed_chunks.specs.Packed.{Ascends, IsForm, HasRows};

use crate::form::Form;
use byteorder::{ByteOrder, LittleEndian};
use labels::Sample;
use std::alloc::AllocError;
use std::marker::Model;

/// The samples of a chunk, which are decoded as they are asked for.
#[derive(Drop)]
pub struct PackedSamples<'a> {
    form: Form,
    rows: &'a [u8],
}

impl<'a> Model for PackedSamples<'a> {
    ghost use Rattle.std.specs.Prelude.{ℤ, List};
    ghost use Rattle.packed_chunks.specs.Packed.{samples_in, IsForm, HasRows};

    ghost Value = { List (ℤ × ℤ) };

    ghost view = { λ s. samples_in s.form s.rows.now };

    ghost invariant = { λ s. IsForm s.form × HasRows s.form s.rows.now };
}

impl<'a> PackedSamples<'a> {
    /// The samples that rows of this form mean; bytes may follow that are not theirs.
    pub fn new(form: Form, rows: &'a [u8]) -> PackedSamples<'a>
        requires form { IsForm form }
        requires rows { HasRows form rows.now }
        ensures { result ≡ samples_in form rows.now }
    {
        PackedSamples { form, rows }
    }

    /// How many samples there are.
    #[tactic(auto, using(crate::proofs::RowLaws::length_samples))]
    pub fn len(&self) -> usize
        ensures { result ≡ length self.now }
    {
        self.form.count as usize
    }

    /// Whether there are none.
    #[tactic(auto, using(crate::proofs::RowLaws::length_samples))]
    pub fn is_empty(&self) -> bool
        ensures { IsTrue result ↔ (length self.now ≡ 0) }
    {
        self.form.count == 0
    }

    /// The sample at a place, from 0, in constant time.
    #[inline(always)]
    #[tactic(auto, using(crate::proofs::RowLaws::of_samples))]
    pub fn get(&self, i: usize) -> Sample
        requires { i < length self.now }
        ensures { slice_get self.now i ≡ Some result }
    {
        sample_at(&self.form, self.rows, i)
    }

    /// The time of the first sample, in constant time.
    pub fn first_time(&self) -> i64
        requires { 0 < length self.now }
        ensures { result ≡ time_at self.now 0 }
    {
        self.time_at(0)
    }

    /// The time of the last sample, in constant time.
    pub fn last_time(&self) -> i64
        requires { 0 < length self.now }
        ensures { result ≡ time_at self.now (length self.now - 1) }
    {
        self.time_at(self.len() - 1)
    }

    /// The time of the sample at a place, from 0, in constant time.
    #[inline(always)]
    pub fn time_at(&self, i: usize) -> i64
        requires { i < length self.now }
        ensures { result ≡ time_at self.now i }
    {
        self.get(i).t()
    }

    /// How many samples lie before a time: the place of the first one from it on. It is found by
    /// halving.
    pub fn place_from(&self, time: i64) -> usize
        requires { Ascends self.now }
        ensures within { result ≤ length self.now }
        ensures before { (k : ℕ) → k < result → time_at self.now k <ℤ time }
        ensures from { (k : ℕ) → result ≤ k → k < length self.now → time ≤ℤ time_at self.now k }
    {
        let mut low = 0;
        let mut high = self.len();
        while low < high {
            let middle = low + (high - low) / 2;
            if self.time_at(middle) < time {
                low = middle + 1;
            } else {
                high = middle;
            }
        }
        low
    }

    /// Adds the samples whose times lie in the closed range. It finds the first by halving, and
    /// reads no sample after the first above the range.
    pub fn push_within(&self, found: &mut Vec<Sample>, from: i64, to: i64) -> Result<(), AllocError>
        requires { Ascends self.now }
        ensures { OnOk result (found.new.items
            ≡ found.old.items ++ filter (λ (s : ℤ × ℤ). in_range from to s.0) self.now) }
    {
        let start = self.place_from(from);
        for i in start..self.len() {
            let sample = self.get(i);
            if to < sample.t() {
                return Ok(());
            }
            found.push(sample)?;
        }
        Ok(())
    }

    /// Adds all samples, in order.
    #[tactic(auto, using(crate::proofs::RowLaws::length_samples))]
    pub fn push_all(&self, found: &mut Vec<Sample>) -> Result<(), AllocError>
        ensures { OnOk result (found.new.items ≡ found.old.items ++ self.now) }
    {
        push_samples(self.form, self.rows, found)
    }
}

/// The number in the eight bytes from a place on, the lowest first.
#[inline(always)]
fn word_at(rows: &[u8], place: usize) -> u64
    requires { place + 8 ≤ length rows.now }
    ensures { result ≡ word_at rows.now place }
{
    let (_, bytes) = rows.split_at(place);
    LittleEndian::read_u64(bytes)
}

/// The sample of row `i`.
#[inline(always)]
#[tactic(auto, using(crate::proofs::RowLaws::row_ends))]
fn sample_at(form: &Form, rows: &[u8], i: usize) -> Sample
    requires form { IsForm form.now }
    requires rows { HasRows form.now rows.now }
    requires at { i < form.now.count }
    ensures { result ≡ sample_in form.now rows.now i }
{
    let place = i * form.width as usize;
    let time = word_at(rows, place);
    let value = word_at(rows, place + form.value_place as usize);
    form.sample_of(i as u64, time, value)
}

/// Adds all samples, in order. Both lines go on by a step at each row.
fn push_samples(form: Form, rows: &[u8], found: &mut Vec<Sample>) -> Result<(), AllocError>
    requires form { IsForm form }
    requires rows { HasRows form rows.now }
    ensures { OnOk result (found.new.items ≡ found.old.items ++ samples_in form rows.now) }
{
    found.reserve(form.count as usize)?;
    let mut times = form.first_time;
    let mut values = form.first_value;
    let mut place = 0;
    for _ in 0..form.count {
        let time = word_at(rows, place);
        let value = word_at(rows, place + form.value_place as usize);
        found.push(form.sample_on(times, values, time, value))?;
        times = times.wrapping_add(form.time_step as u64);
        values = values.wrapping_add(form.value_step);
        place += form.width as usize;
    }
    Ok(())
}

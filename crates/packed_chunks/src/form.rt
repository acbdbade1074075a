//! How the rows of a chunk are read.

ghost use Rattle.std.specs.Prelude.{◌≡◌, ◌+◌, ◌-◌, ◌*◌, ◌/◌, ◌%◌, ◌^◌, ◌<◌, ◌≤◌, ◌↔◌, IsTrue};
ghost use Rattle.packed_chunks.specs.Packed.{above, bits_of, on_line, sample_of, IsForm, IsPlain};

use labels::Sample;

/// A line of times, a line of values, and where in a row it stands how much a sample is above them.
/// All numbers are taken modulo 2^64: time `i` is `first_time + time_step * i` and what its bits of
/// the row say, value `i` is `first_value + value_step * i` and what its bits say, times 2^`scale`.
#[derive(Clone, Copy, Debug, Drop)]
pub struct Form {
    pub first_time: u64,
    pub first_value: u64,
    pub value_step: u64,
    pub time_step: u32,
    /// How many samples there are.
    pub count: u16,
    /// How many bytes a row has.
    pub width: u8,
    /// How many bits, the lowest of a row, are the time's.
    pub time_bits: u8,
    /// The byte of a row at which the word begins that has the value.
    pub value_place: u8,
    /// How many of the lowest bits of that word are not the value's.
    pub skipped: u8,
    /// How many bits are the value's.
    pub value_bits: u8,
    /// How many of the lowest bits of a value's distance are left out, since they are 0 in each.
    pub scale: u8,
}

/// What is so much above a line at place `i`.
#[inline(always)]
pub(crate) fn above(start: u64, step: u64, i: u64, rest: u64) -> i64
    ensures { result ≡ above start step i rest }
{
    start
        .wrapping_add(step.wrapping_mul(i))
        .wrapping_add(rest)
        .cast_signed()
}

/// The number of so many bits, each 1.
#[inline(always)]
pub(crate) fn ones(bits: u8) -> u64
    ensures { bits ≤ 64 → result ≡ 2 ^ bits - 1 }
{
    if bits < 64 {
        (1u64 << bits) - 1
    } else {
        u64::MAX
    }
}

/// So many bits of a word, after those that are skipped.
#[inline(always)]
pub(crate) fn bits_of(word: u64, skipped: u8, bits: u8) -> u64
    requires skipped { skipped < 64 }
    requires bits { bits ≤ 64 }
    ensures { result ≡ bits_of skipped bits word }
{
    (word >> skipped) & ones(bits)
}

impl Form {
    /// The form of rows of 16 bytes, each a time and a value.
    pub(crate) fn plain(count: u16) -> Form
        ensures plain { IsPlain result }
        ensures form { IsForm result }
        ensures count { result.count ≡ count }
    {
        Form {
            first_time: 0,
            first_value: 0,
            value_step: 0,
            time_step: 0,
            count,
            width: 16,
            time_bits: 64,
            value_place: 8,
            skipped: 0,
            value_bits: 64,
            scale: 0,
        }
    }

    /// The same lines with rows of so many bits: side by side in one number where they are at most
    /// 64 together, else the value after the last byte of the time.
    pub(crate) fn laid_out(self, time_bits: u32, value_bits: u32) -> Form
        requires time_bits { time_bits ≤ 64 }
        requires value_bits { value_bits ≤ 64 }
        ensures { result.count ≡ self.count }
    {
        let mut form = self;
        form.time_bits = time_bits as u8;
        form.value_bits = value_bits as u8;
        if time_bits + value_bits <= 64 {
            form.width = ((time_bits + value_bits + 7) / 8) as u8;
            form.skipped = if value_bits == 0 { 0 } else { time_bits as u8 };
        } else {
            let place = (time_bits + 7) / 8;
            form.value_place = place as u8;
            form.width = (place + (value_bits + 7) / 8) as u8;
        }
        form
    }

    /// Whether the bits lie in the row, and one word has those of the time, one those of the value.
    pub fn is_sound(&self) -> bool
        ensures { IsTrue result → IsForm self.now }
    {
        let place = self.value_place as u32;
        let width = self.width as u32;
        let time_bits = self.time_bits as u32;
        let in_time = time_bits <= 8 * place || (place == 0 && time_bits <= 8 * width);
        let in_value = self.skipped as u32 + self.value_bits as u32 + 8 * place <= 8 * width;
        place <= 8
            && place <= width
            && width <= place + 8
            && in_time
            && in_value
            && self.skipped < 64
            && self.scale < 64
    }

    /// The sample at place `i` whose time is in the bits of one word, and whose value in those of
    /// the other.
    #[inline(always)]
    pub(crate) fn sample_of(&self, i: u64, time: u64, value: u64) -> Sample
        requires { IsForm self.now }
        ensures { result ≡ sample_of self.now i time value }
    {
        let above_times = bits_of(time, 0, self.time_bits);
        let above_values = bits_of(value, self.skipped, self.value_bits) << self.scale;
        Sample::new(
            above(self.first_time, self.time_step as u64, i, above_times),
            above(self.first_value, self.value_step, i, above_values),
        )
    }

    /// The same where the lines have these two numbers at the place of the sample.
    #[inline(always)]
    pub(crate) fn sample_on(&self, times: u64, values: u64, time: u64, value: u64) -> Sample
        requires { IsForm self.now }
        ensures { result ≡ (
          on_line times (bits_of 0 self.now.time_bits time),
          on_line values (bits_of self.now.skipped self.now.value_bits value * 2 ^ self.now.scale),
        ) }
    {
        let above_times = bits_of(time, 0, self.time_bits);
        let above_values = bits_of(value, self.skipped, self.value_bits) << self.scale;
        Sample::new(
            times.wrapping_add(above_times).cast_signed(),
            values.wrapping_add(above_values).cast_signed(),
        )
    }

    /// Two numbers whose lowest bytes are the row of a sample, if the form has room for it: one for
    /// its time and one for its value, or twice the number of both.
    #[inline(always)]
    pub(crate) fn numbers_of(&self, i: u64, sample: Sample) -> (u64, u64)
        requires { IsForm self.now }
        ensures { self.now.value_place ≡ 0 → result.0 ≡ result.1 }
    {
        let times = below(self.first_time, self.time_step as u64, i, sample.t());
        let values = below(self.first_value, self.value_step, i, sample.v()) >> self.scale;
        if self.value_place == 0 {
            let both = times | (values << self.skipped);
            (both, both)
        } else {
            (times, values << self.skipped)
        }
    }
}

/// How much a number is above a line at place `i`.
#[inline(always)]
fn below(start: u64, step: u64, i: u64, number: i64) -> u64 {
    number
        .cast_unsigned()
        .wrapping_sub(start)
        .wrapping_sub(step.wrapping_mul(i))
}

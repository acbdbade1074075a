//! The choice of the lines of a chunk. It decides how many bytes the samples take, and nothing of
//! what they mean.

ghost use Rattle.std.specs.Prelude.{◌≡◌, ◌≤◌, ◌<◌, length};

use crate::form::Form;
use labels::Sample;

/// How many bits a number has, up to the highest that is 1.
fn bit_len(number: u64) -> u32
    ensures { result ≤ 64 }
{
    64 - number.leading_zeros()
}

/// The least and the greatest distance of some numbers from a line.
#[derive(Clone, Copy, Drop)]
struct Spread {
    least: i64,
    most: i64,
}

impl Spread {
    fn new() -> Spread {
        Spread {
            least: i64::MAX,
            most: i64::MIN,
        }
    }

    #[inline(always)]
    fn add(&mut self, distance: i64) {
        self.least = self.least.min(distance);
        self.most = self.most.max(distance);
    }

    fn span(self) -> u64 {
        self.most.wrapping_sub(self.least).cast_unsigned()
    }
}

/// The mean of so many steps from the first number to the last, or 0 if there is none.
fn mean_step(first: i64, last: i64, steps: i64) -> i64 {
    if steps < 1 {
        return 0;
    }
    last.wrapping_sub(first) / steps
}

/// The form of lines that the samples lie close to: from the first time by the mean step, and from
/// the first value by the mean step or by 0, whichever is closer; then each is put below all of
/// them. The lowest bits that are 0 in each value's distance from the first are left out, as in the
/// bits of doubles with few digits.
pub(crate) fn choose(samples: &[Sample]) -> Form
    requires { length samples.now < 65536 }
    ensures { result.count ≡ length samples.now }
{
    let count = samples.len() as u16;
    let (first, last) = match samples {
        [] => return Form::plain(count),
        [first, ..] => (*first, samples[samples.len() - 1]),
    };
    let steps = samples.len() as i64 - 1;
    let mean = mean_step(first.t(), last.t(), steps);
    let time_step = u32::try_from(mean).unwrap_or(0);
    let slope = mean_step(first.v(), last.v(), steps).cast_unsigned();
    let mut differing = 0u64;
    for sample in samples {
        differing |= sample.v().wrapping_sub(first.v()).cast_unsigned();
    }
    let scale = if differing == 0 {
        0
    } else {
        differing.trailing_zeros()
    };
    let slope = (slope.wrapping_shr(scale)).wrapping_shl(scale);
    let mut times = Spread::new();
    let mut level = Spread::new();
    let mut rising = Spread::new();
    let mut time_line = first.t().cast_unsigned();
    let mut flat = first.v();
    let mut line = first.v().cast_unsigned();
    for sample in samples {
        times.add(sample.t().wrapping_sub(time_line.cast_signed()));
        level.add(sample.v().wrapping_sub(flat));
        rising.add(sample.v().wrapping_sub(line.cast_signed()));
        time_line = time_line.wrapping_add(time_step as u64);
        line = line.wrapping_add(slope);
    }
    let (values, value_step) = if rising.span() < level.span() {
        (rising, slope)
    } else {
        (level, 0)
    };
    let first_time = first.t().wrapping_add(times.least).cast_unsigned();
    let first_value = first.v().wrapping_add(values.least).cast_unsigned();
    let time_bits = bit_len(times.span());
    let value_bits = bit_len(values.span().wrapping_shr(scale));
    Form::laid_out(
        Form {
            first_time,
            first_value,
            value_step,
            time_step,
            count,
            width: 0,
            time_bits: 0,
            value_place: 0,
            skipped: 0,
            value_bits: 0,
            scale: (scale % 64) as u8,
        },
        time_bits,
        value_bits,
    )
}

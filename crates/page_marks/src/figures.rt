//! The figures of a row, by what its values mean.

ghost use Rattle.std.specs.Prelude.{◌≡◌, ◌⊎◌, ◌<◌, ◌≤◌, ◌^◌, ℕ, length, IsSome, IfSome};
ghost use Rattle.double_text.specs.Texts.{is_nan_bits};
ghost use Rattle.page_text.specs.Values.{AreBitsOf};
ghost use Rattle.page_marks.specs.Figures.{height_of, rank_of, IsEnd, AreDoubleFigures};
ghost use Rattle.page_marks.specs.Figures.{AreFiguresOf};

use labels::Sample;
use page_claims::{Figures, figures_of as whole_figures_of};
use page_text::Values;
use stored_doubles::restored;

/// An end of the doubles of a row.
#[derive(Clone, Copy, Debug, PartialEq, Eq, Drop)]
pub(crate) enum End {
    Least,
    Greatest,
}

const MINUS: u64 = 0x8000_0000_0000_0000;

const INFINITY: u64 = 0x7FF0_0000_0000_0000;

fn is_nan(bits: u64) -> bool
    ensures { result ≡ is_nan_bits bits }
{
    bits % MINUS > INFINITY
}

/// Where a double stands among those that are numbers.
fn height_of(bits: u64) -> u64
    requires { bits < 2 ^ 64 }
    ensures is { result ≡ height_of bits }
    ensures fits { height_of bits < 2 ^ 64 }
{
    if bits < MINUS {
        MINUS + bits
    } else {
        (u64::MAX - bits) + 1
    }
}

/// Where a double stands from an end; a NaN stands last.
fn rank_of(end: End, bits: u64) -> u64
    ensures { result ≡ rank_of end bits }
{
    if is_nan(bits) {
        return u64::MAX;
    }
    let height = height_of(bits);
    match end {
        End::Least => height,
        End::Greatest => u64::MAX - height,
    }
}

/// A number, and where the double for which it is kept stands.
#[derive(Clone, Copy, Debug, PartialEq, Eq, Drop)]
pub(crate) struct Placed {
    pub(crate) number: i64,
    pub(crate) rank: u64,
}

fn place_of(end: End, number: i64) -> Placed
    ensures same { result.number ≡ number }
    ensures ranked { (bits : ℕ) → AreBitsOf number bits → result.rank ≡ rank_of end bits }
{
    Placed {
        number,
        rank: rank_of(end, restored(number)),
    }
}

/// The one of two that stands first, the first of two that stand at one place.
fn first_of(a: Placed, b: Placed) -> Placed
    ensures one { (result ≡ a) ⊎ (result ≡ b) }
    ensures before_a { result.rank ≤ a.rank }
    ensures before_b { result.rank ≤ b.rank }
{
    if b.rank < a.rank { b } else { a }
}

/// The value of samples whose double is the least or the greatest, a NaN if there is no other.
fn end_of(end: End, samples: &[Sample]) -> i64
    requires { 0 < length samples.now }
    ensures { IsEnd end samples.now result }
{
    let mut found = place_of(end, samples[0].v());
    for sample in samples {
        found = first_of(found, place_of(end, sample.v()));
    }
    found.number
}

/// The figures of samples whose values are kept for doubles.
fn double_figures_of(samples: &[Sample]) -> Option<Figures>
    requires { 0 < length samples.now }
    ensures some { IsSome result }
    ensures figures { IfSome result (AreDoubleFigures samples.now) }
{
    let Figures { first, last, .. } = whole_figures_of(samples)?;
    Some(Figures {
        first,
        last,
        least: end_of(End::Least, samples),
        greatest: end_of(End::Greatest, samples),
    })
}

/// The figures of samples, in their order, by what their values mean; `None` if there is none. The
/// least and the greatest of doubles are those of the doubles that are numbers, if there is one.
pub fn figures_of(values: Values, samples: &[Sample]) -> Option<Figures>
    ensures some { 0 < length samples.now → IsSome result }
    ensures figures { IfSome result (λ f.
        (0 < length samples.now) × AreFiguresOf values samples.now f) }
{
    if samples.is_empty() {
        return None;
    }
    match values {
        Values::Whole => whole_figures_of(samples),
        Values::Doubles => double_figures_of(samples),
    }
}

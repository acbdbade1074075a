//! The figures of a row.

ghost use Rattle.std.specs.Prelude.{◌≡◌, ◌<◌, [], length, None, IsSome, IfSome};
ghost use Rattle.page_claims.specs.Figuring.{least_of, greatest_of, AreFigures};

use labels::Sample;

/// The figures of a row that has samples: the values of its first and its last, and the least and
/// the greatest of all.
#[derive(Clone, Copy, Debug, PartialEq, Eq, Drop)]
pub struct Figures {
    pub first: i64,
    pub last: i64,
    pub least: i64,
    pub greatest: i64,
}

/// The least of a number and the values of samples.
fn least_of(number: i64, samples: &[Sample]) -> i64
    ensures { result ≡ least_of number samples.now }
{
    let mut least = number;
    for sample in samples {
        least = least.min(sample.v());
    }
    least
}

/// The greatest of a number and the values of samples.
fn greatest_of(number: i64, samples: &[Sample]) -> i64
    ensures { result ≡ greatest_of number samples.now }
{
    let mut greatest = number;
    for sample in samples {
        greatest = greatest.max(sample.v());
    }
    greatest
}

/// The figures of samples, in their order; `None` if there is none.
pub fn figures_of(samples: &[Sample]) -> Option<Figures>
    ensures some { 0 < length samples.now → IsSome result }
    ensures none { samples.now ≡ [] → result ≡ None }
    ensures figures { IfSome result
        (λ f. AreFigures samples.now f.first f.last f.least f.greatest) }
{
    if samples.is_empty() {
        return None;
    }
    let first = samples[0].v();
    Some(Figures {
        first,
        last: samples[samples.len() - 1].v(),
        least: least_of(first, samples),
        greatest: greatest_of(first, samples),
    })
}

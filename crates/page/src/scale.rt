//! How far below the top of a sparkline a value stands.

ghost use Rattle.std.specs.Prelude.{◌≡◌};
ghost use Rattle.double_text.specs.Texts.{is_nan_bits};

use page_claims::Figures;
use page_layout::share;
use page_text::Values;
use stored_doubles::restored;

/// The place of a row's least value; that of its greatest stands so many steps above it.
const BOTTOM: u64 = 26;

const STEPS: u64 = 24;

/// The place of each value of a row whose values are all the same.
const MIDDLE: u64 = 14;

/// From which value to which a sparkline goes.
#[derive(Clone, Copy)]
pub(crate) enum Scale {
    Whole { least: i64, greatest: i64 },
    Doubles { least: f64, greatest: f64 },
    /// There is no double but NaNs.
    Nothing,
}

fn is_nan(bits: u64) -> bool
    ensures { result ≡ is_nan_bits bits }
{
    bits % 0x8000_0000_0000_0000 > 0x7FF0_0000_0000_0000
}

/// The double for which a number is kept, if it is no NaN.
fn double_of(number: i64) -> Option<f64> {
    let bits = restored(number);
    if is_nan(bits) {
        return None;
    }
    Some(f64::from_bits(bits))
}

/// How many steps above the least a double stands.
fn steps_above(value: f64, least: f64, greatest: f64) -> u64 {
    let above = (value - least) * 24.0;
    let span = greatest - least;
    let (mut steps, mut next) = (0u64, 1.0);
    for _ in 0..STEPS {
        if above >= span * next {
            steps = steps.saturating_add(1);
        }
        next += 1.0;
    }
    steps
}

fn whole_height(value: i64, least: i64, greatest: i64) -> u64 {
    let span = greatest.abs_diff(least);
    if span == 0 {
        return MIDDLE;
    }
    BOTTOM.saturating_sub(share(value.abs_diff(least), span, STEPS))
}

fn double_height(value: f64, least: f64, greatest: f64) -> u64 {
    if least == greatest {
        return MIDDLE;
    }
    BOTTOM.saturating_sub(steps_above(value, least, greatest))
}

impl Scale {
    /// The scale of a row with these figures.
    pub(crate) fn new(values: Values, figures: Figures) -> Scale {
        let Figures {
            least,
            greatest,
            ..
        } = figures;
        if values == Values::Whole {
            return Scale::Whole { least, greatest };
        }
        match (double_of(least), double_of(greatest)) {
            (Some(least), Some(greatest)) => Scale::Doubles { least, greatest },
            _ => Scale::Nothing,
        }
    }

    /// Where a value stands, as so many units below the top; a NaN stands nowhere.
    pub(crate) fn height_of(self, number: i64) -> Option<u64> {
        match self {
            Scale::Whole { least, greatest } => Some(whole_height(number, least, greatest)),
            Scale::Doubles { least, greatest } => {
                Some(double_height(double_of(number)?, least, greatest))
            }
            Scale::Nothing => None,
        }
    }
}

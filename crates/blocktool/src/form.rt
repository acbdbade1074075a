//! What is asked of the values of an import, by their form.

ghost use Rattle.std.specs.Prelude.{◌≡◌, ◌≤◌};
ghost use Rattle.blocktool.specs.Forms.{fractions_of, places_of, reading_of, values_of};

use block_folder::Values;
use exposition::{Fractions, Reading};
use imported_values::{Form, Rest};

/// How many digits after the point are kept.
pub(crate) fn places_of(form: Form) -> u32
    ensures is { result ≡ places_of form }
    ensures few { result ≤ 9 }
{
    match form {
        Form::Parts(policy) => policy.digits.number(),
        Form::Doubles => 0,
    }
}

/// What the values of the outputs mean.
pub(crate) fn values_of(form: Form) -> Values
    ensures { result ≡ values_of form }
{
    match form {
        Form::Parts(_) => Values::Whole,
        Form::Doubles => Values::Doubles,
    }
}

fn fractions_of(rest: Rest) -> Fractions
    ensures { result ≡ fractions_of rest }
{
    match rest {
        Rest::Round => Fractions::Rounded,
        Rest::Refuse | Rest::Drop => Fractions::Beside,
    }
}

/// What the values of a text are read as.
pub(crate) fn reading_of(form: Form) -> Reading
    ensures { result ≡ reading_of form }
{
    match form {
        Form::Parts(policy) => Reading::Decimals(fractions_of(policy.rest)),
        Form::Doubles => Reading::Doubles,
    }
}

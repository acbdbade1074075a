//! What values are kept as.

ghost use Rattle.imported_values.specs.Forms.{IsKeptDouble, IsVerdictIn};

use crate::policy::{Policy, Verdict, judge};
use stored_doubles::stored;

/// What values are kept as.
#[derive(Clone, Copy, Debug, Drop)]
pub enum Form {
    /// Whole numbers of parts, as a policy says.
    Parts(Policy),
    /// The numbers for their doubles. Each value has one: none is left out, refused or rounded.
    Doubles,
}

/// What becomes of the value with these bits in a form: what its policy says, or it is kept as the
/// number for its double, stale markers and every other NaN too.
pub fn judge_in(form: Form, bits: u64) -> Verdict
    ensures { IsVerdictIn form bits result }
{
    match form {
        Form::Parts(policy) => judge(policy, bits),
        Form::Doubles => kept_double(bits),
    }
}

fn kept_double(bits: u64) -> Verdict
    ensures { IsKeptDouble bits result }
{
    Verdict::Kept(stored(bits))
}

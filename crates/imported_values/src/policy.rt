//! Which values are kept, left out or refused.

ghost use Rattle.std.specs.Prelude.{◌≡◌, ℤ};
ghost use Rattle.doubles.specs.Double.{stale_marker};
ghost use Rattle.imported_values.specs.Values.{IsExact, IsNearestParts, IsRoundedBy, IsVerdict};
ghost use Rattle.imported_values.specs.Values.{IsVerdictOfRest, verdict_of_stale};
ghost use Rattle.imported_values.specs.declared.policy.Reason.TheVariants as reason;
ghost use Rattle.imported_values.specs.declared.policy.Verdict.TheVariants.{Kept, Left, Rounded};

use crate::digits::Digits;
use crate::values::exact;
use doubles::{is_stale, rounded};

/// What is done with Prometheus's stale markers, which are no samples.
#[derive(Clone, Copy, Debug, PartialEq, Eq, Drop)]
pub enum Stale {
    /// They are left out, and counted.
    Drop,
    /// The first is refused.
    Refuse,
}

/// What is done with values that are no whole number of parts: other fractions, NaN, infinities,
/// and numbers of 2^63 parts and more in size.
#[derive(Clone, Copy, Debug, PartialEq, Eq, Drop)]
pub enum Rest {
    /// The first is refused.
    Refuse,
    /// They are left out, and counted.
    Drop,
    /// Fractions are kept as the nearest number of parts, of two the even one, and counted. What
    /// has none below 2^63 in size is left out: NaN, infinities and larger numbers.
    Round,
}

/// How values are kept.
#[derive(Clone, Copy, Debug, Drop)]
pub struct Policy {
    /// How many digits after the point are kept.
    pub digits: Digits,
    /// What is done with values that have more digits, or are no number.
    pub rest: Rest,
    /// What is done with stale markers.
    pub stale: Stale,
}

/// Why a value is not kept.
#[derive(Clone, Copy, Debug, PartialEq, Eq, Drop)]
pub enum Reason {
    /// It is Prometheus's stale marker.
    Stale,
    /// It is no whole number of parts, or one of 2^63 or more in size.
    Rest,
}

/// What becomes of a value.
#[derive(Clone, Copy, Debug, PartialEq, Eq, Drop)]
pub enum Verdict {
    /// It is kept as this number of parts, which it is.
    Kept(i64),
    /// It is kept as the nearest number of parts, which is this.
    Rounded(i64),
    /// It is left out.
    Left(Reason),
    /// It is refused.
    Refused(Reason),
}

/// What becomes of the value with these bits: it is kept where it is a number of parts ([`exact`]),
/// and else left out, refused or rounded as the policy says. A stale marker is left out or refused.
pub fn judge(policy: Policy, bits: u64) -> Verdict
    ensures { IsVerdict policy bits result }
{
    decide(policy, bits)
}

fn decide(policy: Policy, bits: u64) -> Verdict
    // A stale marker is left out or refused.
    ensures stale { bits ≡ stale_marker → result ≡ verdict_of_stale policy.stale }
    // A number of parts is kept as it is.
    ensures kept { (v : ℤ) → IsExact policy.digits bits v → result ≡ Kept v }
    // Any other value is left out, refused or rounded.
    ensures rest { (bits ≡ stale_marker → ⊥) → ((v : ℤ) → IsExact policy.digits bits v → ⊥)
        → IsVerdictOfRest policy.rest policy.digits bits result }
    // Nothing else is kept.
    ensures only { (v : ℤ) → result ≡ Kept v → IsExact policy.digits bits v }
    // Nothing else is rounded.
    ensures rounded { (v : ℤ) → result ≡ Rounded v → IsRoundedBy policy bits v }
{
    if is_stale(bits) {
        return of_stale(policy.stale);
    }
    match exact(policy.digits, bits) {
        Some(value) => Verdict::Kept(value),
        None => of_rest(policy, bits),
    }
}

fn of_stale(stale: Stale) -> Verdict
    ensures { result ≡ verdict_of_stale stale }
{
    match stale {
        Stale::Drop => Verdict::Left(Reason::Stale),
        Stale::Refuse => Verdict::Refused(Reason::Stale),
    }
}

fn of_rest(policy: Policy, bits: u64) -> Verdict
    ensures rest { IsVerdictOfRest policy.rest policy.digits bits result }
    ensures only { (v : ℤ) → result ≡ Kept v → ⊥ }
    ensures rounded { (v : ℤ) → result ≡ Rounded v → IsRoundedBy policy bits v }
{
    match policy.rest {
        Rest::Drop => Verdict::Left(Reason::Rest),
        Rest::Refuse => Verdict::Refused(Reason::Rest),
        Rest::Round => of_nearest(policy.digits, bits),
    }
}

fn of_nearest(digits: Digits, bits: u64) -> Verdict
    ensures nearest { (v : ℤ) → IsNearestParts digits bits v → result ≡ Rounded v }
    ensures none { ((v : ℤ) → IsNearestParts digits bits v → ⊥) → result ≡ Left reason.Rest }
    ensures only { (v : ℤ) → result ≡ Kept v → ⊥ }
    ensures rounded { (v : ℤ) → result ≡ Rounded v → IsNearestParts digits bits v }
{
    match rounded(bits, digits.number()) {
        Some(value) => Verdict::Rounded(value),
        None => Verdict::Left(Reason::Rest),
    }
}

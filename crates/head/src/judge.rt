//! What the step of a commit says of a sample.

ghost use Rattle.std.specs.Prelude.{◌≡◌, if◌then◌else◌};
ghost use Rattle.head.specs.declared.left.Reason.TheVariants.{Limit};
ghost use Rattle.head.specs.Meeting.{judged};

use crate::left::Reason;
use labels::Sample;

/// What becomes of a sample.
#[derive(Clone, Copy, Debug, PartialEq, Eq, Drop)]
pub(crate) enum Met {
    /// It joins.
    Joins,
    /// It is there already, and changes nothing.
    Held,
    /// It is refused.
    Refused(Reason),
}

/// Whether a sample that is later than all others of its label set joins.
fn by_room(is_full: bool) -> Met
    ensures { result ≡ (if is_full then Met.Refused Limit else Met.Joins) }
{
    if is_full {
        Met::Refused(Reason::Limit)
    } else {
        Met::Joins
    }
}

/// What the step says of a sample, by the newest one of its label set, if it has one, and whether
/// there is no room for one more. Each refusal of a sample is decided here.
pub(crate) fn judge(floor: i64, newest: Option<Sample>, is_full: bool, sample: Sample) -> Met
    ensures { result ≡ judged floor newest is_full sample }
{
    if sample.t() < floor {
        return Met::Refused(Reason::OutOfBounds);
    }
    let Some(newest) = newest else {
        return by_room(is_full);
    };
    if sample.t() < newest.t() {
        return Met::Refused(Reason::OutOfOrder);
    }
    if sample.t() != newest.t() {
        return by_room(is_full);
    }
    if sample.v() == newest.v() {
        Met::Held
    } else {
        Met::Refused(Reason::Duplicate)
    }
}

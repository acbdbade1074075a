//! Laws of samples whose values are kept as doubles.

ghost use Rattle.kept_samples.specs.Doubles.{DoublesAreAllKept, NoDoubleIsRefused};

/// Where values are kept as doubles, each sample that is asked for and not deleted is kept, with
/// every bit of its value.
pub fn doubles_are_all_kept()
    ensures { DoublesAreAllKept }
{}

/// Where values are kept as doubles, none is refused.
pub fn no_double_is_refused()
    ensures { NoDoubleIsRefused }
{}

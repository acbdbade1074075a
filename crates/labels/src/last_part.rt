//! What the content of a list of parts is, point by point.

ghost use Rattle.std.specs.Prelude.{List, T};
ghost use Rattle.std.specs.FinMap.Entries.{is_sorted};
ghost use Rattle.labels.specs.Labels.{point_cmp};
ghost use Rattle.labels.specs.LastParts.{AreParts, HoldsLast};
ghost use Rattle.labels.specs.Parts.{Part, content_of};

/// A law: the content of parts has a sample exactly where the last of the parts that have one at
/// its label set and time has this one; and no point stands in it twice.
pub fn last_part_counts()
    ensures points { (parts : List Part) → AreParts parts → HoldsLast parts (content_of parts) }
    ensures once { (parts : List Part) → T (is_sorted point_cmp (content_of parts)) }
{}

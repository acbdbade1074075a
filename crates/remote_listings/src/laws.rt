//! What it means that a listing is in order.

ghost use Rattle.std.specs.Prelude.{◌↔◌, ℕ, List};
ghost use Rattle.std.specs.List.{Contains};
ghost use Rattle.std.specs.List.Sorted.{IsStrictlySortedBy};
ghost use Rattle.labels.specs.Labels.{Labels, labels_cmp, text_cmp};
ghost use Rattle.remote_listings.specs.Listed.{in_order};

/// A law: what is in order ascends strictly, so nothing stands in it twice, and it has exactly the
/// items of the list.
pub fn listing_laws()
    ensures texts_rise { (xs : List (List ℕ))
        → IsStrictlySortedBy text_cmp (in_order text_cmp xs) }
    ensures sets_rise { (xs : List Labels)
        → IsStrictlySortedBy labels_cmp (in_order labels_cmp xs) }
    ensures texts_stand { (xs : List (List ℕ)) (x : List ℕ)
        → Contains (in_order text_cmp xs) x ↔ Contains xs x }
    ensures sets_stand { (xs : List Labels) (x : Labels)
        → Contains (in_order labels_cmp xs) x ↔ Contains xs x }
{}

//! Tests of items and of those that stand next to them.

ghost use Rattle.std.specs.Prelude.{◌≡◌, ◌∷◌};
ghost use Rattle.std.specs.List.{list_all};
ghost use Rattle.std.specs.Ordering.{is_lt};
ghost use Rattle.labels.specs.Labels.{text_cmp};
ghost use Rattle.labels.specs.LabelSets.{are_named, has_value};
ghost use Rattle.labels.specs.Pairs.{texts_of};
ghost use Rattle.kept_walk.specs.Fields.{differs, each_next, is_before, is_label_set};

use labels::{MAX_LABELS, Row, is_name};

fn is_before(a: &(&str, &str), b: &(&str, &str)) -> bool
    ensures { result ≡ is_lt (text_cmp a.now.0.now b.now.0.now) }
{
    a.0.cmp(b.0).is_lt()
}

/// Whether pairs are in the strict order of their names.
fn are_by_name(pairs: &[(&str, &str)]) -> bool
    ensures { result ≡ each_next is_before (texts_of pairs.now) }
{
    for i in 1..pairs.len() {
        if !is_before(&pairs[i - 1], &pairs[i]) {
            return false;
        }
    }
    true
}

fn are_named(pairs: &[(&str, &str)]) -> bool
    ensures { result ≡ are_named (texts_of pairs.now) }
{
    for (name, _) in pairs {
        if !is_name(name) {
            return false;
        }
    }
    true
}

fn have_values(pairs: &[(&str, &str)]) -> bool
    ensures { result ≡ list_all has_value (texts_of pairs.now) }
{
    for (_, value) in pairs {
        if value.is_empty() {
            return false;
        }
    }
    true
}

/// Whether pairs are a label set.
pub(crate) fn are_labels(pairs: &[(&str, &str)]) -> bool
    ensures { result ≡ is_label_set (texts_of pairs.now) }
{
    are_by_name(pairs) && are_named(pairs) && have_values(pairs) && pairs.len() <= MAX_LABELS
}

/// Whether no two runs that stand side by side have one label set.
pub(crate) fn differ(runs: &[Row]) -> bool
    ensures { result ≡ each_next differs runs.now }
{
    for i in 1..runs.len() {
        if runs[i - 1].labels() == runs[i].labels() {
            return false;
        }
    }
    true
}

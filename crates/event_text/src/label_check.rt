//! Whether pairs are a label set.

ghost use Rattle.std.specs.Prelude.{◌≡◌};
ghost use Rattle.std.specs.List.{list_all};
ghost use Rattle.std.specs.Ordering.{is_lt};
ghost use Rattle.labels.specs.Labels.{text_cmp};
ghost use Rattle.labels.specs.LabelSets.{are_named, has_value};
ghost use Rattle.labels.specs.Pairs.{texts_of};
ghost use Rattle.event_text.specs.Neighbours.{neighbours};
ghost use Rattle.event_text.specs.Reading.{are_labels, rises};

use labels::is_name;

fn is_before(a: &(&str, &str), b: &(&str, &str)) -> bool
    ensures { result ≡ is_lt (text_cmp a.now.0.now b.now.0.now) }
{
    a.0.cmp(b.0).is_lt()
}

/// Whether pairs are in the strict order of their names.
fn are_by_name(pairs: &[(&str, &str)]) -> bool
    ensures { result ≡ neighbours rises (texts_of pairs.now) }
{
    for i in 1..pairs.len() {
        if !is_before(&pairs[i - 1], &pairs[i]) {
            return false;
        }
    }
    true
}

fn are_named(pairs: &[(&str, &str)]) -> bool
    ensures { result ≡ are_named (texts_of pairs.now) }
{
    for (name, _) in pairs {
        if !is_name(name) {
            return false;
        }
    }
    true
}

fn have_values(pairs: &[(&str, &str)]) -> bool
    ensures { result ≡ list_all has_value (texts_of pairs.now) }
{
    for (_, value) in pairs {
        if value.is_empty() {
            return false;
        }
    }
    true
}

/// Whether pairs are a label set.
pub(crate) fn are_labels(pairs: &[(&str, &str)]) -> bool
    ensures { result ≡ are_labels (texts_of pairs.now) }
{
    are_by_name(pairs) && are_named(pairs) && have_values(pairs) && pairs.len() <= 64
}

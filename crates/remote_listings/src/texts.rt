//! The names and the values that label sets have.

ghost use Rattle.std.specs.Prelude.{◌≡◌, flat_map, map, IfOk, OnOk};
ghost use Rattle.labels.specs.Labels.{text_cmp};
ghost use Rattle.remote_listings.specs.Listed.{in_order, names_in, names_of, values_in, values_of};
ghost use Rattle.remote_listings.specs.Sets.{bytes_in, HasAdded};

use labels::LabelSet;
use std::alloc::{AllocError, Global};
use std::collections::BTreeSet;

/// Adds the names of a label set.
fn add_names<'a>(names: &mut BTreeSet<&'a str>, labels: &'a LabelSet) -> Result<(), AllocError>
    ensures { OnOk result (HasAdded (names_in labels.entry.now) names.old names.new) }
{
    for at in 0..labels.len() {
        let (name, _) = labels.pair(at);
        names.insert(name)?;
    }
    Ok(())
}

fn name_set(alloc: Global, sets: &[LabelSet]) -> Result<BTreeSet<&str>, AllocError>
    ensures { IfOk result (λ names.
        bytes_in names ≡ in_order text_cmp (flat_map names_in sets.now)) }
{
    let mut names = BTreeSet::new(alloc);
    for labels in sets {
        add_names(&mut names, labels)?;
    }
    Ok(names)
}

fn in_list<'a>(alloc: Global, texts: BTreeSet<&'a str>) -> Result<Vec<&'a str>, AllocError>
    ensures { IfOk result (λ all. all.items ≡ texts.entry.keys) }
{
    texts.into_iter().collect(alloc)
}

/// The names of label sets, in the order of their bytes, each once.
#[tactic(auto, unfolding(crate::specs::Listed::names_of))]
pub fn names_of(alloc: Global, sets: &[LabelSet]) -> Result<Vec<&str>, AllocError>
    ensures { IfOk result (λ names. map (λ name. name.now) names.items ≡ names_of sets.now) }
{
    let names = name_set(alloc, sets)?;
    in_list(alloc, names)
}

/// Adds the value that a label set has under a name, if it has one.
fn add_value<'a>(
    values: &mut BTreeSet<&'a str>,
    labels: &'a LabelSet,
    name: &str,
) -> Result<(), AllocError>
    ensures { OnOk result (HasAdded (values_in name.now labels.entry.now) values.old values.new) }
{
    let value = labels.value(name);
    if !value.is_empty() {
        values.insert(value)?;
    }
    Ok(())
}

fn value_set<'a>(
    alloc: Global,
    sets: &'a [LabelSet],
    name: &str,
) -> Result<BTreeSet<&'a str>, AllocError>
    ensures { IfOk result (λ values.
        bytes_in values ≡ in_order text_cmp (flat_map (values_in name.now) sets.entry.now)) }
{
    let mut values = BTreeSet::new(alloc);
    for labels in sets {
        add_value(&mut values, labels, name)?;
    }
    Ok(values)
}

/// The values that label sets have under a name, in the order of their bytes, each once.
#[tactic(auto, unfolding(crate::specs::Listed::values_of))]
pub fn values_of<'a>(
    alloc: Global,
    sets: &'a [LabelSet],
    name: &str,
) -> Result<Vec<&'a str>, AllocError>
    ensures { IfOk result (λ values.
        map (λ value. value.now) values.items ≡ values_of name.now sets.entry.now) }
{
    let values = value_set(alloc, sets, name)?;
    in_list(alloc, values)
}

//! Where the series of a label set is.

ghost use Rattle.std.specs.Prelude.{◌≡◌, IfOk, MatchOption, slice_get, Some, None};
ghost use Rattle.std.specs.BTreeMap.{get};
ghost use Rattle.labels.specs.Labels.{labels_cmp};
ghost use Rattle.kept_world.specs.Sound.{IsMapOf, AreApart, label_sets};

use crate::series::Series;
use labels::LabelSet;
use std::alloc::{AllocError, Global};
use std::collections::BTreeMap;

/// The place of each label set.
pub(crate) type Places = BTreeMap<LabelSet, usize>;

pub(crate) fn place_of(places: &Places, labels: &LabelSet) -> Option<usize>
    ensures { result ≡ get labels_cmp places.now labels.now }
{
    places.get(labels).copied()
}

/// The places of series; `None` if a label set stands twice.
pub(crate) fn places_of(alloc: Global, series: &[Series]) -> Result<Option<Places>, AllocError>
    ensures { IfOk result (λ found. MatchOption found
        (AreApart (label_sets series.now) → ⊥)
        (λ places. IsMapOf places (label_sets series.now) × AreApart (label_sets series.now))) }
{
    let mut places = BTreeMap::new(alloc);
    for (place, one) in series.iter().enumerate() {
        let labels = one.labels().try_clone()?;
        let before = places.insert(labels, place)?;
        if before.is_some() {
            return Ok(None);
        }
    }
    Ok(Some(places))
}

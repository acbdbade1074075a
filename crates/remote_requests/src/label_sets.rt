//! The labels of a series.

ghost use Rattle.std.specs.Prelude.{◌≡◌, false, true, map, nat_lt, IfOk, MatchOption};
ghost use Rattle.std.specs.List.{list_all};
ghost use Rattle.labels.specs.Pairs.{pairs_of};
ghost use Rattle.remote_write.specs.Reading.{label_seen};
ghost use Rattle.remote_requests.specs.Names.{starts_metric, continues_metric};
ghost use Rattle.remote_requests.specs.Names.{may_name_metric, names_metric};
ghost use Rattle.remote_requests.specs.Series.{is_text_pair, label_pairs, bytes_in, IsLabelled};

use crate::LeftOut;
use labels::{LabelError, LabelSet, continues_name, starts_name};
use remote_write::Label;
use std::alloc::{AllocError, Global};

/// The most bytes of the names and values of a series.
const MAX_BYTES: usize = 65_536;

/// Whether names and values have more than [`MAX_BYTES`].
fn are_long(labels: &[Label<'_>]) -> bool
    ensures { result ≡ nat_lt 65536 (bytes_in (label_pairs (map label_seen labels.now))) }
{
    let mut room = MAX_BYTES;
    for label in labels {
        let name = label.name.len();
        if name > room {
            return true;
        }
        let value = label.value.len();
        if value > room - name {
            return true;
        }
        room = room - name - value;
    }
    false
}

fn starts_metric(byte: u8) -> bool
    ensures { result ≡ starts_metric byte }
{
    starts_name(byte) || byte == b':'
}

fn continues_metric(byte: u8) -> bool
    ensures { result ≡ continues_metric byte }
{
    continues_name(byte) || byte == b':'
}

fn continue_metric(bytes: &[u8]) -> bool
    ensures { result ≡ list_all continues_metric bytes.now }
{
    bytes.iter().all(|byte| continues_metric(*byte))
}

fn may_name_metric(text: &str) -> bool
    ensures { result ≡ may_name_metric text.now }
{
    match text.as_bytes().split_first() {
        Some((first, rest)) => starts_metric(*first) && continue_metric(rest),
        None => true,
    }
}

/// Whether the value of `__name__` is absent, or the name of a metric: `[a-zA-Z_:][a-zA-Z0-9_:]*`.
/// Prometheus takes no reply with a row of which this is not so.
pub fn names_metric(labels: &LabelSet) -> bool
    ensures { result ≡ names_metric labels.now }
{
    may_name_metric(labels.value("__name__"))
}

fn text_pairs(
    alloc: Global,
    labels: &[Label<'_>],
) -> Result<Option<Vec<(String, String)>>, AllocError>
    ensures { let pairs = label_pairs (map label_seen labels.now) in
        IfOk result (λ o. MatchOption o (list_all is_text_pair pairs ≡ false)
        (λ v. (list_all is_text_pair pairs ≡ true) × (pairs_of v.items ≡ pairs))) }
{
    let mut pairs = Vec::with_capacity(alloc, labels.len())?;
    for label in labels {
        let Ok(name) = simdutf8::compat::from_utf8(label.name) else {
            return Ok(None);
        };
        let Ok(value) = simdutf8::compat::from_utf8(label.value) else {
            return Ok(None);
        };
        pairs.push((
            String::from_str(alloc, name)?,
            String::from_str(alloc, value)?,
        ))?;
    }
    Ok(Some(pairs))
}

/// The label set of labels, or why a series that has them is left out.
pub fn label_set(
    alloc: Global,
    labels: &[Label<'_>],
) -> Result<Result<LabelSet, LeftOut>, AllocError>
    ensures { IfOk result (IsLabelled (label_pairs (map label_seen labels.now))) }
{
    if are_long(labels) {
        return Ok(Err(LeftOut::TooLong));
    }
    let Some(pairs) = text_pairs(alloc, labels)? else {
        return Ok(Err(LeftOut::BadText));
    };
    match LabelSet::new(alloc, pairs) {
        Ok(set) => {
            if names_metric(&set) {
                Ok(Ok(set))
            } else {
                Ok(Err(LeftOut::BadMetric))
            }
        }
        Err(LabelError::BadName) => Ok(Err(LeftOut::BadName)),
        Err(LabelError::Repeated) => Ok(Err(LeftOut::Repeated)),
        Err(LabelError::Limit) => Ok(Err(LeftOut::TooMany)),
        Err(LabelError::Memory) => Err(AllocError),
    }
}

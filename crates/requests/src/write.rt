//! The body of `/write`: rows of label sets and samples.

ghost use Rattle.std.specs.Prelude.{◌≡◌, ◌<◌, ◌≤◌, length, option_map, string_bytes, IfOk};
ghost use Rattle.std.specs.Prelude.{MatchBool};
ghost use Rattle.labels.specs.Pairs.{pairs_of};
ghost use Rattle.serde_json.specs.View.{view, items_view, members_view};
ghost use Rattle.requests.specs.Rows.{pair_bytes, text_pair, pairs_in, labels_at, time_item};
ghost use Rattle.requests.specs.Rows.{integer_item, sample_in, samples_in, samples_at, batch_of};
ghost use Rattle.requests.specs.Rows.{IsLabelSetOf, IsRowIn, AreRowsIn};
ghost use Rattle.requests.specs.Writing.{AreRowsInBody, WriteMeans};
ghost use Rattle.requests.specs.Requests.{Told};

use crate::usual::usual_rows;
use crate::values::{has_members, json_of};
use crate::{MAX_BATCH, ReadError, Refusal, Request};
use labels::{LabelError, LabelSet, Row, Sample, is_time};
use serde_json::{Map, Value};
use std::alloc::{AllocError, Global};

fn text_pair(
    alloc: Global,
    name: &String,
    value: &Value,
) -> Result<Option<(String, String)>, AllocError>
    ensures { IfOk result (λ o. option_map pair_bytes o
        ≡ text_pair (string_bytes name.now) (view value.now)) }
{
    let Some(text) = value.as_str() else {
        return Ok(None);
    };
    let name = name.clone()?;
    let text = String::from_str(alloc, text)?;
    Ok(Some((name, text)))
}

fn pairs_in(
    alloc: Global,
    members: &Map<String, Value>,
) -> Result<Option<Vec<(String, String)>>, AllocError>
    ensures { IfOk result (λ o. option_map (λ v. pairs_of v.items) o
        ≡ pairs_in (members_view members.now.entries)) }
{
    let mut pairs = Vec::new(alloc);
    for (name, value) in members {
        let Some(pair) = text_pair(alloc, name, value)? else {
            return Ok(None);
        };
        pairs.push(pair)?;
    }
    Ok(Some(pairs))
}

fn labels_at(alloc: Global, value: &Value) -> Result<Option<Vec<(String, String)>>, AllocError>
    ensures { IfOk result (λ o. option_map (λ v. pairs_of v.items) o ≡ labels_at (view value.now)) }
{
    let Some(labels) = value.get("labels") else {
        return Ok(None);
    };
    match labels.as_object() {
        Some(members) => pairs_in(alloc, members),
        None => Ok(None),
    }
}

fn time_item(value: &Value, i: usize) -> Option<i64>
    ensures { result ≡ time_item i (view value.now) }
{
    let t = value.get(i)?.as_i64()?;
    if is_time(t) { Some(t) } else { None }
}

fn integer_item(value: &Value, i: usize) -> Option<i64>
    ensures { result ≡ integer_item i (view value.now) }
{
    value.get(i)?.as_i64()
}

fn sample_in(value: &Value) -> Option<Sample>
    ensures { result ≡ sample_in (view value.now) }
{
    if value.as_array()?.len() != 2 {
        return None;
    }
    let t = time_item(value, 0)?;
    let v = integer_item(value, 1)?;
    Some(Sample::new(t, v))
}

fn samples_in(alloc: Global, items: &[Value]) -> Result<Option<Vec<Sample>>, AllocError>
    ensures { IfOk result (λ o. option_map (λ v. v.items) o ≡ samples_in (items_view items.now)) }
{
    let mut samples = Vec::with_capacity(alloc, items.len())?;
    for item in items {
        let Some(sample) = sample_in(item) else {
            return Ok(None);
        };
        samples.push(sample)?;
    }
    Ok(Some(samples))
}

fn samples_at(alloc: Global, value: &Value) -> Result<Option<Vec<Sample>>, AllocError>
    ensures { IfOk result (λ o. option_map (λ v. v.items) o ≡ samples_at (view value.now)) }
{
    let Some(samples) = value.get("samples") else {
        return Ok(None);
    };
    match samples.as_array() {
        Some(items) => samples_in(alloc, items.as_slice()),
        None => Ok(None),
    }
}

/// The label set of these pairs, if they make one.
fn label_set(alloc: Global, pairs: Vec<(String, String)>) -> Result<Option<LabelSet>, AllocError>
    ensures { IfOk result (IsLabelSetOf (pairs_of pairs.items)) }
{
    match LabelSet::new(alloc, pairs) {
        Ok(labels) => Ok(Some(labels)),
        Err(LabelError::Memory) => Err(AllocError),
        Err(_) => Ok(None),
    }
}

fn row_in(alloc: Global, value: &Value) -> Result<Option<Row>, AllocError>
    ensures { IfOk result (IsRowIn (view value.now)) }
{
    if !has_members(value, 2) {
        return Ok(None);
    }
    let Some(pairs) = labels_at(alloc, value)? else {
        return Ok(None);
    };
    let Some(labels) = label_set(alloc, pairs)? else {
        return Ok(None);
    };
    let Some(samples) = samples_at(alloc, value)? else {
        return Ok(None);
    };
    Ok(Some(Row::new(labels, samples)))
}

fn rows_in(alloc: Global, items: &[Value]) -> Result<Option<Vec<Row>>, AllocError>
    ensures { IfOk result (λ o. AreRowsIn (items_view items.now) (option_map (λ v. v.items) o)) }
{
    let mut rows = Vec::with_capacity(alloc, items.len())?;
    for item in items {
        let Some(row) = row_in(alloc, item)? else {
            return Ok(None);
        };
        rows.push(row)?;
    }
    Ok(Some(rows))
}

/// The rows by way of a tree of JSON values.
fn rows_by_tree(alloc: Global, body: &[u8]) -> Result<Option<Vec<Row>>, AllocError>
    ensures { IfOk result (λ o. AreRowsInBody body.now (option_map (λ v. v.items) o)) }
{
    let Some(value) = json_of(alloc, body)? else {
        return Ok(None);
    };
    match value.as_array() {
        Some(items) => rows_in(alloc, items.as_slice()),
        None => Ok(None),
    }
}

fn rows_in_body(alloc: Global, body: &[u8]) -> Result<Option<Vec<Row>>, AllocError>
    ensures { IfOk result (λ o. AreRowsInBody body.now (option_map (λ v. v.items) o)) }
{
    match usual_rows(alloc, body)? {
        Some(rows) => Ok(Some(rows)),
        None => rows_by_tree(alloc, body),
    }
}

/// Whether the rows have at most [`MAX_BATCH`] samples.
fn are_few(rows: &[Row]) -> bool
    ensures { MatchBool result (length (batch_of rows.now) ≤ 4096)
        (4096 < length (batch_of rows.now)) }
{
    let mut room = MAX_BATCH;
    for row in rows {
        let count = row.samples().len();
        if count > room {
            return false;
        }
        room -= count;
    }
    true
}

/// The rows of the batch that a body asks: `H7` where it is not of the form, or has a label set
/// that is refused, a time that is none, or more than [`MAX_BATCH`] samples.
pub fn write(alloc: Global, body: &[u8]) -> Result<Request, ReadError>
    ensures { Told (WriteMeans body.now) result }
{
    let Some(rows) = rows_in_body(alloc, body)? else {
        return Err(ReadError::Refused(Refusal::BadBody));
    };
    if !are_few(rows.as_slice()) {
        return Err(ReadError::Refused(Refusal::BadBody));
    }
    Ok(Request::Write(rows))
}

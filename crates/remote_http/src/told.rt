//! The reply that reports what was left out.

ghost use Rattle.std.specs.Prelude.{◌≡◌, IfOk, map, option_map};
ghost use Rattle.serde_json.specs.Data.{object};
ghost use Rattle.serde_json.specs.View.{view};
ghost use Rattle.serde_json.specs.Written.{compact_text};
ghost use Rattle.remote_requests.specs.declared.status.Status.TheVariants.{BadRequest, Done};
ghost use Rattle.remote_http.specs.Counting.{count_seen};
ghost use Rattle.remote_http.specs.Reply.{text_of};
ghost use Rattle.remote_http.specs.Text.{done_data, json_text};
ghost use Rattle.remote_http.specs.Told.{cause_by, count_members, counts_of, left_data};
ghost use Rattle.remote_http.specs.Told.{left_one, status_by, store_one, text_by};

use crate::reply::{Reply, json_reply};
use head::{Left as StoreLeft, Reason};
use remote_requests::{Left, LeftOut, Status};
use serde_json::{Map, Value, json, put};
use std::alloc::{AllocError, Global};

fn left_count(left: &Left, why: LeftOut) -> (&'static str, u64)
    ensures { count_seen result ≡ left_one left.now why }
{
    (why.code(), left.count(why))
}

fn store_count(why: Reason, count: usize) -> (&'static str, u64)
    ensures { count_seen result ≡ store_one why count }
{
    (why.code(), count as u64)
}

/// How many were left out for each code, in the order of the codes.
fn counts_of(left: &Left, store: StoreLeft) -> [(&'static str, u64); 13]
    ensures { map count_seen result ≡ counts_of left.now store }
{
    [
        left_count(left, LeftOut::NoTime),
        store_count(Reason::OutOfBounds, store.out_of_bounds),
        store_count(Reason::OutOfOrder, store.out_of_order),
        store_count(Reason::Duplicate, store.duplicate),
        store_count(Reason::Limit, store.limit),
        left_count(left, LeftOut::BadName),
        left_count(left, LeftOut::Repeated),
        left_count(left, LeftOut::TooMany),
        left_count(left, LeftOut::BadText),
        left_count(left, LeftOut::TooLong),
        left_count(left, LeftOut::BadMetric),
        left_count(left, LeftOut::Histogram),
        left_count(left, LeftOut::TooFarAhead),
    ]
}

/// Why the first was left out, or none if nothing was.
fn cause_of(first: Option<LeftOut>, later: Option<Reason>) -> Option<&'static str>
    ensures { option_map (λ code. code.now) result ≡ cause_by first later }
{
    match (first, later) {
        (Some(why), _) => Some(why.code()),
        (None, Some(why)) => Some(why.code()),
        (None, None) => None,
    }
}

fn count_members(alloc: Global, counts: &[(&'static str, u64)]) -> Result<Value, AllocError>
    ensures { IfOk result (λ v. view v ≡ object (count_members (map count_seen counts.now))) }
{
    let mut members = Map::new(alloc);
    for &(code, count) in counts {
        if count != 0 {
            let value = json!(in alloc; count)?;
            put(&mut members, alloc, code, value)?;
        }
    }
    Ok(Value::Object(members))
}

fn left_value(
    alloc: Global,
    cause: &str,
    counts: &[(&'static str, u64)],
    total: u64,
) -> Result<Value, AllocError>
    ensures { IfOk result (λ v.
        view v ≡ left_data cause.now (map count_seen counts.now) total) }
{
    let left = count_members(alloc, counts)?;
    let left = &left;
    json!(in alloc; {"cause": cause, "left": left, "of": total, "refused": "G5"})
}

fn left_line(
    alloc: Global,
    cause: &str,
    counts: &[(&'static str, u64)],
    total: u64,
) -> Result<Vec<u8>, AllocError>
    ensures { IfOk result (λ line.
        line.items ≡ compact_text (left_data cause.now (map count_seen counts.now) total)) }
{
    left_value(alloc, cause, counts, total)?.to_vec(alloc)
}

fn left_reply(
    alloc: Global,
    cause: &str,
    counts: &[(&'static str, u64)],
    total: u64,
) -> Result<Reply, AllocError>
    ensures number { IfOk result (λ r. r.status ≡ BadRequest) }
    ensures spelled { IfOk result (λ r. text_of r
        ≡ json_text BadRequest
        (compact_text (left_data cause.now (map count_seen counts.now) total))) }
{
    let line = left_line(alloc, cause, counts, total)?;
    json_reply(alloc, Status::BadRequest, line)
}

/// The reply to a write of which the store left this out. It is `done` if the request left out
/// nothing either. Otherwise it counts what was left out by its codes.
pub(crate) fn kept_reply(
    alloc: Global,
    done: Reply,
    left: &Left,
    total: u64,
    store: StoreLeft,
) -> Result<Reply, AllocError>
    requires number { done.status ≡ Done }
    requires spelled { text_of done ≡ json_text Done (compact_text done_data) }
    ensures number { IfOk result (λ r.
        r.status ≡ status_by (cause_by left.now.first store.first)) }
    ensures spelled { IfOk result (λ r. text_of r
        ≡ text_by (cause_by left.now.first store.first) (counts_of left.now store) total) }
{
    match cause_of(left.first(), store.first) {
        None => Ok(done),
        Some(cause) => left_reply(alloc, cause, &counts_of(left, store), total),
    }
}

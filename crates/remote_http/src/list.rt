//! What a listing asks of a store, and the reply that reports it.

ghost use Rattle.std.specs.Prelude.{◌≡◌, IfOk};
ghost use mathlib.Core.List.{IsPrefix};
ghost use Rattle.remote_http.specs.Listing.{body_of, IsListReply};
ghost use Rattle.remote_http.specs.Reply.{text_of};

use crate::reply::{Reply, json_reply, refusal_reply};
use head::Snapshot;
use remote_listings::{names_body, series_body, values_body};
use remote_requests::{Listed, Listing, Refusal, Status};
use snapshots::{Naming, Pass};
use std::alloc::{AllocError, Global};

/// The body of a listing of a snapshot.
fn body_of(alloc: Global, snapshot: &Snapshot, listing: &Listing) -> Result<Vec<u8>, AllocError>
    ensures { IfOk result (λ body. body.items ≡ body_of snapshot.now listing.now) }
{
    let queries = listing.queries.as_slice();
    match &listing.wanted {
        Listed::Names => names_body(alloc, snapshot, queries, listing.limit),
        Listed::Values(name) => values_body(alloc, snapshot, queries, name.as_str(), listing.limit),
        Listed::Series => series_body(alloc, snapshot, queries, listing.limit),
    }
}

/// Lists the pass's next snapshot. Its label sets that answer are in memory, and the reply beside
/// them.
pub(crate) fn list<J: Naming>(
    alloc: Global,
    listing: &Listing,
    pass: &mut Pass<J>,
) -> Result<Reply, AllocError>
    ensures reply { IfOk result (λ r.
        IsListReply J.opening listing.now pass.old pass.new r.status (text_of r)) }
    ensures told { pass.new.told ≡ pass.old.told }
    ensures seen { IsPrefix pass.old.seen pass.new.seen }
{
    let Ok(snapshot) = pass.snapshot() else {
        return refusal_reply(alloc, &Refusal::Unavailable);
    };
    let body = body_of(alloc, &snapshot, listing)?;
    json_reply(alloc, Status::Done, body)
}

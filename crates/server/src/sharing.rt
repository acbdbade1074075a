//! The room for replies, which workers share.

ghost use Rattle.std.specs.Prelude.{◌≡◌, true, is_some, vec_len, IfOk, IfSome};
ghost use Rattle.std.specs.List.{All};
ghost use Rattle.query_http.specs.Bounds.{is_bounded};

use crate::place::Place;
use query_http::Buffers;
use reply_room::{Holder, Room};
use snapshots::Naming;
use std::alloc::{AllocError, Global};
use std::sync::{Arc, Wait};
use std::time::Duration;

/// How many seconds a reply waits for room if clients may be silent for ever.
const PATIENCE: u64 = 60;

/// A worker's buffers, by its part in the room for replies.
pub(crate) fn buffers_of(alloc: Global, holder: Option<Holder>) -> Buffers
    ensures { is_bounded result ≡ is_some holder }
{
    match holder {
        Some(holder) => Buffers::sharing(alloc, holder),
        None => Buffers::new(alloc),
    }
}

/// The same place, which has a part in the room.
fn sharing<J: Naming>(
    rt: &impl Wait,
    place: Place<J>,
    room: &Arc<Room>,
) -> Result<Place<J>, AllocError>
    ensures { IfOk result (λ place. is_some place.holder ≡ true) }
{
    let Place {
        pass,
        seat,
        tally,
        holder: _,
    } = place;
    let holder = Holder::of(rt, room)?;
    Ok(Place {
        pass,
        seat,
        tally,
        holder: Some(holder),
    })
}

/// The same places. If the memory for replies is bounded, they share room for so many bytes, and
/// their replies wait for it as long as a client may be silent.
pub(crate) fn share_room<J: Naming>(
    rt: &impl Wait,
    alloc: Global,
    places: Vec<Place<J>>,
    bytes: Option<u64>,
    idle: Option<Duration>,
) -> Result<Vec<Place<J>>, AllocError>
    ensures all { IfOk result (λ shared. vec_len shared ≡ vec_len places) }
    ensures shared { IfSome bytes (λ _. IfOk result (λ shared.
        All (λ place. is_some place.holder ≡ true) shared.items)) }
{
    let Some(bytes) = bytes else {
        return Ok(places);
    };
    let patience = idle.unwrap_or(Duration::from_secs(PATIENCE));
    let room = Room::open(alloc, bytes, patience)?;
    let mut shared = Vec::new(alloc);
    for place in places {
        shared.push(sharing(rt, place, &room)?)?;
    }
    Ok(shared)
}

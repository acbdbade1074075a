//! What is one worker's own.

use crate::tally::Tally;
use reply_room::Holder;
use snapshots::{Naming, Pass, Seat};
use std::sync::Arc;

/// What is one worker's own.
#[derive(Drop)]
pub(crate) struct Place<J: Naming> {
    pub(crate) pass: Pass<J>,
    pub(crate) seat: Seat<J>,
    pub(crate) tally: Arc<Tally>,
    /// Its part in the room for replies, if their memory is bounded.
    pub(crate) holder: Option<Holder>,
}

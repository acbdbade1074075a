//! What steps are answered.

use head::{AppendError, CommitError};
use labels::Row;

/// What a step is answered.
#[derive(Drop)]
pub enum Reply {
    /// The sample is in the actor's buffer, or the event was accepted.
    Done,
    /// The sample is not taken, and the buffer is as it was. It is never [`AppendError::Memory`].
    NotAppended(AppendError),
    /// The event is refused, and nothing has changed. It is never [`CommitError::Memory`].
    Refused(CommitError),
    /// The rows that a query finds, in label order, their samples in time order.
    Rows(Vec<Row>),
}

//! Why an event is not published.

use crate::naming::Naming;
use crate::receipt::Receipt;
use head::CommitError;

/// Why an event was not published, and by which list.
#[derive(Drop)]
pub struct Refused<J: Naming> {
    /// The refusal.
    pub error: CommitError,
    /// The receipt of all that was tried before the event, which is published by then: what an
    /// event is refused for what it is holds after that list. `None` if memory failed before the
    /// event was tried, or if it was given up.
    pub met: Option<Receipt<J>>,
}

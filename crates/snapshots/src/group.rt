//! Events that are kept and published together.

use crate::naming::Naming;
use crate::prefix::LogPrefix;
use crate::replayed_state::Standing;
use head::Snapshot;
use std::sync::Arc;

/// Events that are to be kept by one write and one sync, and published together.
#[derive(Drop)]
pub struct Group<J: Naming> {
    /// The log that has sealed them.
    pub log: LogPrefix<J>,
    /// What all events up to the last of them make.
    pub standing: Standing,
    /// The snapshot of that, once more.
    pub shown: Arc<Snapshot>,
    /// Their records, one after another.
    pub records: Vec<u8>,
}

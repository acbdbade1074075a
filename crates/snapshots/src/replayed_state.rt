//! What the events of a list make.

ghost use Rattle.std.specs.Prelude.{◌≡◌, IfOk};
ghost use Rattle.std.specs.Arc.{arc_value};

use head::Snapshot;
use std::alloc::{AllocError, Global};
use std::sync::Arc;

/// A snapshot, and how many events of each seat are in the list that made it.
#[derive(Drop)]
pub struct Standing {
    /// The snapshot.
    pub snapshot: Arc<Snapshot>,
    /// The count of each seat, by its number.
    pub counts: Vec<u64>,
}

impl Standing {
    /// The same.
    pub fn share(&self, alloc: Global) -> Result<Standing, AllocError>
        ensures snapshot { IfOk result (λ s.
            arc_value s.snapshot ≡ arc_value self.now.snapshot) }
        ensures counts { IfOk result (λ s. s.counts.items ≡ self.now.counts.items) }
    {
        let snapshot = Arc::try_clone(&self.snapshot)?;
        let counts = Vec::from_slice(alloc, &self.counts)?;
        Ok(Standing { snapshot, counts })
    }
}

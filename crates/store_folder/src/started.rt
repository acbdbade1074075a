//! Whether a store that goes on is worth saving.

ghost use Rattle.std.specs.Prelude.{◌≡◌};
ghost use Rattle.store_folder.specs.Starting.{is_due};

use crate::event_kinds::has_cut;
use crate::starting::StartedStore;
use crate::store_journal::Beginning;
use data_folder::Folder;

impl<N: Beginning, F: Folder + Drop> StartedStore<N, F> {
    /// Whether it is worth saving: the journal has events, and one of them is a cut or it has more
    /// than so many bytes.
    pub fn is_due(&self, most: u64) -> bool
        ensures { result ≡ is_due self.now.journal.events.items self.now.journal.len most }
    {
        let events = self.journal.events.as_slice();
        !events.is_empty() && (self.journal.len as u64 > most || has_cut(events))
    }
}

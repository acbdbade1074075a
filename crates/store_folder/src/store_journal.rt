//! The journal of a store, in the store's folder.

ghost use Rattle.std.specs.Prelude.{◌≡◌};
ghost use Rattle.store_folder.specs.Origins.{Origin};

use crate::meaning::Meaning;
use block_folder::Values;
use data_folder::{Folder, JournalFile};
use event_journal::EventJournal;
use std::marker::Brand;

/// The world before all events of a store, and what its values mean.
pub trait Beginning {
    /// This world and this meaning.
    ghost first: { Origin };
}

impl Beginning for Brand {
    ghost use Rattle.block_folder.specs.declared.values.Values.TheVariants.{Whole};
    ghost use Rattle.store_folder.specs.Origins.{beginning};

    ghost first = { beginning Whole };
}

/// The journal of a store in its folder, beside the blocks that the journal's head names.
#[derive(Drop)]
pub struct StoreJournal<N: Beginning, F: Folder + Drop> {
    /// The journal.
    pub events: EventJournal<JournalFile<F>>,
    /// What the values mean.
    pub meaning: Meaning<N>,
}

impl<N: Beginning, F: Folder + Drop> StoreJournal<N, F> {
    /// What the values mean.
    pub fn values(&self) -> Values
        ensures { result ≡ N.first.values }
    {
        self.meaning.values()
    }

    /// How many bytes it has: it may be begun anew when they are many.
    pub fn len(&self) -> usize
        ensures { result ≡ self.now.events.journal.len }
    {
        self.events.journal.len
    }
}

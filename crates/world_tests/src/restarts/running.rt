//! A store that runs: what keeps its events, and the snapshot that they make.

ghost use Rattle.std.specs.Prelude.{◌∷◌, [], IfOk, map};
ghost use Rattle.head.specs.Blocks.{part_in};
ghost use Rattle.keeper.specs.Together.{SpellTogether};
ghost use Rattle.store_folder.specs.Starting.{GoesOn};

use data_folder::Folder;
use event_text::text_of_event;
use head::{Event, Snapshot, apply};
use keeper::{KeepError, Keeper, push_text};
use std::alloc::Global;
use std::marker::Model;
use store_folder::{Beginning, StartedStore, StoreKeeper};

/// What keeps the events of a store, and the snapshot that they make.
#[derive(Drop)]
pub struct Running<K: Keeper + Drop> {
    keeper: K,
    snapshot: Snapshot,
}

impl<K: Keeper + Drop> Model for Running<K> {
    ghost use Rattle.std.specs.Prelude.{List};
    ghost use Rattle.head.specs.Heads.{SnapshotParts, world_of};
    ghost use Rattle.head.specs.Worlds.{Event as Change};
    ghost use Rattle.keeper.specs.Finding.{IsOfAll};

    ghost Value = { SnapshotParts };

    ghost view = { λ r. r.snapshot };

    ghost invariant = { λ r. (events : List Change) × K.holds r.keeper events
        × IsOfAll K.first events (world_of r.snapshot)
        × ((all : List Change) → K.may all) };
}

/// The record of an event.
fn record_of(alloc: Global, event: &Event) -> Result<Vec<u8>, KeepError>
    ensures { IfOk result (λ bytes. SpellTogether bytes.items (event.now ∷ [])) }
{
    let Ok(text) = text_of_event(alloc, event) else {
        return Err(KeepError::Memory);
    };
    let mut bytes = Vec::new(alloc);
    match push_text(&mut bytes, &text) {
        Ok(()) => Ok(bytes),
        Err(error) => Err(error),
    }
}

impl<K: Keeper + Drop> Running<K> {
    /// The snapshot.
    pub fn snapshot(&self) -> &Snapshot {
        &self.snapshot
    }

    /// The snapshot that an event would make.
    pub fn after(&self, alloc: Global, event: &Event) -> Option<Snapshot> {
        apply(alloc, &self.snapshot, event).ok()
    }

    /// Keeps an event, and publishes what it makes after that, as the book of a store does. If it
    /// is not kept, nothing is published.
    pub fn commit(&mut self, alloc: Global, event: &Event) -> Result<(), KeepError> {
        let Ok(next) = apply(alloc, &self.snapshot, event) else {
            return Err(KeepError::Memory);
        };
        let bytes = match record_of(alloc, event) {
            Ok(bytes) => bytes,
            Err(error) => return Err(error),
        };
        match self.keeper.keep(&bytes) {
            Ok(_last) => {
                self.snapshot = next;
                Ok(())
            }
            Err(error) => Err(error),
        }
    }

    /// Saves the snapshot in the place of the events that made it, if that is worth it.
    pub fn roll_if_due(&mut self, alloc: Global) -> Result<Option<usize>, KeepError> {
        self.keeper.roll_if_due(alloc, &self.snapshot)
    }
}

impl<N: Beginning, F: Folder + Drop> Running<StoreKeeper<N, F>> {
    /// The store that was started.
    pub fn of(started: StartedStore<N, F>) -> Running<StoreKeeper<N, F>>
        requires { GoesOn F.shows F.kept F.sound F.moment F.left_since N.first
            started.keeper.store.events.journal.medium started.keeper.store.events.journal.len
            started.keeper.store.events.journal.closed started.journal.events.items
            started.keeper.places.items (map part_in started.keeper.blocks.items)
            started.snapshot }
    {
        let StartedStore {
            snapshot,
            keeper,
            journal,
        } = started;
        drop(journal);
        Running { keeper, snapshot }
    }

    /// Its folder.
    pub fn folder(&self) -> &F {
        &self.keeper.store.events.journal.medium.folder
    }

    /// Whether it takes nothing more.
    pub fn is_closed(&self) -> bool {
        self.keeper.store.events.journal.closed
    }
}

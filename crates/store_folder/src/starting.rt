//! How a store goes on, and how one begins.

ghost use Rattle.std.specs.Prelude.{◌≡◌, ◌⊎◌, List, [], None, Ok, IfOk, IfErr, MatchResult, OnOk};
ghost use Rattle.std.specs.Prelude.{false, length, map, true};
ghost use Rattle.data_folder.specs.Folders.{KeepsOthers, LeavesOnly};
ghost use Rattle.data_folder.specs.JournalFile.{journal_name, next_name};
ghost use Rattle.head.specs.Blocks.{part_in};
ghost use Rattle.head.specs.Heads.{BlockPart, world_of};
ghost use Rattle.head.specs.Resuming.{MayStand};
ghost use Rattle.head.specs.Worlds.{replayed};
ghost use Rattle.journal.specs.declared.error.JournalError.TheVariants.{Memory as NoRecord};
ghost use Rattle.store_folder.specs.Codes.{cause_of};
ghost use Rattle.store_folder.specs.Finding.{IsFoundStore};
ghost use Rattle.store_folder.specs.Holding.{HoldsAt, HoldsLike, HoldsStore, HoldsThese};
ghost use Rattle.store_folder.specs.Starting.{DeniesStart, GoesOn, LeadTo};
ghost use Rattle.store_folder.specs.Starting.{IsNoneOrNothing, IsNoRefusal, IsRefusedEvent};
ghost use Rattle.store_folder.specs.Starting.{StartFinds, nothing_saved, nothing_with};
ghost use Rattle.store_folder.specs.Refusals.{IsRefusal};
ghost use Rattle.store_folder.specs.Origins.{beginning};
ghost use Rattle.store_folder.specs.States.{HasWorld, IsState, origin_of, started};
ghost use Rattle.store_folder.specs.Terms.{begun_len};
ghost use Rattle.store_folder.specs.declared.error.ReadError.TheVariants.{Journal as Records};
ghost use Rattle.store_folder.specs.declared.error.StartCause.TheVariants.{Refused};
ghost use Rattle.store_folder.specs.declared.error.StartError.TheVariants.{Journal};

use crate::error::{ReadError, StartError};
use crate::heads::head_journal;
use crate::journals::FoundJournal;
use crate::keeper_roll::share_blocks;
use crate::keeping::StoreKeeper;
use crate::meaning::Meaning;
use crate::reading::FoundStore;
use crate::store_journal::{Beginning, StoreJournal};
use crate::terms::RollTerms;
use block::Block;
use block_folder::Values;
use data_folder::{Folder, JournalFile, begin};
use event_journal::EventJournal;
use head::{Event, RefusedEvent, ResumeError, Snapshot, apply};
use head_record::HeadRecord;
use journal::{JournalError, MediumError};
use labels::MIN_TIME;
use name_table::NameTable;
use std::alloc::Global;

/// A store that goes on, or one that begins.
#[derive(Drop)]
pub struct StartedStore<N: Beginning, F: Folder + Drop> {
    /// What the events of the journal make of its head and blocks.
    pub snapshot: Snapshot,
    /// What keeps these events, and those to come.
    pub keeper: StoreKeeper<N, F>,
    /// The journal, as it was found.
    pub journal: FoundJournal,
}

/// The snapshot after events, as `head::replay` gives it.
fn after_events(alloc: Global, snapshot: Snapshot, events: &[Event]) -> Result<Snapshot, StartError>
    ensures ok { IfOk result (λ s. replayed (world_of snapshot) events.now ≡ Ok (world_of s)) }
    ensures reached { IfOk result (λ s. LeadTo snapshot events.now s) }
    ensures refused { IfErr result (λ e. IsRefusedEvent (world_of snapshot) events.now e) }
{
    let mut at = snapshot;
    for place in 0..events.len() {
        match apply(alloc, &at, &events[place]) {
            Ok(next) => at = next,
            Err(error) => return Err(StartError::Event(RefusedEvent { at: place, error })),
        }
    }
    Ok(at)
}

/// What the events of a journal make of its head and blocks.
fn snapshot_of(
    alloc: Global,
    journal: &FoundJournal,
    blocks: Vec<Block>,
) -> Result<Snapshot, StartError>
    ensures world { IfOk result (λ s. HasWorld journal.now.head (map part_in blocks.items)
        journal.now.events.items (world_of s)) }
    ensures reached { IfOk result (λ s. LeadTo
        (started journal.now.head (map part_in blocks.items)) journal.now.events.items s) }
    ensures stands { OnOk result (MayStand
        (started journal.now.head (map part_in blocks.items))) }
    ensures refused { IfErr result (λ e. DeniesStart journal.now.head (map part_in blocks.items)
        journal.now.events.items e) }
{
    match Snapshot::resumed(alloc, blocks, journal.head.floor(), journal.head.series()) {
        Ok(snapshot) => after_events(alloc, snapshot, &journal.events),
        Err(error) => Err(StartError::Head(error)),
    }
}

/// How many bytes a journal that was found had when it was begun: all of them if it has no event;
/// else that is not known, and 0.
fn begun_len(journal: &FoundJournal) -> usize
    ensures { result ≡ begun_len journal.now.events.items journal.now.len }
{
    if journal.events.is_empty() {
        journal.len
    } else {
        0
    }
}

/// That no memory is left for a journal.
pub(crate) fn no_memory() -> StartError
    ensures { result ≡ Journal (Records NoRecord) }
{
    StartError::Journal(ReadError::Journal(JournalError::Memory))
}

/// What is saved of a store that has nothing, whose values mean this.
pub(crate) fn nothing_with(alloc: Global, values: Values) -> HeadRecord
    ensures { result ≡ nothing_with values }
{
    HeadRecord::new(values, MIN_TIME, Vec::new(alloc), Vec::new(alloc))
}

/// And if they are whole numbers.
pub(crate) fn nothing(alloc: Global) -> HeadRecord
    ensures { result ≡ nothing_saved }
{
    nothing_with(alloc, Values::Whole)
}

impl<N: Beginning, F: Folder + Drop> StoreJournal<N, F> {
    /// Begins the journal of a folder that has none: no blocks, no series, and no events; the
    /// values of the store are to mean this. An `Err` gives the folder back: a start finds no
    /// journal in it, or this one.
    pub fn create(
        alloc: Global,
        folder: F,
        values: Values,
    ) -> Result<StoreJournal<N, F>, (StartError, F)>
        requires sound { F.sound folder ≡ true }
        requires none { F.shows folder journal_name None × F.kept folder journal_name 0 }
        requires first { N.first ≡ beginning values }
        ensures holds { IfOk result (λ k. HoldsStore F.shows F.kept F.sound F.moment F.left_since
            N.first k.events.journal.medium k.events.journal.len k.events.journal.closed []) }
        ensures places { IfOk result (λ k. HoldsAt F.shows F.kept F.sound F.moment F.left_since
            N.first k.events.journal.medium k.events.journal.len k.events.journal.closed [] [] []) }
        // Its head is that of a store that has nothing.
        ensures head { IfOk result (λ k. HoldsThese F.shows F.kept F.sound F.moment F.left_since
            N.first k.events.journal.medium k.events.journal.len k.events.journal.closed []
            (nothing_with values) [] []) }
        ensures open { IfOk result (λ k. k.events.journal.closed ≡ false) }
        ensures any_moment { MatchResult result
            (λ k. LeavesOnly F.moment F.left_since folder k.events.journal.medium.folder
            (IsNoneOrNothing values))
            (λ e. LeavesOnly F.moment F.left_since folder e.1 (IsNoneOrNothing values)) }
        // What fails is memory or the folder.
        ensures refused { IfErr result (λ e. IsNoRefusal e.0) }
        // All other files stay.
        ensures others { MatchResult result
            (λ k. KeepsOthers F.shows F.kept next_name journal_name folder
            k.events.journal.medium.folder)
            (λ e. KeepsOthers F.shows F.kept next_name journal_name folder e.1) }
    {
        let text = match head_journal(alloc, &nothing_with(alloc, values)) {
            Ok(text) => text,
            Err(_) => return Err((no_memory(), folder)),
        };
        match begin(alloc, folder, &text) {
            Ok(journal) => Ok(StoreJournal {
                events: EventJournal { journal },
                meaning: Meaning::new(values),
            }),
            Err((_, folder)) => Err((StartError::Medium, folder)),
        }
    }

    /// Goes on after the events of a journal, whose torn end is cut off. An `Err` gives the folder
    /// back where that fails.
    pub fn resume(
        folder: F,
        names: NameTable,
        journal: &FoundJournal,
    ) -> Result<StoreJournal<N, F>, (MediumError, F)>
        requires found { (parts : List BlockPart)
            × IsFoundStore F.shows F.kept journal.now parts folder }
        requires sound { F.sound folder ≡ true }
        // These are the names that were found.
        requires names { names ≡ journal.now.names }
        requires values { journal.now.head.values ≡ N.first.values }
        ensures holds { IfOk result (λ k. (parts : List BlockPart)
            → IsFoundStore F.shows F.kept journal.now parts folder
            → N.first ≡ origin_of journal.now.head parts
            → HoldsAt F.shows F.kept F.sound F.moment F.left_since N.first
            k.events.journal.medium k.events.journal.len k.events.journal.closed
            journal.now.events.items journal.now.head.places parts) }
        // The head is the one that was found.
        ensures head { IfOk result (λ k. (parts : List BlockPart)
            → IsFoundStore F.shows F.kept journal.now parts folder
            → N.first ≡ origin_of journal.now.head parts
            → HoldsThese F.shows F.kept F.sound F.moment F.left_since N.first
            k.events.journal.medium k.events.journal.len k.events.journal.closed
            journal.now.events.items journal.now.head parts journal.now.events.items) }
        ensures open { IfOk result (λ k. k.events.journal.closed ≡ false) }
        ensures any_moment { (parts : List BlockPart)
            → IsFoundStore F.shows F.kept journal.now parts folder
            → N.first ≡ origin_of journal.now.head parts → MatchResult result
            (λ k. StartFinds F.moment F.left_since folder k.events.journal.medium.folder N.first
            journal.now.events.items)
            (λ e. StartFinds F.moment F.left_since folder e.1 N.first
            journal.now.events.items) }
        // Such a crash leaves the head and the events that were found.
        ensures leaves { (parts : List BlockPart)
            → IsFoundStore F.shows F.kept journal.now parts folder → MatchResult result
            (λ k. LeavesOnly F.moment F.left_since folder k.events.journal.medium.folder
            (IsState journal.now.head parts journal.now.events.items))
            (λ e. LeavesOnly F.moment F.left_since folder e.1
            (IsState journal.now.head parts journal.now.events.items)) }
        // All other files stay.
        ensures others { MatchResult result
            (λ k. KeepsOthers F.shows F.kept next_name journal_name folder
            k.events.journal.medium.folder)
            (λ e. KeepsOthers F.shows F.kept next_name journal_name folder e.1) }
    {
        match EventJournal::resume(JournalFile { folder, names }, journal.len) {
            Ok(events) => Ok(StoreJournal {
                events,
                meaning: Meaning::new(journal.head.values()),
            }),
            Err((error, medium)) => Err((error, medium.folder)),
        }
    }
}

/// Begins the store of a folder that has none, whose values are to mean this; its journal is begun
/// anew after so many bytes. An `Err` gives the folder back.
pub fn begin_store<N: Beginning, F: Folder + Drop>(
    alloc: Global,
    folder: F,
    values: Values,
    most: u64,
) -> Result<StartedStore<N, F>, (StartError, F)>
    requires sound { F.sound folder ≡ true }
    requires none { F.shows folder journal_name None × F.kept folder journal_name 0 }
    // The world before all events is that of a store that has nothing, and the values mean what is
    // asked for.
    requires first { N.first ≡ beginning values }
    ensures begun { IfOk result (λ x. GoesOn F.shows F.kept F.sound F.moment F.left_since
        N.first x.keeper.store.events.journal.medium x.keeper.store.events.journal.len
        x.keeper.store.events.journal.closed x.journal.events.items x.keeper.places.items
        (map part_in x.keeper.blocks.items) x.snapshot) }
    // The journal has the head of a store that has nothing, and no events, and takes more.
    ensures alone { IfOk result (λ x. HoldsThese F.shows F.kept F.sound F.moment F.left_since
        N.first x.keeper.store.events.journal.medium x.keeper.store.events.journal.len
        x.keeper.store.events.journal.closed [] (nothing_with values) [] []) }
    ensures open { IfOk result (λ x. x.keeper.store.events.journal.closed ≡ false) }
    ensures terms { IfOk result (λ x.
        x.keeper.terms ≡ record { most = most; len = 0; blocks = 0 }) }
    ensures events { IfOk result (λ x. x.journal.events.items ≡ []) }
    ensures names { IfOk result (λ x. x.journal.names ≡ []) }
    ensures len { IfOk result (λ x. x.journal.len ≡ x.keeper.store.events.journal.len) }
    ensures torn { IfOk result (λ x. x.journal.torn ≡ 0) }
    ensures head { IfOk result (λ x. x.journal.head ≡ nothing_with values) }
    ensures refused { IfErr result (λ e. IsNoRefusal e.0) }
    // A crash at any moment of the call leaves no journal, or that of a store that has nothing.
    ensures any_moment { MatchResult result
        (λ x. LeavesOnly F.moment F.left_since folder
        x.keeper.store.events.journal.medium.folder (IsNoneOrNothing values))
        (λ e. LeavesOnly F.moment F.left_since folder e.1 (IsNoneOrNothing values)) }
    // All other files stay.
    ensures others { MatchResult result
        (λ x. KeepsOthers F.shows F.kept next_name journal_name folder
        x.keeper.store.events.journal.medium.folder)
        (λ e. KeepsOthers F.shows F.kept next_name journal_name folder e.1) }
{
    let snapshot = match Snapshot::opening(alloc, Vec::new(alloc)) {
        Ok(snapshot) => snapshot,
        Err(_) => return Err((no_memory(), folder)),
    };
    match StoreJournal::create(alloc, folder, values) {
        Ok(store) => {
            let journal = FoundJournal {
                head: nothing_with(alloc, values),
                events: Vec::new(alloc),
                names: NameTable::new(alloc),
                len: store.len(),
                torn: 0,
            };
            let keeper = StoreKeeper {
                store,
                places: Vec::new(alloc),
                blocks: Vec::new(alloc),
                terms: RollTerms::new(most, 0, 0),
            };
            Ok(StartedStore {
                snapshot,
                keeper,
                journal,
            })
        }
        Err(failed) => Err(failed),
    }
}

/// Goes on with the store that a folder has: its snapshot, and what keeps the events to come. The
/// torn end of the journal is cut off, after all else was accepted; nothing else in the folder
/// changes. `J17` if no snapshot has what the head and the blocks say, `J18` if an event is
/// refused. The journal is begun anew after so many bytes. An `Err` gives the folder back.
pub fn resume_store<N: Beginning, F: Folder + Drop>(
    alloc: Global,
    folder: F,
    found: FoundStore,
    most: u64,
) -> Result<StartedStore<N, F>, (StartError, F)>
    requires sound { F.sound folder ≡ true }
    requires found { IsFoundStore F.shows F.kept found.journal (map part_in found.blocks.items)
        folder }
    // The world before all events is that of the head and the blocks, and the values mean what the
    // head says.
    requires first { N.first
        ≡ origin_of found.journal.head (map part_in found.blocks.items) }
    // The journal is the one that was found. The snapshot is what its events make of that world,
    // and they are held.
    ensures journal { IfOk result (λ x. x.journal ≡ found.journal) }
    ensures resumed { IfOk result (λ x. GoesOn F.shows F.kept F.sound F.moment F.left_since
        N.first x.keeper.store.events.journal.medium x.keeper.store.events.journal.len
        x.keeper.store.events.journal.closed x.journal.events.items x.keeper.places.items
        (map part_in x.keeper.blocks.items) x.snapshot) }
    // It is reached event by event: its blocks are those that the head names, and what the events
    // leave of them and add.
    ensures reached { IfOk result (λ x. LeadTo
        (started found.journal.head (map part_in found.blocks.items))
        found.journal.events.items x.snapshot) }
    // They may be a snapshot: else the start is refused.
    ensures stands { OnOk result (MayStand
        (started found.journal.head (map part_in found.blocks.items))) }
    // The keeper's blocks lie where the head says.
    ensures places { IfOk result (λ x.
        x.keeper.places.items ≡ found.journal.head.places) }
    // The head that is held is the one that was found, with its blocks and the events after it.
    ensures head { IfOk result (λ x. (h : HoldsLike F.shows F.kept F.sound F.moment F.left_since
        N.first x.keeper.store.events.journal.medium x.keeper.store.events.journal.len
        x.keeper.store.events.journal.closed found.journal.events.items x.keeper.places.items
        (map part_in x.keeper.blocks.items)) × (h.0.saved ≡ found.journal.head)
        × (h.0.parts ≡ map part_in found.blocks.items)
        × (h.0.late ≡ found.journal.events.items)) }
    ensures terms { IfOk result (λ x. x.keeper.terms ≡ record {
      most = most;
      len = begun_len found.journal.events.items found.journal.len;
      blocks = length found.blocks.items;
    }) }
    ensures refused { IfErr result (λ e. (e.0 ≡ StartError.Medium)
        ⊎ DeniesStart found.journal.head (map part_in found.blocks.items)
        found.journal.events.items e.0) }
    ensures told { IfErr result (λ e. cause_of e.0 ≡ Refused → IsRefusal e.0) }
    // Where it is refused, nothing is done.
    ensures unchanged { IfErr result (λ e. (e.0 ≡ StartError.Medium → ⊥) → e.1 ≡ folder) }
    // After a crash at any moment of the call, a start finds the same events, whether they are
    // accepted or not.
    ensures any_moment { MatchResult result
        (λ x. StartFinds F.moment F.left_since folder
        x.keeper.store.events.journal.medium.folder N.first found.journal.events.items)
        (λ e. StartFinds F.moment F.left_since folder e.1 N.first found.journal.events.items) }
    // Such a crash leaves the head and the events that were found.
    ensures leaves { MatchResult result
        (λ x. LeavesOnly F.moment F.left_since folder
        x.keeper.store.events.journal.medium.folder (IsState found.journal.head
        (map part_in found.blocks.items) found.journal.events.items))
        (λ e. LeavesOnly F.moment F.left_since folder e.1 (IsState found.journal.head
        (map part_in found.blocks.items) found.journal.events.items)) }
    // All other files stay.
    ensures others { MatchResult result
        (λ x. KeepsOthers F.shows F.kept next_name journal_name folder
        x.keeper.store.events.journal.medium.folder)
        (λ e. KeepsOthers F.shows F.kept next_name journal_name folder e.1) }
{
    let FoundStore { journal, blocks } = found;
    let terms = RollTerms::new(most, begun_len(&journal), blocks.len());
    let Ok(shares) = share_blocks(alloc, &blocks) else {
        return Err((StartError::Head(ResumeError::Memory), folder));
    };
    let Ok(places) = Vec::from_slice(alloc, journal.head.places()) else {
        return Err((StartError::Head(ResumeError::Memory), folder));
    };
    let Ok(names) = journal.names.copied(alloc) else {
        return Err((StartError::Head(ResumeError::Memory), folder));
    };
    let snapshot = match snapshot_of(alloc, &journal, blocks) {
        Ok(snapshot) => snapshot,
        Err(error) => return Err((error, folder)),
    };
    match StoreJournal::resume(folder, names, &journal) {
        Ok(store) => Ok(StartedStore {
            snapshot,
            keeper: StoreKeeper {
                store,
                places,
                blocks: shares,
                terms,
            },
            journal,
        }),
        Err((_, folder)) => Err((StartError::Medium, folder)),
    }
}

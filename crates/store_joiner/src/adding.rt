//! Blocks that are added to the store of a folder.

ghost use Rattle.std.specs.Prelude.{◌≡◌, ◌↔◌, ◌+◌, ◌⊎◌, ℕ, List, [], IfErr, IfOk, IsTrue};
ghost use Rattle.std.specs.Prelude.{MatchResult};
ghost use Rattle.std.specs.Prelude.{None, Ok, OnOk, Some, false, length, map, true};
ghost use Rattle.block_folder.specs.declared.values.Values.TheVariants.{Whole};
ghost use Rattle.data_folder.specs.Folders.{HasFile, LeavesOnly, Untouched};
ghost use Rattle.data_folder.specs.JournalFile.{journal_name};
ghost use Rattle.data_folder.specs.Sweeping.{KeepsForeign};
ghost use Rattle.head.specs.Blocks.{part_in};
ghost use Rattle.head.specs.Heads.{BlockPart};
ghost use Rattle.head.specs.Resuming.{MayStand};
ghost use Rattle.head.specs.Worlds.{Event as Change, World, replayed};
ghost use Rattle.head_record.specs.Saved.{Saved};
ghost use Rattle.store_folder.specs.Faults.{TellsFiles};
ghost use Rattle.store_folder.specs.Finding.{IsFoundStore};
ghost use Rattle.store_folder.specs.Origins.{beginning};
ghost use Rattle.store_folder.specs.Plain.{DeniesFolder, StandsAlone, begins_plain};
ghost use Rattle.store_folder.specs.Starting.{IsNoneOrNothing, nothing_saved};
ghost use Rattle.store_folder.specs.States.{IsAfter, MayStart, origin_of, started};
ghost use Rattle.store_folder.specs.Sweeps.{ListsNumber};
ghost use Rattle.store_joiner.specs.Adds.{with_beneath};
ghost use Rattle.store_folder.specs.Writing.{EachSays};
ghost use Rattle.store_joiner.specs.Finds.{BlocksSay, FindsEither, FindsNow, other_of};
ghost use Rattle.store_joiner.specs.Stores.{Changes, HasBlocks, HasStore, HasStoreFor, IsAddedTo};
ghost use Rattle.store_joiner.specs.Stores.{IsLater, IsSame, LeavesNow, MayChange, MayChangePlain};
ghost use Rattle.store_joiner.specs.Stores.{NoneOrFinds, NoneOrStands, PlainOrFinds, PlainOrStarts};
ghost use Rattle.store_joiner.specs.Stores.{SaysAbove, SaysAdded, SaysOne, StaysNow, StaysOrFinds};

use crate::added::added_snapshot;
use crate::error::ChangeFault;
use crate::opened::{Found, read_again, save};
use crate::replacing::replace;
use block_folder::Values;
use data_folder::{Folder, RollError};
use head::Snapshot;
use std::alloc::Global;
use std::marker::Brand;
use std::thread::Threads;
use store_folder::{
    Beginning, FoundStore, RollFault, StartError, StartedStore, begin_store, has_blocks, open_store,
};

/// How many blocks a snapshot has.
fn count_of(snapshot: &Snapshot) -> usize
    ensures { result ≡ length snapshot.now.blocks }
{
    snapshot.blocks().len()
}

/// Adds the blocks of an opening to a store of which the journal has no events. How many blocks it
/// then has.
fn add_saved<N: Beginning, F: Folder + Drop>(
    alloc: Global,
    found: Found<F>,
    opening: &Snapshot,
) -> Result<(usize, F), (ChangeFault, F)>
    requires sound { F.sound found.folder ≡ true }
    requires found { IsFoundStore F.shows F.kept found.store.journal
        (map part_in found.store.blocks.items) found.folder }
    requires saved { found.store.journal.events.items ≡ [] }
    requires first { N.first ≡ origin_of found.store.journal.head
        (map part_in found.store.blocks.items) }
    ensures any_moment { MatchResult result
        (λ x. FindsEither F.moment F.left_since found.folder x.1 N.first
        (with_beneath opening.now.blocks opening.now.floor N.first.world))
        (λ e. FindsEither F.moment F.left_since found.folder e.1 N.first
        (with_beneath opening.now.blocks opening.now.floor N.first.world)) }
    ensures starts { MayStand (started found.store.journal.head
        (map part_in found.store.blocks.items))
        → MatchResult result
        (λ x. LeavesOnly F.moment F.left_since found.folder x.1 MayStart)
        (λ e. LeavesOnly F.moment F.left_since found.folder e.1 MayStart) }
    ensures finds { IfOk result (λ x. FindsNow F.moment F.left_since x.1 (other_of N.first
        (with_beneath opening.now.blocks opening.now.floor N.first.world))) }
    ensures counted { IfOk result (λ x.
        x.0 ≡ length opening.now.blocks + N.first.world.blocks) }
    ensures says { IfOk result (λ x. SaysOne F.shows F.kept x.1) }
    ensures numbers { IfOk result (λ x.
        SaysAbove F.shows F.kept found.store.journal.head.places x.1) }
    ensures stays { IfErr result (λ e.
        (e.0 ≡ ChangeFault.Roll (RollFault.Folder RollError.Lost) → ⊥)
        → FindsNow F.moment F.left_since e.1 N.first) }
    ensures says_stays { EachSays F.shows F.kept found.store.journal.head.values
        found.store.journal.head.places found.folder → IfErr result (λ e.
        (e.0 ≡ ChangeFault.Roll (RollFault.Folder RollError.Lost) → ⊥)
        → LeavesNow F.moment F.left_since e.1 BlocksSay) }
    ensures later { IfErr result (λ e. IsLater e.0) }
    ensures foreign { MatchResult result
        (λ x. KeepsForeign F.shows F.kept found.folder x.1)
        (λ e. KeepsForeign F.shows F.kept found.folder e.1) }
{
    let count = found
        .store
        .blocks
        .len()
        .saturating_add(opening.blocks().len());
    let next = match added_snapshot(alloc, opening, &found.store) {
        Ok(next) => next,
        Err(error) => return Err((ChangeFault::Unfit(error, count), found.folder)),
    };
    let total = count_of(&next);
    match replace::<N, F>(alloc, found, &next) {
        Ok(folder) => Ok((total, folder)),
        Err(fault) => Err(fault),
    }
}

/// Whether the values of a store mean this.
fn has_values(store: &FoundStore, values: Values) -> bool
    ensures { IsTrue result ↔ (store.now.journal.head.values ≡ values) }
{
    store.journal.head.values().is_same(values)
}

/// Adds the blocks of an opening, whose values mean this, to a store that was found, after what its
/// journal has was saved.
fn add_found<R: Threads + Sync, F: Folder + Drop>(
    rt: &R,
    alloc: Global,
    found: Found<F>,
    opening: &Snapshot,
    values: Values,
) -> Result<(usize, F), (ChangeFault, F)>
    requires sound { F.sound found.folder ≡ true }
    requires found { IsFoundStore F.shows F.kept found.store.journal
        (map part_in found.store.blocks.items) found.folder }
    ensures any_moment { TellsFiles F.shows → MatchResult result
        (λ x. StaysOrFinds F.moment F.left_since found.folder x.1
        (origin_of found.store.journal.head (map part_in found.store.blocks.items))
        found.store.journal.events.items
        (IsAddedTo values opening.now.blocks opening.now.floor
        (origin_of found.store.journal.head (map part_in found.store.blocks.items))))
        (λ e. StaysOrFinds F.moment F.left_since found.folder e.1
        (origin_of found.store.journal.head (map part_in found.store.blocks.items))
        found.store.journal.events.items
        (IsAddedTo values opening.now.blocks opening.now.floor
        (origin_of found.store.journal.head (map part_in found.store.blocks.items)))) }
    ensures starts { TellsFiles F.shows → MayStand (started found.store.journal.head
        (map part_in found.store.blocks.items))
        → MatchResult result
        (λ x. LeavesOnly F.moment F.left_since found.folder x.1 MayStart)
        (λ e. LeavesOnly F.moment F.left_since found.folder e.1 MayStart) }
    ensures finds { TellsFiles F.shows → IfOk result (λ x. (w : World) × (replayed
        (origin_of found.store.journal.head (map part_in found.store.blocks.items)).world
        found.store.journal.events.items ≡ Ok w)
        × (x.0 ≡ length opening.now.blocks + w.blocks)
        × FindsNow F.moment F.left_since x.1 (other_of
        (origin_of found.store.journal.head (map part_in found.store.blocks.items))
        (with_beneath opening.now.blocks opening.now.floor w))) }
    ensures meant { OnOk result (found.store.journal.head.values ≡ values) }
    ensures says { IfOk result (λ x. SaysOne F.shows F.kept x.1) }
    ensures numbers { TellsFiles F.shows → IfOk result (λ x. SaysAdded F.shows F.kept
        found.store.journal.head.places (length opening.now.blocks) x.0 x.1) }
    ensures stays { TellsFiles F.shows → IfErr result (λ e.
        (e.0 ≡ ChangeFault.Roll (RollFault.Folder RollError.Lost) → ⊥)
        → StaysNow F.moment F.left_since e.1
        (origin_of found.store.journal.head (map part_in found.store.blocks.items))
        found.store.journal.events.items) }
    ensures says_stays { TellsFiles F.shows → EachSays F.shows F.kept
        found.store.journal.head.values found.store.journal.head.places found.folder
        → IfErr result (λ e.
        (e.0 ≡ ChangeFault.Roll (RollFault.Folder RollError.Lost) → ⊥)
        → LeavesNow F.moment F.left_since e.1 BlocksSay) }
    ensures later { IfErr result (λ e. IsLater e.0) }
    ensures foreign { MatchResult result
        (λ x. KeepsForeign F.shows F.kept found.folder x.1)
        (λ e. KeepsForeign F.shows F.kept found.folder e.1) }
{
    if !has_values(&found.store, values) {
        return Err((ChangeFault::Meaning, found.folder));
    }
    match save(rt, alloc, found) {
        Ok(saved) => add_saved::<Brand, F>(alloc, saved, opening),
        Err(fault) => Err(fault),
    }
}

/// Begins the store of a folder that has none, of whole numbers. The folder.
fn begin<N: Beginning, F: Folder + Drop>(alloc: Global, folder: F) -> Result<F, (ChangeFault, F)>
    requires sound { F.sound folder ≡ true }
    requires none { F.shows folder journal_name None × F.kept folder journal_name 0 }
    requires first { N.first ≡ beginning Whole }
    ensures sound { IfOk result (λ folder. F.sound folder ≡ true) }
    ensures later { IfErr result (λ e. IsLater e.0) }
    ensures any_moment { MatchResult result
        (λ x. LeavesOnly F.moment F.left_since folder x (IsNoneOrNothing Whole))
        (λ e. LeavesOnly F.moment F.left_since folder e.1 (IsNoneOrNothing Whole)) }
    ensures has { IfOk result (λ x. HasStoreFor F.shows F.kept N.first [] x) }
    ensures nothing { IfOk result (λ x. HasStore F.shows F.kept nothing_saved [] [] x) }
    ensures foreign { MatchResult result
        (λ x. KeepsForeign F.shows F.kept folder x)
        (λ e. KeepsForeign F.shows F.kept folder e.1) }
{
    let begun: StartedStore<N, F> = match begin_store(alloc, folder, Values::Whole, 0) {
        Ok(begun) => begun,
        Err((error, folder)) => return Err((ChangeFault::Begin(error), folder)),
    };
    let StartedStore { keeper, .. } = begun;
    Ok(keeper.store.events.journal.medium.folder)
}

/// Begins the store of a folder that has no journal, and reads it again.
fn begin_again<R: Threads + Sync, F: Folder + Drop>(
    rt: &R,
    alloc: Global,
    folder: F,
) -> Result<Found<F>, (ChangeFault, F)>
    requires sound { F.sound folder ≡ true }
    requires none { F.shows folder journal_name None × F.kept folder journal_name 0 }
    ensures sound { IfOk result (λ x. F.sound x.folder ≡ true) }
    ensures found { IfOk result (λ x. IsFoundStore F.shows F.kept x.store.journal
        (map part_in x.store.blocks.items) x.folder) }
    ensures later { IfErr result (λ e. IsLater e.0) }
    ensures saved { IfOk result (λ x. x.store.journal.events.items ≡ []) }
    ensures any_moment { MatchResult result
        (λ x. LeavesOnly F.moment F.left_since folder x.folder NoneOrStands)
        (λ e. LeavesOnly F.moment F.left_since folder e.1 NoneOrStands) }
    ensures starts { MatchResult result
        (λ x. LeavesOnly F.moment F.left_since folder x.folder MayStart)
        (λ e. LeavesOnly F.moment F.left_since folder e.1 MayStart) }
    ensures may { TellsFiles F.shows → IfOk result (λ x. MayStand
        (started x.store.journal.head (map part_in x.store.blocks.items))) }
    ensures after { TellsFiles F.shows → IfOk result (λ x. IsAfter (beginning Whole) []
        x.store.journal.head (map part_in x.store.blocks.items)) }
    ensures fresh { TellsFiles F.shows → IfOk result (λ x. x.store.journal.head.places ≡ []) }
    ensures foreign { MatchResult result
        (λ x. KeepsForeign F.shows F.kept folder x.folder)
        (λ e. KeepsForeign F.shows F.kept folder e.1) }
{
    match begin::<Brand, F>(alloc, folder) {
        Ok(folder) => read_again(rt, alloc, folder),
        Err(fault) => Err(fault),
    }
}

/// Begins the store of a folder that has no journal, if it has no blocks either: who has lost a
/// journal shall not lose the blocks as well.
fn begin_found<R: Threads + Sync, F: Folder + Drop>(
    rt: &R,
    alloc: Global,
    folder: F,
) -> Result<Found<F>, (ChangeFault, F)>
    requires sound { F.sound folder ≡ true }
    requires none { F.shows folder journal_name None × F.kept folder journal_name 0 }
    ensures sound { IfOk result (λ found. F.sound found.folder ≡ true) }
    ensures found { IfOk result (λ found. IsFoundStore F.shows F.kept found.store.journal
        (map part_in found.store.blocks.items) found.folder) }
    ensures later { IfErr result (λ e. (cause : StartError) → e.0 ≡ ChangeFault.Open cause → ⊥) }
    ensures none { IfErr result (λ e. e.0 ≡ ChangeFault.NoStore
        → F.shows e.1 journal_name None) }
    ensures nothing { IfErr result (λ e. e.0 ≡ ChangeFault.NoStore
        → Untouched F.shows F.kept F.moment F.left_since folder e.1) }
    ensures listed { IfErr result (λ e. e.0 ≡ ChangeFault.NoStore
        → (F.failed e.1 ≡ true) ⊎ ListsNumber F.lists e.1 true) }
    ensures saved { IfOk result (λ x. x.store.journal.events.items ≡ []) }
    ensures any_moment { MatchResult result
        (λ x. LeavesOnly F.moment F.left_since folder x.folder NoneOrStands)
        (λ e. LeavesOnly F.moment F.left_since folder e.1 NoneOrStands) }
    ensures starts { MatchResult result
        (λ x. LeavesOnly F.moment F.left_since folder x.folder MayStart)
        (λ e. LeavesOnly F.moment F.left_since folder e.1 MayStart) }
    ensures may { TellsFiles F.shows → IfOk result (λ x. MayStand
        (started x.store.journal.head (map part_in x.store.blocks.items))) }
    ensures after { TellsFiles F.shows → IfOk result (λ x. IsAfter (beginning Whole) []
        x.store.journal.head (map part_in x.store.blocks.items)) }
    ensures fresh { TellsFiles F.shows → IfOk result (λ x. x.store.journal.head.places ≡ []) }
    // Where a block lies, nothing is changed.
    ensures blocks { HasBlocks F.shows F.lists F.kept F.moment F.left_since folder
        → MatchResult result (λ x. ⊥)
        (λ e. Untouched F.shows F.kept F.moment F.left_since folder e.1) }
    ensures foreign { MatchResult result
        (λ x. KeepsForeign F.shows F.kept folder x.folder)
        (λ e. KeepsForeign F.shows F.kept folder e.1) }
{
    let mut folder = folder;
    match has_blocks(alloc, &mut folder) {
        Ok(false) => begin_again(rt, alloc, folder),
        Ok(true) | Err(_) => Err((ChangeFault::NoStore, folder)),
    }
}

/// Begins the store of a folder that has neither a journal nor blocks, and adds the blocks of an
/// opening to it.
fn add_first<R: Threads + Sync, F: Folder + Drop>(
    rt: &R,
    alloc: Global,
    folder: F,
    opening: &Snapshot,
    values: Values,
) -> Result<(usize, F), (ChangeFault, F)>
    requires sound { F.sound folder ≡ true }
    requires none { F.shows folder journal_name None × F.kept folder journal_name 0 }
    ensures later { IfErr result (λ e. (cause : StartError) → e.0 ≡ ChangeFault.Open cause → ⊥) }
    ensures none { IfErr result (λ e. e.0 ≡ ChangeFault.NoStore
        → F.shows e.1 journal_name None) }
    ensures nothing { IfErr result (λ e. e.0 ≡ ChangeFault.NoStore
        → Untouched F.shows F.kept F.moment F.left_since folder e.1) }
    ensures listed { IfErr result (λ e. e.0 ≡ ChangeFault.NoStore
        → (F.failed e.1 ≡ true) ⊎ ListsNumber F.lists e.1 true) }
    ensures any_moment { TellsFiles F.shows → MatchResult result
        (λ x. LeavesOnly F.moment F.left_since folder x.1
        (NoneOrFinds (IsAddedTo values opening.now.blocks opening.now.floor (beginning Whole))))
        (λ e. LeavesOnly F.moment F.left_since folder e.1
        (NoneOrFinds (IsAddedTo values opening.now.blocks opening.now.floor (beginning Whole)))) }
    ensures starts { TellsFiles F.shows → MatchResult result
        (λ x. LeavesOnly F.moment F.left_since folder x.1 MayStart)
        (λ e. LeavesOnly F.moment F.left_since folder e.1 MayStart) }
    ensures finds { TellsFiles F.shows → IfOk result (λ x. (x.0 ≡ length opening.now.blocks)
        × FindsNow F.moment F.left_since x.1 (other_of (beginning Whole)
        (with_beneath opening.now.blocks opening.now.floor (beginning Whole).world))) }
    ensures stays { TellsFiles F.shows → IfErr result (λ e.
        (e.0 ≡ ChangeFault.Roll (RollFault.Folder RollError.Lost) → ⊥)
        → LeavesNow F.moment F.left_since e.1 (NoneOrFinds IsSame)) }
    ensures meant { OnOk result (values ≡ Whole) }
    ensures says { IfOk result (λ x. SaysOne F.shows F.kept x.1) }
    ensures numbers { TellsFiles F.shows → IfOk result (λ x.
        SaysAdded F.shows F.kept [] (length opening.now.blocks) x.0 x.1) }
    ensures blocks { HasBlocks F.shows F.lists F.kept F.moment F.left_since folder
        → MatchResult result (λ x. ⊥)
        (λ e. Untouched F.shows F.kept F.moment F.left_since folder e.1) }
    ensures foreign { MatchResult result
        (λ x. KeepsForeign F.shows F.kept folder x.1)
        (λ e. KeepsForeign F.shows F.kept folder e.1) }
{
    if !values.is_same(Values::Whole) {
        return Err((ChangeFault::Meaning, folder));
    }
    match begin_found(rt, alloc, folder) {
        Ok(found) => add_found(rt, alloc, found, opening, values),
        Err(fault) => Err(fault),
    }
}

/// Adds the blocks of an opening, whose values mean this, to the store of a folder, before its own:
/// where both have a sample of one label set at one time, the store's stands. What its journal has
/// is saved first. A folder that has neither a journal nor blocks gets a store of whole numbers.
/// How many blocks it then has, and the folder, which an `Err` gives back too. When `Meaning` and
/// `Unfit` come is not promised.
pub fn add_to_store<R: Threads + Sync, F: Folder + Drop>(
    rt: &R,
    alloc: Global,
    folder: F,
    opening: &Snapshot,
    values: Values,
) -> Result<(usize, F), (ChangeFault, F)>
    requires { F.sound folder ≡ true }
    // The folder tells what its files have, and a store with a head lies there. A crash at any
    // moment of the call leaves what stands for its events; or these are accepted, and a start
    // finds their world, or it laid over the blocks, and no events. The values mean what they
    // meant.
    ensures any_moment { TellsFiles F.shows → (saved : Saved) (parts : List BlockPart)
        (events : List Change) → (s : HasStore F.shows F.kept saved parts events folder)
        → begins_plain s.file ≡ false → MatchResult result
        (λ x. StaysOrFinds F.moment F.left_since folder x.1 (origin_of saved parts)
        events (IsAddedTo values opening.now.blocks opening.now.floor (origin_of saved parts)))
        (λ e. StaysOrFinds F.moment F.left_since folder e.1 (origin_of saved parts)
        events (IsAddedTo values opening.now.blocks opening.now.floor (origin_of saved parts))) }
    // If the head and the blocks may be a snapshot, then so may those that such a crash leaves: no
    // start refuses them.
    ensures starts { TellsFiles F.shows → (saved : Saved) (parts : List BlockPart)
        (events : List Change) → (s : HasStore F.shows F.kept saved parts events folder)
        → begins_plain s.file ≡ false → MayStand (started saved parts)
        → MatchResult result
        (λ x. LeavesOnly F.moment F.left_since folder x.1 MayStart)
        (λ e. LeavesOnly F.moment F.left_since folder e.1 MayStart) }
    // After `Ok` it finds their world laid over the blocks, in the number of blocks that is told;
    // and the values of both mean the same.
    ensures finds { TellsFiles F.shows → (saved : Saved) (parts : List BlockPart)
        (events : List Change) → (s : HasStore F.shows F.kept saved parts events folder)
        → begins_plain s.file ≡ false → IfOk result (λ x. (w : World)
        × (replayed (origin_of saved parts).world events ≡ Ok w)
        × (x.0 ≡ length opening.now.blocks + w.blocks) × (saved.values ≡ values)
        × FindsNow F.moment F.left_since x.1 (other_of (origin_of saved parts)
        (with_beneath opening.now.blocks opening.now.floor w))) }
    // The journal has a head alone, which says what the values mean, and so does the `meta.json` of
    // each block.
    ensures says { IfOk result (λ x. SaysOne F.shows F.kept x.1) }
    // The blocks lie in folders of the least numbers that are above those of the blocks before, as
    // they lay once the events were saved.
    ensures numbers { TellsFiles F.shows → (saved : Saved) (parts : List BlockPart)
        (events : List Change) → (s : HasStore F.shows F.kept saved parts events folder)
        → begins_plain s.file ≡ false → IfOk result (λ x. SaysAdded F.shows F.kept
        saved.places (length opening.now.blocks) x.0 x.1) }
    ensures plain_numbers { TellsFiles F.shows → (file : List ℕ)
        → F.shows folder journal_name (Some file) → begins_plain file ≡ true
        → IfOk result (λ x. SaysAdded F.shows F.kept [] (length opening.now.blocks) x.0 x.1) }
    ensures first_numbers { TellsFiles F.shows → F.shows folder journal_name None
        → IfOk result (λ x. SaysAdded F.shows F.kept [] (length opening.now.blocks) x.0 x.1) }
    // After an `Err`, if the blocks said so before, each says what the head says, whatever a crash
    // leaves now, unless `Lost` is told.
    ensures says_stays { TellsFiles F.shows → (saved : Saved) (parts : List BlockPart)
        (events : List Change) → (s : HasStore F.shows F.kept saved parts events folder)
        → begins_plain s.file ≡ false → EachSays F.shows F.kept saved.values saved.places folder
        → IfErr result (λ e. (e.0 ≡ ChangeFault.Roll (RollFault.Folder RollError.Lost) → ⊥)
        → LeavesNow F.moment F.left_since e.1 BlocksSay) }
    // After an `Err` it finds the store as it was, unless `Lost` is told.
    ensures stays { TellsFiles F.shows → (saved : Saved) (parts : List BlockPart)
        (events : List Change) → (s : HasStore F.shows F.kept saved parts events folder)
        → begins_plain s.file ≡ false → IfErr result (λ e.
        (e.0 ≡ ChangeFault.Roll (RollFault.Folder RollError.Lost) → ⊥)
        → StaysNow F.moment F.left_since e.1 (origin_of saved parts) events) }
    // Where `Open` is told, but of `Medium`, nothing is changed.
    ensures unchanged { IfErr result (λ e. (cause : StartError) → e.0 ≡ ChangeFault.Open cause
        → (cause ≡ StartError.Medium → ⊥)
        → Untouched F.shows F.kept F.moment F.left_since folder e.1) }
    // `Open` tells what is wrong with the folder.
    ensures refused { IfErr result (λ e. (cause : StartError) → e.0 ≡ ChangeFault.Open cause
        → DeniesFolder F.shows F.kept F.failed e.1 cause) }
    // That there is no store is told only of a folder that has no journal, and below whose `blocks`
    // a number is listed, or could not be looked for. Then nothing is changed.
    ensures none { IfErr result (λ e. e.0 ≡ ChangeFault.NoStore
        → F.shows e.1 journal_name None) }
    ensures listed { IfErr result (λ e. e.0 ≡ ChangeFault.NoStore
        → (F.failed e.1 ≡ true) ⊎ ListsNumber F.lists e.1 true) }
    ensures nothing { IfErr result (λ e. e.0 ≡ ChangeFault.NoStore
        → Untouched F.shows F.kept F.moment F.left_since folder e.1) }
    // Where the journal does not begin as one of events alone, what is changed is a store that was
    // there. So a folder with such a journal that is damaged, or without a file of a block that it
    // names, stays as it is.
    ensures safe { TellsFiles F.shows → (file : List ℕ)
        → F.shows folder journal_name (Some file) → begins_plain file ≡ false
        → MatchResult result
        (λ y. Changes F.shows F.kept F.moment F.left_since
        (IsAddedTo values opening.now.blocks opening.now.floor) folder y.1)
        (λ e. MayChange F.shows F.kept F.moment F.left_since
        (IsAddedTo values opening.now.blocks opening.now.floor) folder e.1) }
    // Of a journal of events alone, a crash at any moment of the call leaves it as it was or with a
    // head; or a start finds the world of its events, or it laid over the blocks.
    ensures plain { TellsFiles F.shows → (file : List ℕ)
        → HasFile F.shows F.kept journal_name file folder → begins_plain file ≡ true
        → MatchResult result
        (λ y. LeavesOnly F.moment F.left_since folder y.1
        (PlainOrFinds file (IsAddedTo values opening.now.blocks opening.now.floor
        (beginning Whole))))
        (λ e. LeavesOnly F.moment F.left_since folder e.1
        (PlainOrFinds file (IsAddedTo values opening.now.blocks opening.now.floor
        (beginning Whole)))) }
    // Where it does not leave the journal so, no start refuses the head and the blocks that are
    // left.
    ensures plain_starts { TellsFiles F.shows → (file : List ℕ)
        → HasFile F.shows F.kept journal_name file folder → begins_plain file ≡ true
        → MatchResult result
        (λ y. LeavesOnly F.moment F.left_since folder y.1 (PlainOrStarts file))
        (λ e. LeavesOnly F.moment F.left_since folder e.1 (PlainOrStarts file)) }
    // After an `Err` it leaves the journal so, or a start finds the world of its events, unless
    // `Lost` is told.
    ensures plain_stays { TellsFiles F.shows → (file : List ℕ)
        → HasFile F.shows F.kept journal_name file folder → begins_plain file ≡ true
        → IfErr result (λ e. (e.0 ≡ ChangeFault.Roll (RollFault.Folder RollError.Lost) → ⊥)
        → LeavesNow F.moment F.left_since e.1 (PlainOrFinds file IsSame)) }
    // After an `Err` nothing was changed, or that journal stands for events. So where a damaged
    // journal begins as one of events alone, nothing is changed; if the folder failed as the store
    // was opened, all files stay but the journal and one in the making.
    ensures plain_safe { TellsFiles F.shows → (file : List ℕ)
        → F.shows folder journal_name (Some file) → begins_plain file ≡ true
        → IfErr result (λ e. MayChangePlain F.shows F.kept F.moment F.left_since file e.0
        folder e.1) }
    // After `Ok` a start finds their world laid over the blocks.
    ensures plain_finds { TellsFiles F.shows → (file : List ℕ)
        → F.shows folder journal_name (Some file) → begins_plain file ≡ true
        → IfOk result (λ x. (events : List Change) × (w : World) × StandsAlone file events
        × (replayed (beginning Whole).world events ≡ Ok w)
        × (x.0 ≡ length opening.now.blocks + w.blocks) × (values ≡ Whole)
        × FindsNow F.moment F.left_since x.1 (other_of (beginning Whole)
        (with_beneath opening.now.blocks opening.now.floor w))) }
    // In a folder without a journal, where a block lies nothing is changed: who has lost a journal
    // shall not lose the blocks as well.
    ensures blocks { TellsFiles F.shows → F.shows folder journal_name None
        → HasBlocks F.shows F.lists F.kept F.moment F.left_since folder
        → MatchResult result (λ x. ⊥)
        (λ e. Untouched F.shows F.kept F.moment F.left_since folder e.1) }
    // Else a crash at any moment of the call leaves no journal, or that of a store that has nothing
    // or has the blocks; and after `Ok` a start finds these.
    ensures first { TellsFiles F.shows → F.shows folder journal_name None
        → F.kept folder journal_name 0 → MatchResult result
        (λ x. LeavesOnly F.moment F.left_since folder x.1
        (NoneOrFinds (IsAddedTo values opening.now.blocks opening.now.floor (beginning Whole))))
        (λ e. LeavesOnly F.moment F.left_since folder e.1
        (NoneOrFinds (IsAddedTo values opening.now.blocks opening.now.floor (beginning Whole)))) }
    // No start refuses the head and the blocks that are left.
    ensures first_starts { TellsFiles F.shows → F.shows folder journal_name None
        → F.kept folder journal_name 0 → MatchResult result
        (λ x. LeavesOnly F.moment F.left_since folder x.1 MayStart)
        (λ e. LeavesOnly F.moment F.left_since folder e.1 MayStart) }
    // After an `Err` it leaves no journal, or that of a store that has nothing, unless `Lost` is
    // told.
    ensures first_stays { TellsFiles F.shows → F.shows folder journal_name None
        → F.kept folder journal_name 0 → IfErr result (λ e.
        (e.0 ≡ ChangeFault.Roll (RollFault.Folder RollError.Lost) → ⊥)
        → LeavesNow F.moment F.left_since e.1 (NoneOrFinds IsSame)) }
    ensures first_finds { TellsFiles F.shows → F.shows folder journal_name None
        → IfOk result (λ x. (x.0 ≡ length opening.now.blocks) × (values ≡ Whole)
        × FindsNow F.moment F.left_since x.1 (other_of (beginning Whole)
        (with_beneath opening.now.blocks opening.now.floor (beginning Whole).world))) }
    // What is none of the store's stays.
    ensures foreign { MatchResult result
        (λ x. KeepsForeign F.shows F.kept folder x.1)
        (λ e. KeepsForeign F.shows F.kept folder e.1) }
{
    let mut folder = folder;
    match open_store(rt, alloc, &mut folder) {
        Ok(opened) => match opened {
            Some(store) => add_found(rt, alloc, Found { folder, store }, opening, values),
            None => add_first(rt, alloc, folder, opening, values),
        },
        Err(error) => Err((ChangeFault::Open(error), folder)),
    }
}

//! The blocks of a store that is kept in a folder, joined.

ghost use Rattle.std.specs.Prelude.{◌≡◌, ◌≤◌, ℕ, List, [], IfErr, IfOk, MatchResult, None, Ok};
ghost use Rattle.std.specs.Prelude.{Option, Some, false, length, map, true};
ghost use Rattle.block_folder.specs.declared.values.Values.TheVariants.{Whole};
ghost use Rattle.data_folder.specs.Folders.{HasFile, LeavesOnly, Untouched};
ghost use Rattle.data_folder.specs.JournalFile.{journal_name};
ghost use Rattle.data_folder.specs.Sweeping.{KeepsForeign};
ghost use Rattle.head.specs.Blocks.{part_in};
ghost use Rattle.head.specs.Heads.{BlockPart};
ghost use Rattle.head.specs.Resuming.{MayStand};
ghost use Rattle.head.specs.Worlds.{Event as Change, World, replayed};
ghost use Rattle.head_record.specs.Saved.{Saved};
ghost use Rattle.store_folder.specs.Faults.{TellsFiles};
ghost use Rattle.store_folder.specs.Finding.{IsFoundStore};
ghost use Rattle.store_folder.specs.Origins.{beginning};
ghost use Rattle.store_folder.specs.Plain.{DeniesFolder, StandsAlone, begins_plain, may_be_plain};
ghost use Rattle.store_folder.specs.Starting.{StartFinds};
ghost use Rattle.store_folder.specs.States.{MayStart, origin_of, started};
ghost use Rattle.store_folder.specs.Writing.{EachSays};
ghost use Rattle.store_joiner.specs.Finds.{BlocksSay, Finds, FindsNow, other_of};
ghost use Rattle.store_joiner.specs.Joins.{with_blocks};
ghost use Rattle.store_joiner.specs.Stores.{Changes, HasSaved, HasStore, IsJoinedHere, IsJoinedTo};
ghost use Rattle.store_joiner.specs.Stores.{IsLater, IsSame};
ghost use Rattle.store_joiner.specs.Stores.{LeavesNow, MayChange, MayChangePlain, PlainOrFinds};
ghost use Rattle.store_joiner.specs.Stores.{PlainOrStarts, SaysAbove, SaysNumbered, SaysOne};
ghost use Rattle.store_joiner.specs.Stores.{StaysNow, StaysNumbered, StaysOrFinds};

use crate::error::ChangeFault;
use crate::joined::joined_snapshot;
use crate::opened::{Found, save};
use crate::replacing::replace;
use data_folder::{Folder, RollError};
use head::{ResumeError, Snapshot};
use std::alloc::Global;
use std::marker::Brand;
use std::thread::Threads;
use store_folder::{Beginning, FoundStore, RollFault, StartError, StoreJournal, open_store};

/// How many blocks a store had, and how many it has.
#[derive(Clone, Copy, Drop)]
pub struct BlockCounts {
    /// Before the join, once its events were saved.
    pub before: usize,
    /// After it.
    pub after: usize,
}

/// How many blocks a store has, and how many a snapshot.
fn counts_of(store: &FoundStore, snapshot: &Snapshot) -> BlockCounts
    ensures before { result.before ≡ length store.now.blocks.items }
    ensures after { result.after ≡ length snapshot.now.blocks }
{
    BlockCounts {
        before: store.blocks.len(),
        after: snapshot.blocks().len(),
    }
}

/// Removes what a join or a roll that was cut off has left behind. The folder.
fn sweep<N: Beginning, F: Folder + Drop>(
    alloc: Global,
    found: Found<F>,
) -> Result<F, (ChangeFault, F)>
    requires sound { F.sound found.folder ≡ true }
    requires found { IsFoundStore F.shows F.kept found.store.journal
        (map part_in found.store.blocks.items) found.folder }
    requires first { N.first ≡ origin_of found.store.journal.head
        (map part_in found.store.blocks.items) }
    ensures any_moment { MatchResult result
        (λ folder. StartFinds F.moment F.left_since found.folder folder N.first
        found.store.journal.events.items)
        (λ e. StartFinds F.moment F.left_since found.folder e.1 N.first
        found.store.journal.events.items) }
    // If the head and the blocks that were found may be a snapshot, then so may those that a crash
    // at any moment of the call leaves.
    ensures starts { MayStand (started found.store.journal.head
        (map part_in found.store.blocks.items))
        → MatchResult result
        (λ x. LeavesOnly F.moment F.left_since found.folder x MayStart)
        (λ e. LeavesOnly F.moment F.left_since found.folder e.1 MayStart) }
    // If the journal has no events, then it is exactly the file of its head, and its blocks lie
    // where they lay.
    ensures rests { found.store.journal.events.items ≡ [] → IfOk result (HasSaved F.shows F.kept
        found.store.journal.head (map part_in found.store.blocks.items)) }
    // If the journal has no events, and each block says what its head says, so it is then.
    ensures says { found.store.journal.events.items ≡ [] → EachSays F.shows F.kept
        found.store.journal.head.values found.store.journal.head.places found.folder
        → MayStand (started found.store.journal.head (map part_in found.store.blocks.items))
        → IfOk result (SaysOne F.shows F.kept) }
    ensures says_stays { EachSays F.shows F.kept found.store.journal.head.values
        found.store.journal.head.places found.folder
        → IfErr result (λ e. LeavesNow F.moment F.left_since e.1 BlocksSay) }
    ensures later { IfErr result (λ e. IsLater e.0) }
    ensures foreign { MatchResult result
        (λ x. KeepsForeign F.shows F.kept found.folder x)
        (λ e. KeepsForeign F.shows F.kept found.folder e.1) }
{
    let Found { folder, store } = found;
    let Ok(names) = store.journal.names.copied(alloc) else {
        let none = StartError::Head(ResumeError::Memory);
        return Err((ChangeFault::Resume(none), folder));
    };
    let mut journal: StoreJournal<N, F> = match StoreJournal::resume(
        folder,
        names,
        &store.journal,
    ) {
        Ok(journal) => journal,
        Err((_, folder)) => return Err((ChangeFault::Resume(StartError::Medium), folder)),
    };
    let _ = journal.sweep_blocks(alloc, store.journal.head.places());
    Ok(journal.events.journal.medium.folder)
}

/// Joins the blocks of a store, if that makes fewer of them; else removes what a join or a roll
/// left behind that was cut off.
fn join_saved<N: Beginning, F: Folder + Drop>(
    alloc: Global,
    found: Found<F>,
) -> Result<(BlockCounts, F), (ChangeFault, F)>
    requires sound { F.sound found.folder ≡ true }
    requires found { IsFoundStore F.shows F.kept found.store.journal
        (map part_in found.store.blocks.items) found.folder }
    requires saved { found.store.journal.events.items ≡ [] }
    requires first { N.first ≡ origin_of found.store.journal.head
        (map part_in found.store.blocks.items) }
    ensures any_moment { MatchResult result
        (λ x. LeavesOnly F.moment F.left_since found.folder x.1
        (Finds N.first.values (IsJoinedTo N.first.world)))
        (λ e. LeavesOnly F.moment F.left_since found.folder e.1
        (Finds N.first.values (IsJoinedTo N.first.world))) }
    ensures starts { MayStand (started found.store.journal.head
        (map part_in found.store.blocks.items))
        → MatchResult result
        (λ x. LeavesOnly F.moment F.left_since found.folder x.1 MayStart)
        (λ e. LeavesOnly F.moment F.left_since found.folder e.1 MayStart) }
    ensures finds { IfOk result (λ x. FindsNow F.moment F.left_since x.1
        (other_of N.first (with_blocks x.0.after N.first.world))) }
    ensures before { IfOk result (λ x. x.0.before ≡ N.first.world.blocks) }
    ensures few { IfOk result (λ x. x.0.after ≤ x.0.before) }
    ensures says { IfOk result (λ x. (x.0.after ≡ x.0.before → ⊥)
        → SaysOne F.shows F.kept x.1) }
    ensures numbers { IfOk result (λ x. (x.0.after ≡ x.0.before → ⊥)
        → SaysAbove F.shows F.kept found.store.journal.head.places x.1) }
    ensures rests { IfOk result (λ x. x.0.after ≡ x.0.before → HasSaved F.shows F.kept
        found.store.journal.head (map part_in found.store.blocks.items) x.1) }
    ensures says_still { EachSays F.shows F.kept found.store.journal.head.values
        found.store.journal.head.places found.folder
        → MayStand (started found.store.journal.head (map part_in found.store.blocks.items))
        → IfOk result (λ x. SaysOne F.shows F.kept x.1) }
    ensures says_stays { EachSays F.shows F.kept found.store.journal.head.values
        found.store.journal.head.places found.folder → IfErr result (λ e.
        (e.0 ≡ ChangeFault.Roll (RollFault.Folder RollError.Lost) → ⊥)
        → LeavesNow F.moment F.left_since e.1 BlocksSay) }
    ensures stays { IfErr result (λ e.
        (e.0 ≡ ChangeFault.Roll (RollFault.Folder RollError.Lost) → ⊥)
        → FindsNow F.moment F.left_since e.1 N.first) }
    ensures later { IfErr result (λ e. IsLater e.0) }
    ensures foreign { MatchResult result
        (λ x. KeepsForeign F.shows F.kept found.folder x.1)
        (λ e. KeepsForeign F.shows F.kept found.folder e.1) }
{
    let snapshot = match joined_snapshot(alloc, &found.store) {
        Ok(snapshot) => snapshot,
        Err(error) => {
            let count = found.store.blocks.len();
            return Err((ChangeFault::Unfit(error, count), found.folder));
        }
    };
    let counts = counts_of(&found.store, &snapshot);
    let BlockCounts { before, after } = counts;
    if after == before {
        match sweep::<N, F>(alloc, found) {
            Ok(folder) => Ok((counts, folder)),
            Err(fault) => Err(fault),
        }
    } else {
        match replace::<N, F>(alloc, found, &snapshot) {
            Ok(folder) => Ok((counts, folder)),
            Err(fault) => Err(fault),
        }
    }
}

/// Joins the blocks of a store that was found, after what its journal has was saved.
fn join_found<R: Threads + Sync, F: Folder + Drop>(
    rt: &R,
    alloc: Global,
    found: Found<F>,
) -> Result<(BlockCounts, F), (ChangeFault, F)>
    requires sound { F.sound found.folder ≡ true }
    requires found { IsFoundStore F.shows F.kept found.store.journal
        (map part_in found.store.blocks.items) found.folder }
    ensures any_moment { TellsFiles F.shows → MatchResult result
        (λ x. StaysOrFinds F.moment F.left_since found.folder x.1
        (origin_of found.store.journal.head (map part_in found.store.blocks.items))
        found.store.journal.events.items IsJoinedTo)
        (λ e. StaysOrFinds F.moment F.left_since found.folder e.1
        (origin_of found.store.journal.head (map part_in found.store.blocks.items))
        found.store.journal.events.items IsJoinedTo) }
    ensures starts { TellsFiles F.shows → MayStand (started found.store.journal.head
        (map part_in found.store.blocks.items))
        → MatchResult result
        (λ x. LeavesOnly F.moment F.left_since found.folder x.1 MayStart)
        (λ e. LeavesOnly F.moment F.left_since found.folder e.1 MayStart) }
    ensures finds { TellsFiles F.shows → IfOk result (λ x. (w : World) × (replayed
        (origin_of found.store.journal.head (map part_in found.store.blocks.items)).world
        found.store.journal.events.items ≡ Ok w) × (x.0.before ≡ w.blocks)
        × FindsNow F.moment F.left_since x.1 (other_of
        (origin_of found.store.journal.head (map part_in found.store.blocks.items))
        (with_blocks x.0.after w))) }
    ensures few { IfOk result (λ x. x.0.after ≤ x.0.before) }
    ensures says { IfOk result (λ x. (x.0.after ≡ x.0.before → ⊥)
        → SaysOne F.shows F.kept x.1) }
    ensures numbers { TellsFiles F.shows → IfOk result (λ x. (x.0.after ≡ x.0.before → ⊥)
        → SaysNumbered F.shows F.kept found.store.journal.head.places x.0.before x.1) }
    ensures numbers_still { TellsFiles F.shows → IfOk result (λ x. x.0.after ≡ x.0.before
        → StaysNumbered F.shows F.kept found.store.journal.head.places x.0.before x.1) }
    ensures says_still { TellsFiles F.shows → EachSays F.shows F.kept
        found.store.journal.head.values found.store.journal.head.places found.folder
        → (found.store.journal.events.items ≡ [] → MayStand
        (started found.store.journal.head (map part_in found.store.blocks.items)))
        → IfOk result (λ x. SaysOne F.shows F.kept x.1) }
    ensures stays { TellsFiles F.shows → IfErr result (λ e.
        (e.0 ≡ ChangeFault.Roll (RollFault.Folder RollError.Lost) → ⊥)
        → StaysNow F.moment F.left_since e.1
        (origin_of found.store.journal.head (map part_in found.store.blocks.items))
        found.store.journal.events.items) }
    ensures says_stays { TellsFiles F.shows → EachSays F.shows F.kept
        found.store.journal.head.values found.store.journal.head.places found.folder
        → IfErr result (λ e.
        (e.0 ≡ ChangeFault.Roll (RollFault.Folder RollError.Lost) → ⊥)
        → LeavesNow F.moment F.left_since e.1 BlocksSay) }
    ensures later { IfErr result (λ e. IsLater e.0) }
    ensures foreign { MatchResult result
        (λ x. KeepsForeign F.shows F.kept found.folder x.1)
        (λ e. KeepsForeign F.shows F.kept found.folder e.1) }
{
    match save(rt, alloc, found) {
        Ok(saved) => join_saved::<Brand, F>(alloc, saved),
        Err(fault) => Err(fault),
    }
}

/// Joins the blocks of the store of a folder into fewer, if that can be: what its journal has is
/// saved first. How many blocks it had and has, and the folder, which an `Err` gives back too.
///
/// It takes memory for the rows of all blocks.
pub fn join_store<R: Threads + Sync, F: Folder + Drop>(
    rt: &R,
    alloc: Global,
    folder: F,
) -> Result<(BlockCounts, F), (ChangeFault, F)>
    requires { F.sound folder ≡ true }
    // The folder tells what its files have, and a store with a head lies there. A crash at any
    // moment of the call leaves what stands for its events; or these are accepted, and a start
    // finds their world, in some number of blocks, and no events. The values mean what they meant.
    ensures any_moment { TellsFiles F.shows → (saved : Saved) (parts : List BlockPart)
        (events : List Change) → (s : HasStore F.shows F.kept saved parts events folder)
        → begins_plain s.file ≡ false → MatchResult result
        (λ x. StaysOrFinds F.moment F.left_since folder x.1 (origin_of saved parts)
        events IsJoinedTo)
        (λ e. StaysOrFinds F.moment F.left_since folder e.1 (origin_of saved parts)
        events IsJoinedTo) }
    // If the head and the blocks may be a snapshot, then so may those that such a crash leaves: no
    // start refuses them.
    ensures starts { TellsFiles F.shows → (saved : Saved) (parts : List BlockPart)
        (events : List Change) → (s : HasStore F.shows F.kept saved parts events folder)
        → begins_plain s.file ≡ false → MayStand (started saved parts)
        → MatchResult result
        (λ x. LeavesOnly F.moment F.left_since folder x.1 MayStart)
        (λ e. LeavesOnly F.moment F.left_since folder e.1 MayStart) }
    // After `Ok` it finds their world, in the number of blocks that is told, and no events.
    ensures finds { TellsFiles F.shows → (saved : Saved) (parts : List BlockPart)
        (events : List Change) → (s : HasStore F.shows F.kept saved parts events folder)
        → begins_plain s.file ≡ false → IfOk result (λ x. (w : World)
        × (replayed (origin_of saved parts).world events ≡ Ok w) × (x.0.before ≡ w.blocks)
        × FindsNow F.moment F.left_since x.1
        (other_of (origin_of saved parts) (with_blocks x.0.after w))) }
    ensures few { IfOk result (λ x. x.0.after ≤ x.0.before) }
    // Where blocks were joined, the journal is exactly a head, which says what the values mean, and
    // so does the `meta.json` of each block.
    ensures says { IfOk result (λ x. (x.0.after ≡ x.0.before → ⊥)
        → SaysOne F.shows F.kept x.1) }
    // The blocks lie in folders of the least numbers that are above those of the blocks before, as
    // they lay once the events were saved.
    ensures numbers { TellsFiles F.shows → (saved : Saved) (parts : List BlockPart)
        (events : List Change) → (s : HasStore F.shows F.kept saved parts events folder)
        → begins_plain s.file ≡ false → IfOk result (λ x. (x.0.after ≡ x.0.before → ⊥)
        → SaysNumbered F.shows F.kept saved.places x.0.before x.1) }
    ensures plain_numbers { TellsFiles F.shows → (file : List ℕ)
        → F.shows folder journal_name (Some file) → begins_plain file ≡ true
        → IfOk result (λ x. (x.0.after ≡ x.0.before → ⊥)
        → SaysNumbered F.shows F.kept [] x.0.before x.1) }
    // Where none were joined, the journal is a head alone, and the blocks lie as they lay once the
    // events were saved: where they were before, or some of them there and new ones above them.
    ensures numbers_still { TellsFiles F.shows → (saved : Saved) (parts : List BlockPart)
        (events : List Change) → (s : HasStore F.shows F.kept saved parts events folder)
        → begins_plain s.file ≡ false → IfOk result (λ x. x.0.after ≡ x.0.before
        → StaysNumbered F.shows F.kept saved.places x.0.before x.1) }
    ensures plain_numbers_still { TellsFiles F.shows → (file : List ℕ)
        → F.shows folder journal_name (Some file) → begins_plain file ≡ true
        → IfOk result (λ x. x.0.after ≡ x.0.before
        → StaysNumbered F.shows F.kept [] x.0.before x.1) }
    // If the blocks said so before, so it is after `Ok` also where none were joined; and a start
    // makes a snapshot of the head and of them, if it did so before, or the journal had events. Of
    // a journal of events alone, which names no blocks, it is always so.
    ensures says_still { TellsFiles F.shows → (saved : Saved) (parts : List BlockPart)
        (events : List Change) → (s : HasStore F.shows F.kept saved parts events folder)
        → begins_plain s.file ≡ false → EachSays F.shows F.kept saved.values saved.places folder
        → (events ≡ [] → MayStand (started saved parts))
        → IfOk result (λ x. SaysOne F.shows F.kept x.1) }
    ensures plain_says { TellsFiles F.shows → (file : List ℕ)
        → F.shows folder journal_name (Some file) → begins_plain file ≡ true
        → IfOk result (λ x. SaysOne F.shows F.kept x.1) }
    // After an `Err`, if the blocks said so before, each says what the head says, whatever a crash
    // leaves now, unless `Lost` is told.
    ensures says_stays { TellsFiles F.shows → (saved : Saved) (parts : List BlockPart)
        (events : List Change) → (s : HasStore F.shows F.kept saved parts events folder)
        → begins_plain s.file ≡ false → EachSays F.shows F.kept saved.values saved.places folder
        → IfErr result (λ e. (e.0 ≡ ChangeFault.Roll (RollFault.Folder RollError.Lost) → ⊥)
        → LeavesNow F.moment F.left_since e.1 BlocksSay) }
    // After an `Err` it finds the store as it was, unless `Lost` is told.
    ensures stays { TellsFiles F.shows → (saved : Saved) (parts : List BlockPart)
        (events : List Change) → (s : HasStore F.shows F.kept saved parts events folder)
        → begins_plain s.file ≡ false → IfErr result (λ e.
        (e.0 ≡ ChangeFault.Roll (RollFault.Folder RollError.Lost) → ⊥)
        → StaysNow F.moment F.left_since e.1 (origin_of saved parts) events) }
    // Where `Open` is told, but of `Medium`, nothing is changed; nor where `NoStore` is.
    ensures unchanged { IfErr result (λ e. (cause : StartError) → e.0 ≡ ChangeFault.Open cause
        → (cause ≡ StartError.Medium → ⊥)
        → Untouched F.shows F.kept F.moment F.left_since folder e.1) }
    ensures nothing { IfErr result (λ e. e.0 ≡ ChangeFault.NoStore
        → Untouched F.shows F.kept F.moment F.left_since folder e.1) }
    // That is told only of a folder that has no journal.
    ensures none { IfErr result (λ e. e.0 ≡ ChangeFault.NoStore
        → F.shows e.1 journal_name None) }
    // `Open` tells what is wrong with the folder.
    ensures refused { IfErr result (λ e. (cause : StartError) → e.0 ≡ ChangeFault.Open cause
        → DeniesFolder F.shows F.kept F.failed e.1 cause) }
    // Whatever lies there but a journal that begins as one of events alone: what is changed is a
    // store that was there. So a folder without a journal, with such a one that is damaged, or
    // without a file of a block that it names, stays as it is.
    ensures safe { TellsFiles F.shows → (x : Option (List ℕ)) → F.shows folder journal_name x
        → may_be_plain x ≡ false → MatchResult result
        (λ y. Changes F.shows F.kept F.moment F.left_since IsJoinedHere folder y.1)
        (λ e. MayChange F.shows F.kept F.moment F.left_since IsJoinedHere folder e.1) }
    // Of a journal of events alone, a crash at any moment of the call leaves it as it was or with a
    // head; or a start finds the world of its events.
    ensures plain { TellsFiles F.shows → (file : List ℕ)
        → HasFile F.shows F.kept journal_name file folder → begins_plain file ≡ true
        → MatchResult result
        (λ y. LeavesOnly F.moment F.left_since folder y.1 (PlainOrFinds file IsJoinedTo))
        (λ e. LeavesOnly F.moment F.left_since folder e.1 (PlainOrFinds file IsJoinedTo)) }
    // Where it does not leave the journal so, no start refuses the head and the blocks that are
    // left.
    ensures plain_starts { TellsFiles F.shows → (file : List ℕ)
        → HasFile F.shows F.kept journal_name file folder → begins_plain file ≡ true
        → MatchResult result
        (λ y. LeavesOnly F.moment F.left_since folder y.1 (PlainOrStarts file))
        (λ e. LeavesOnly F.moment F.left_since folder e.1 (PlainOrStarts file)) }
    // After an `Err` it leaves the journal so, or a start finds the world of its events, unless
    // `Lost` is told.
    ensures plain_stays { TellsFiles F.shows → (file : List ℕ)
        → HasFile F.shows F.kept journal_name file folder → begins_plain file ≡ true
        → IfErr result (λ e. (e.0 ≡ ChangeFault.Roll (RollFault.Folder RollError.Lost) → ⊥)
        → LeavesNow F.moment F.left_since e.1 (PlainOrFinds file IsSame)) }
    // After an `Err` nothing was changed, or that journal stands for events. So where a damaged
    // journal begins as one of events alone, nothing is changed; if the folder failed as the store
    // was opened, all files stay but the journal and one in the making.
    ensures plain_safe { TellsFiles F.shows → (file : List ℕ)
        → F.shows folder journal_name (Some file) → begins_plain file ≡ true
        → IfErr result (λ e. MayChangePlain F.shows F.kept F.moment F.left_since file e.0
        folder e.1) }
    // After `Ok` it finds their world, in the number of blocks that is told.
    ensures plain_finds { TellsFiles F.shows → (file : List ℕ)
        → F.shows folder journal_name (Some file) → begins_plain file ≡ true
        → IfOk result (λ x. (events : List Change) × (w : World) × StandsAlone file events
        × (replayed (beginning Whole).world events ≡ Ok w) × (x.0.before ≡ w.blocks)
        × FindsNow F.moment F.left_since x.1
        (other_of (beginning Whole) (with_blocks x.0.after w))) }
    // What is none of the store's stays.
    ensures foreign { MatchResult result
        (λ x. KeepsForeign F.shows F.kept folder x.1)
        (λ e. KeepsForeign F.shows F.kept folder e.1) }
{
    let mut folder = folder;
    match open_store(rt, alloc, &mut folder) {
        Ok(opened) => match opened {
            Some(store) => join_found(rt, alloc, Found { folder, store }),
            None => Err((ChangeFault::NoStore, folder)),
        },
        Err(error) => Err((ChangeFault::Open(error), folder)),
    }
}

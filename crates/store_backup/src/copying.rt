//! The copy of a store.

ghost use Rattle.std.specs.Prelude.{◌≡◌, ◌⊎◌, ℕ, List, None, Some, IfErr, IfOk, MatchResult, OnOk};
ghost use Rattle.std.specs.Prelude.{false, length, map, true};
ghost use Rattle.data_folder.specs.Folders.{HasFile, Untouched};
ghost use Rattle.data_folder.specs.JournalFile.{journal_name};
ghost use Rattle.head.specs.Blocks.{part_in};
ghost use Rattle.head.specs.Heads.{BlockPart, world_of};
ghost use Rattle.head.specs.Worlds.{Event as Change};
ghost use Rattle.head_record.specs.Saved.{Saved};
ghost use Rattle.store_backup.specs.Copies.{DeniesRead, IsCopied, IsOfTarget, IsTaken, MayBegin};
ghost use Rattle.store_backup.specs.Reading.{DeniesSource, IsOfStart, IsRead, IsSettled};
ghost use Rattle.store_folder.specs.Faults.{TellsFiles};
ghost use Rattle.store_folder.specs.Starting.{DeniesStart};
ghost use Rattle.store_folder.specs.States.{HasWorld};
ghost use Rattle.store_folder.specs.Sweeps.{ListsNumber};
ghost use Rattle.store_joiner.specs.Stores.{HasBlocks};

use crate::begun::begin_with;
use crate::error::CopyFault;
use crate::settled::read_settled;
use block::Block;
use data_folder::{Folder, JOURNAL};
use head::{Snapshot, replay};
use std::alloc::Global;
use std::thread::Threads;
use store_folder::{FoundJournal, FoundStore, StartError, has_blocks};

/// What was copied.
#[derive(Clone, Copy, Drop)]
pub struct Copied {
    /// How many events the source's journal had. The copy has what they made.
    pub events: usize,
    /// How many blocks the copy has.
    pub blocks: usize,
}

/// What the events of a journal make of its head and blocks.
fn snapshot_of(
    alloc: Global,
    journal: &FoundJournal,
    blocks: Vec<Block>,
) -> Result<Snapshot, StartError>
    ensures world { IfOk result (λ s. HasWorld journal.now.head (map part_in blocks.items)
        journal.now.events.items (world_of s)) }
    ensures refused { IfErr result (DeniesStart journal.now.head (map part_in blocks.items)
        journal.now.events.items) }
{
    let head = &journal.head;
    match Snapshot::resumed(alloc, blocks, head.floor(), head.series()) {
        Ok(snapshot) => match replay(alloc, snapshot, &journal.events) {
            Ok(snapshot) => Ok(snapshot),
            Err(refused) => Err(StartError::Event(refused)),
        },
        Err(error) => Err(StartError::Head(error)),
    }
}

/// Copies a store that was read into a folder without a journal.
fn copy_found<G: Folder + Drop>(
    alloc: Global,
    store: FoundStore,
    target: G,
) -> Result<(Copied, G), (CopyFault, G)>
    requires sound { G.sound target ≡ true }
    requires none { G.shows target journal_name None × G.kept target journal_name 0 }
    ensures copied { IfOk result (λ x. IsCopied G.shows G.kept G.moment G.left_since
        store.journal.head (map part_in store.blocks.items) store.journal.events.items
        x.0 target x.1) }
    ensures begins { IfErr result (λ e. MayBegin G.shows G.kept G.moment G.left_since
        store.journal.head (map part_in store.blocks.items) store.journal.events.items
        target e.1) }
    ensures refused { IfErr result (λ e. IsOfTarget e.0 ⊎ ((cause : StartError)
        × (e.0 ≡ CopyFault.Source cause) × DeniesStart store.journal.head
        (map part_in store.blocks.items) store.journal.events.items cause)) }
{
    let FoundStore { journal, blocks } = store;
    let snapshot = match snapshot_of(alloc, &journal, blocks) {
        Ok(snapshot) => snapshot,
        Err(error) => return Err((CopyFault::Source(error), target)),
    };
    let copied = Copied {
        events: journal.events.len(),
        blocks: snapshot.blocks().len(),
    };
    match begin_with(alloc, target, &snapshot, journal.head.values()) {
        Ok(begun) => Ok((copied, begun)),
        Err(failed) => Err(failed),
    }
}

/// Reads the store of the source, and copies it into a folder without a journal.
fn copy_into<R: Threads + Sync, F: Folder, G: Folder + Drop>(
    rt: &R,
    alloc: Global,
    source: &mut F,
    again: &mut F,
    target: G,
) -> Result<(Copied, G), (CopyFault, G)>
    requires source { F.sound source.old ≡ true }
    requires again { F.sound again.old ≡ true }
    requires sound { G.sound target ≡ true }
    requires none { G.shows target journal_name None × G.kept target journal_name 0 }
    ensures untouched { Untouched F.shows F.kept F.moment F.left_since
        source.old source.new }
    ensures looked { Untouched F.shows F.kept F.moment F.left_since again.old again.new }
    ensures copied { IfOk result (λ x. (saved : Saved) × (parts : List BlockPart)
        × (events : List Change)
        × IsRead F.shows F.kept saved parts events source.old source.new
        × IsCopied G.shows G.kept G.moment G.left_since saved parts events
        x.0 target x.1) }
    ensures settled { OnOk result (IsSettled F.shows F.kept source.new again.new) }
    ensures begins { IfErr result (λ e.
        Untouched G.shows G.kept G.moment G.left_since target e.1
        ⊎ ((saved : Saved) × (parts : List BlockPart) × (events : List Change)
        × IsRead F.shows F.kept saved parts events source.old source.new
        × MayBegin G.shows G.kept G.moment G.left_since saved parts events
        target e.1)) }
    ensures changed { IfErr result (λ e. e.0 ≡ CopyFault.Changed → (G.sound e.1 ≡ true)
        × Untouched G.shows G.kept G.moment G.left_since target e.1) }
    ensures refused { IfErr result (λ e. IsOfTarget e.0
        ⊎ (DeniesSource F.shows F.kept F.failed source.new again.new e.0
        ⊎ DeniesRead F.shows F.kept source.old source.new e.0)) }
    ensures told { IfErr result (λ e. IsOfStart e.0) }
{
    match read_settled(rt, alloc, source, again) {
        Ok(store) => copy_found(alloc, store, target),
        Err(fault) => Err((fault, target)),
    }
}

/// That a folder has no blocks. All files stay.
fn check_blocks<G: Folder>(alloc: Global, target: &mut G) -> Result<(), CopyFault>
    requires { G.sound target.old ≡ true }
    ensures sound { OnOk result (G.sound target.new ≡ true) }
    ensures empty { OnOk result (ListsNumber G.lists target.new false) }
    ensures listed { IfErr result (λ e. e ≡ CopyFault.Blocks
        → ListsNumber G.lists target.new true) }
    ensures refused { IfErr result (λ e. (e ≡ CopyFault.Blocks) ⊎ (e ≡ CopyFault.Target)) }
    ensures untouched { Untouched G.shows G.kept G.moment G.left_since
        target.old target.new }
{
    match has_blocks(alloc, target) {
        Ok(false) => Ok(()),
        Ok(true) => Err(CopyFault::Blocks),
        Err(_) => Err(CopyFault::Target),
    }
}

/// That a folder has neither a journal nor blocks. All files stay.
fn check_target<G: Folder>(alloc: Global, target: &mut G) -> Result<(), CopyFault>
    requires { G.sound target.old ≡ true }
    ensures sound { OnOk result (G.sound target.new ≡ true) }
    ensures none { OnOk result (G.shows target.new journal_name None
        × G.kept target.new journal_name 0) }
    ensures empty { OnOk result (ListsNumber G.lists target.new false) }
    ensures taken { IfErr result (λ e. e ≡ CopyFault.Taken
        → (file : List ℕ) × HasFile G.shows G.kept journal_name file target.new) }
    ensures listed { IfErr result (λ e. e ≡ CopyFault.Blocks
        → G.shows target.new journal_name None × ListsNumber G.lists target.new true) }
    ensures refused { IfErr result (λ e. IsTaken e ⊎ IsOfTarget e) }
    ensures untouched { Untouched G.shows G.kept G.moment G.left_since
        target.old target.new }
{
    match target.read(alloc, JOURNAL) {
        Ok(None) => check_blocks(alloc, target),
        Ok(Some(_)) => Err(CopyFault::Taken),
        Err(_) => Err(CopyFault::Target),
    }
}

/// Copies the store of a folder into another one, which must have neither a journal nor blocks: who
/// has lost a journal shall not lose the blocks as well. `source` and `again` are two views of the
/// folder that is copied: by the one its store is read, by the other its journal once more. Nothing
/// is changed there. How many events and blocks the copy has, and the target, which an `Err` gives
/// back too.
///
/// It takes memory for the store, as a start does, and for the file of its journal once more.
pub fn copy_store<R: Threads + Sync, F: Folder, G: Folder + Drop>(
    rt: &R,
    alloc: Global,
    source: &mut F,
    again: &mut F,
    target: G,
) -> Result<(Copied, G), (CopyFault, G)>
    requires source { F.sound source.old ≡ true }
    requires again { F.sound again.old ≡ true }
    requires target { G.sound target ≡ true }
    ensures untouched { Untouched F.shows F.kept F.moment F.left_since
        source.old source.new }
    ensures looked { Untouched F.shows F.kept F.moment F.left_since again.old again.new }
    // After `Ok` a store was read, the one that lay there, if the source tells what its files have.
    // Its events are accepted, and a start of the target finds their world; the blocks lie in
    // folders of the numbers from 1 on, and the `meta.json` of each says what the values mean.
    ensures copied { IfOk result (λ x. (saved : Saved) × (parts : List BlockPart)
        × (events : List Change)
        × IsRead F.shows F.kept saved parts events source.old source.new
        × IsCopied G.shows G.kept G.moment G.left_since saved parts events
        x.0 target x.1) }
    // The journal that was read last begins with the one that was read first.
    ensures settled { OnOk result (IsSettled F.shows F.kept source.new again.new) }
    // After an `Err` nothing was changed in the target, or the copy was to be begun.
    ensures begins { IfErr result (λ e.
        Untouched G.shows G.kept G.moment G.left_since target e.1
        ⊎ ((saved : Saved) × (parts : List BlockPart) × (events : List Change)
        × IsRead F.shows F.kept saved parts events source.old source.new
        × MayBegin G.shows G.kept G.moment G.left_since saved parts events
        target e.1)) }
    // A target that has a journal is left as it is.
    ensures taken { IfErr result (λ e. e.0 ≡ CopyFault.Taken
        → (file : List ℕ) × HasFile G.shows G.kept journal_name file e.1
        × Untouched G.shows G.kept G.moment G.left_since target e.1) }
    ensures safe { TellsFiles G.shows → (file : List ℕ)
        → G.shows target journal_name (Some file) → MatchResult result (λ x. ⊥)
        (λ e. Untouched G.shows G.kept G.moment G.left_since target e.1) }
    // Nor is anything changed in one without a journal where a block lies.
    ensures listed { IfErr result (λ e. e.0 ≡ CopyFault.Blocks
        → G.shows e.1 journal_name None × ListsNumber G.lists e.1 true
        × Untouched G.shows G.kept G.moment G.left_since target e.1) }
    ensures blocks { TellsFiles G.shows → G.shows target journal_name None
        → HasBlocks G.shows G.lists G.kept G.moment G.left_since target
        → MatchResult result (λ x. ⊥)
        (λ e. Untouched G.shows G.kept G.moment G.left_since target e.1) }
    // Where the source has changed, the target may be asked again.
    ensures changed { IfErr result (λ e. e.0 ≡ CopyFault.Changed → (G.sound e.1 ≡ true)
        × Untouched G.shows G.kept G.moment G.left_since target e.1) }
    // What is refused is what a start refuses, or it has changed meanwhile.
    ensures refused { IfErr result (λ e. IsTaken e.0 ⊎ (IsOfTarget e.0
        ⊎ (DeniesSource F.shows F.kept F.failed source.new again.new e.0
        ⊎ DeniesRead F.shows F.kept source.old source.new e.0))) }
    // A refusal of the source comes of something that is wrong with a store.
    ensures told { IfErr result (λ e. IsOfStart e.0) }
{
    let mut target = target;
    match check_target(alloc, &mut target) {
        Ok(()) => copy_into(rt, alloc, source, again, target),
        Err(fault) => Err((fault, target)),
    }
}

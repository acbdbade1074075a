//! What a folder has of a store.

ghost use Rattle.std.specs.Prelude.{◌≡◌, ◌⊎◌, ℕ, List, [], Option, None, Some, Ok, IfOk, IfErr};
ghost use Rattle.std.specs.Prelude.{IfSome, OnOk};
ghost use Rattle.std.specs.Prelude.{false, map, true};
ghost use Rattle.data_folder.specs.Folders.{HasFile, KeepsOthers, LeavesOnly, Untouched};
ghost use Rattle.data_folder.specs.JournalFile.{journal_name, next_name};
ghost use Rattle.head.specs.Blocks.{part_in};
ghost use Rattle.head.specs.Heads.{BlockPart};
ghost use Rattle.head.specs.Worlds.{Event as Change};
ghost use Rattle.head_record.specs.Saved.{Saved};
ghost use Rattle.store_folder.specs.Codes.{cause_of};
ghost use Rattle.store_folder.specs.Faults.{DeniesStore, GivesFound, GivesStore, TellsFiles};
ghost use Rattle.store_folder.specs.Finding.{IsFoundStore};
ghost use Rattle.store_folder.specs.Holding.{AreAt};
ghost use Rattle.store_folder.specs.Journals.{IsFoundJournal, IsJournalOf};
ghost use Rattle.store_folder.specs.Plain.{AreAdmitted, DeniesFolder, DeniesText, HasEither};
ghost use Rattle.store_folder.specs.Plain.{StandsAlone};
ghost use Rattle.store_folder.specs.Plain.{begins_plain, may_be_plain};
ghost use Rattle.store_folder.specs.Refusals.{IsRefusal};
ghost use Rattle.store_folder.specs.Starting.{nothing_saved};
ghost use Rattle.store_folder.specs.declared.error.StartCause.TheVariants.{Refused};

use crate::blocks::read_blocks;
use crate::error::StartError;
use crate::headless::{adopt, begins_plain};
use crate::journals::{FoundJournal, read_journal};
use block::Block;
use data_folder::{Folder, JOURNAL};
use std::alloc::Global;
use std::thread::Threads;

/// A store that lies in a folder, not yet replayed.
#[derive(Drop)]
pub struct FoundStore {
    /// Its journal.
    pub journal: FoundJournal,
    /// The blocks that the journal's head names, in their order.
    pub blocks: Vec<Block>,
}

fn with_blocks<R: Threads + Sync, F: Folder>(
    rt: &R,
    alloc: Global,
    folder: &mut F,
    journal: FoundJournal,
    file: &[u8],
) -> Result<FoundStore, StartError>
    requires sound { F.sound folder.old ≡ true }
    requires has { HasFile F.shows F.kept journal_name file.now folder.old }
    requires journal { IsFoundJournal file.now journal }
    ensures found { IfOk result (λ s.
        IsFoundStore F.shows F.kept s.journal (map part_in s.blocks.items) folder.new) }
    ensures sound { OnOk result (F.sound folder.new ≡ true) }
    ensures untouched { Untouched F.shows F.kept F.moment F.left_since
        folder.old folder.new }
    ensures only { TellsFiles F.shows → (parts : List BlockPart)
        → AreAt F.shows F.kept journal.head.places parts folder.old
        → GivesFound (F.failed folder.new) journal.head parts journal.events.items result }
    ensures refused { IfErr result (λ e. DeniesStore F.shows F.kept F.failed folder.new e) }
{
    match read_blocks(rt, alloc, folder, journal.head.places()) {
        Ok(blocks) => Ok(FoundStore { journal, blocks }),
        Err(fault) => Err(StartError::Block(fault)),
    }
}

fn with_file<R: Threads + Sync, F: Folder>(
    rt: &R,
    alloc: Global,
    folder: &mut F,
    file: &[u8],
) -> Result<FoundStore, StartError>
    requires sound { F.sound folder.old ≡ true }
    requires has { HasFile F.shows F.kept journal_name file.now folder.old }
    ensures found { IfOk result (λ s.
        IsFoundStore F.shows F.kept s.journal (map part_in s.blocks.items) folder.new) }
    ensures sound { OnOk result (F.sound folder.new ≡ true) }
    ensures untouched { Untouched F.shows F.kept F.moment F.left_since
        folder.old folder.new }
    ensures only { TellsFiles F.shows → (saved : Saved) (parts : List BlockPart)
        (events : List Change) → IsJournalOf file.now saved events
        → AreAt F.shows F.kept saved.places parts folder.old
        → GivesFound (F.failed folder.new) saved parts events result }
    ensures refused { IfErr result (λ e. DeniesStore F.shows F.kept F.failed folder.new e) }
{
    match read_journal(alloc, file) {
        Ok(journal) => with_blocks(rt, alloc, folder, journal, file),
        Err(error) => Err(StartError::Journal(error)),
    }
}

fn with_found<R: Threads + Sync, F: Folder>(
    rt: &R,
    alloc: Global,
    folder: &mut F,
    file: Vec<u8>,
) -> Result<Option<FoundStore>, StartError>
    requires sound { F.sound folder.old ≡ true }
    requires has { HasFile F.shows F.kept journal_name file.items folder.old }
    ensures found { IfOk result (λ found. IfSome found (λ s.
        IsFoundStore F.shows F.kept s.journal (map part_in s.blocks.items) folder.new)) }
    ensures some { result ≡ Ok None → ⊥ }
    ensures sound { OnOk result (F.sound folder.new ≡ true) }
    ensures untouched { Untouched F.shows F.kept F.moment F.left_since
        folder.old folder.new }
    ensures only { TellsFiles F.shows → (saved : Saved) (parts : List BlockPart)
        (events : List Change) → IsJournalOf file.items saved events
        → AreAt F.shows F.kept saved.places parts folder.old
        → GivesStore (F.failed folder.new) saved parts events result }
    ensures refused { IfErr result (λ e. DeniesStore F.shows F.kept F.failed folder.new e) }
{
    match with_file(rt, alloc, folder, &file) {
        Ok(store) => Ok(Some(store)),
        Err(error) => Err(error),
    }
}

/// The store that a folder has, or `None` if it has no journal. Nothing in the folder is changed;
/// the files are synced before they are read, so a crash leaves them.
pub fn read_store<R: Threads + Sync, F: Folder>(
    rt: &R,
    alloc: Global,
    folder: &mut F,
) -> Result<Option<FoundStore>, StartError>
    requires { F.sound folder.old ≡ true }
    // What is read lies there for good: a journal, and each block that its head names.
    ensures found { IfOk result (λ found. IfSome found (λ s.
        IsFoundStore F.shows F.kept s.journal (map part_in s.blocks.items) folder.new)) }
    ensures none { result ≡ Ok None
        → F.shows folder.new journal_name None × F.kept folder.new journal_name 0 }
    ensures sound { OnOk result (F.sound folder.new ≡ true) }
    ensures untouched { Untouched F.shows F.kept F.moment F.left_since
        folder.old folder.new }
    // Of a folder that tells what its files have, a store that lies there is given, unless memory
    // runs out, reading fails or a matcher of a deletion is refused.
    ensures only { TellsFiles F.shows → (file : List ℕ) (saved : Saved) (parts : List BlockPart)
        (events : List Change) → HasFile F.shows F.kept journal_name file folder.old
        → IsJournalOf file saved events → AreAt F.shows F.kept saved.places parts folder.old
        → GivesStore (F.failed folder.new) saved parts events result }
    // A refusal tells which check failed first.
    ensures refused { IfErr result (λ e. DeniesStore F.shows F.kept F.failed folder.new e) }
{
    match folder.read(alloc, JOURNAL) {
        Ok(found) => match found {
            Some(file) => with_found(rt, alloc, folder, file),
            None => Ok(None),
        },
        Err(_) => Err(StartError::Medium),
    }
}

/// The store of a folder whose journal has this file.
fn open_file<R: Threads + Sync, F: Folder>(
    rt: &R,
    alloc: Global,
    folder: &mut F,
    file: &[u8],
) -> Result<FoundStore, StartError>
    requires sound { F.sound folder.old ≡ true }
    requires has { HasFile F.shows F.kept journal_name file.now folder.old }
    ensures found { IfOk result (λ s.
        IsFoundStore F.shows F.kept s.journal (map part_in s.blocks.items) folder.new) }
    ensures plain { IfOk result (λ s. begins_plain file.now ≡ true
        → StandsAlone file.now s.journal.events.items × (s.journal.head ≡ nothing_saved)) }
    ensures admitted { IfOk result (λ s. begins_plain file.now ≡ true
        → AreAdmitted s.journal.events.items) }
    ensures sound { OnOk result (F.sound folder.new ≡ true) }
    ensures only { TellsFiles F.shows → (saved : Saved) (parts : List BlockPart)
        (events : List Change) → begins_plain file.now ≡ false
        → IsJournalOf file.now saved events
        → AreAt F.shows F.kept saved.places parts folder.old
        → GivesFound (F.failed folder.new) saved parts events result }
    ensures refused { IfErr result (λ e. DeniesFolder F.shows F.kept F.failed folder.new e) }
    ensures plain_refused { begins_plain file.now ≡ true → IfErr result (λ e.
        ((e ≡ StartError.Medium) × (F.failed folder.new ≡ true)) ⊎ DeniesText file.now e) }
    ensures unchanged { IfErr result (λ e. (e ≡ StartError.Medium → ⊥)
        → Untouched F.shows F.kept F.moment F.left_since folder.old folder.new) }
    ensures whole { begins_plain file.now ≡ false
        → Untouched F.shows F.kept F.moment F.left_since folder.old folder.new }
    ensures any_moment { LeavesOnly F.moment F.left_since folder.old folder.new
        (HasEither file.now) }
    ensures others { KeepsOthers F.shows F.kept next_name journal_name folder.old folder.new }
{
    if begins_plain(file) {
        adopt(alloc, folder, file)
    } else {
        with_file(rt, alloc, folder, file)
    }
}

/// The store that a folder has, as [`read_store`] gives it. A journal of events alone, as it was
/// before a journal had a head, is first given the head of a store that has nothing, if it is not
/// refused; else nothing in the folder is changed.
pub fn open_store<R: Threads + Sync, F: Folder>(
    rt: &R,
    alloc: Global,
    folder: &mut F,
) -> Result<Option<FoundStore>, StartError>
    requires { F.sound folder.old ≡ true }
    // What is read lies there for good: a journal, and each block that its head names.
    ensures found { IfOk result (λ found. IfSome found (λ s.
        IsFoundStore F.shows F.kept s.journal (map part_in s.blocks.items) folder.new)) }
    ensures none { result ≡ Ok None
        → F.shows folder.new journal_name None × F.kept folder.new journal_name 0 }
    ensures sound { OnOk result (F.sound folder.new ≡ true) }
    // Of a folder that tells what its files have, a store that lies there is given, unless memory
    // runs out, reading fails or a matcher of a deletion is refused.
    ensures only { TellsFiles F.shows → (file : List ℕ) (saved : Saved) (parts : List BlockPart)
        (events : List Change) → HasFile F.shows F.kept journal_name file folder.old
        → begins_plain file ≡ false → IsJournalOf file saved events
        → AreAt F.shows F.kept saved.places parts folder.old
        → GivesStore (F.failed folder.new) saved parts events result }
    // Of a journal of events alone, the events are those of the file as it was.
    ensures plain { TellsFiles F.shows → (file : List ℕ)
        → F.shows folder.old journal_name (Some file) → begins_plain file ≡ true
        → IfOk result (λ found. IfSome found (λ s.
        StandsAlone file s.journal.events.items × (s.journal.head ≡ nothing_saved))) }
    // A store that has nothing accepts them.
    ensures admitted { TellsFiles F.shows → (file : List ℕ)
        → F.shows folder.old journal_name (Some file) → begins_plain file ≡ true
        → IfOk result (λ found. IfSome found (λ s. AreAdmitted s.journal.events.items)) }
    // A refusal tells which check failed first; also where clauses tell nothing of the folder, what
    // is refused is some folder that has to be.
    ensures refused { IfErr result (λ e. DeniesFolder F.shows F.kept F.failed folder.new e) }
    ensures told { IfErr result (λ e. cause_of e ≡ Refused → IsRefusal e) }
    // A journal of events alone is refused for nothing but what is wrong with it as one.
    ensures plain_refused { TellsFiles F.shows → (file : List ℕ)
        → F.shows folder.old journal_name (Some file) → begins_plain file ≡ true
        → IfErr result (λ e. ((e ≡ StartError.Medium) × (F.failed folder.new ≡ true))
        ⊎ DeniesText file e) }
    // Where it is refused, nothing is changed; nor where no journal is found.
    ensures unchanged { IfErr result (λ e. (e ≡ StartError.Medium → ⊥)
        → Untouched F.shows F.kept F.moment F.left_since folder.old folder.new) }
    ensures nothing { result ≡ Ok None
        → Untouched F.shows F.kept F.moment F.left_since folder.old folder.new }
    // Whatever is answered, a journal that is not one of events alone stays, and all else.
    ensures whole { TellsFiles F.shows → (x : Option (List ℕ)) → F.shows folder.old journal_name x
        → may_be_plain x ≡ false
        → Untouched F.shows F.kept F.moment F.left_since folder.old folder.new }
    // A crash at any moment of the call leaves the journal as it was, or one of events alone with
    // the head of a store that has nothing.
    ensures any_moment { TellsFiles F.shows → (file : List ℕ)
        → HasFile F.shows F.kept journal_name file folder.old
        → LeavesOnly F.moment F.left_since folder.old folder.new (HasEither file) }
    // All other files stay, but for that of a journal in the making.
    ensures others { KeepsOthers F.shows F.kept next_name journal_name folder.old folder.new }
{
    match folder.read(alloc, JOURNAL) {
        Ok(found) => match found {
            Some(file) => match open_file(rt, alloc, folder, &file) {
                Ok(store) => Ok(Some(store)),
                Err(error) => Err(error),
            },
            None => Ok(None),
        },
        Err(_) => Err(StartError::Medium),
    }
}

//! A store that saves its snapshot in the place of the events that made it.

ghost use Rattle.std.specs.Prelude.{◌≡◌, ◌≤◌, ◌⊎◌, ℕ, List, Ok, [], false, true, length, map};
ghost use Rattle.std.specs.Prelude.{Bool, Err, IfErr, IfOk, OnErr, OnOk, Option};
ghost use Rattle.data_folder.specs.Folders.{LeavesOnly};
ghost use Rattle.data_folder.specs.Sweeping.{KeepsForeign};
ghost use Rattle.event_journal.specs.Holding.{contents_with};
ghost use Rattle.head.specs.Blocks.{part_in};
ghost use Rattle.head.specs.Heads.{BlockPart, world_of};
ghost use Rattle.head.specs.Resuming.{MayStand};
ghost use Rattle.head.specs.Worlds.{Event as Change, replayed};
ghost use Rattle.head_record.specs.Saved.{Place, save};
ghost use Rattle.head_record.specs.Spelling.{head_texts};
ghost use Rattle.journal.specs.Records.{file_of};
ghost use Rattle.store_folder.specs.Causes.{IsRollCause};
ghost use Rattle.store_folder.specs.Holding.{HoldsLike, HoldsOrLost, HoldsOrLostBetween};
ghost use Rattle.store_folder.specs.Rolls.{HasHeadAlone};
ghost use Rattle.store_folder.specs.Saving.{AreBelow, AreFound, IsAbove, IsFoundFrom, IsOldOrSaved};
ghost use Rattle.store_folder.specs.Starting.{StartFinds, StartFindsEither};
ghost use Rattle.store_folder.specs.States.{started};
ghost use Rattle.store_folder.specs.Writing.{AreLike, EachSays, places_from, places_with, unfound};

use crate::error::{RollFault, WriteFault};
use crate::keeping::StoreKeeper;
use crate::store_journal::Beginning;
use block::Block;
use block_rewriter::RewriteError;
use data_folder::{ApartError, Folder, RollError};
use head::Snapshot;
use head_record::BlockPlace;
use journal::JournalError;
use keeper::KeepError;
use std::alloc::{AllocError, Global};

/// The least number from 1 on that is above those of the folders of these places; the greatest
/// number if none is.
pub fn next_number(places: &[BlockPlace]) -> u64
    ensures some { 1 ≤ result }
    ensures above { IsAbove result places.now }
    ensures least { (n : ℕ) → 1 ≤ n → AreBelow n places.now → result ≤ n }
{
    let mut next = 1u64;
    for place in places {
        next = next.max(place.folder().saturating_add(1));
    }
    next
}

/// The same blocks. They share their files.
pub(crate) fn share_blocks(alloc: Global, blocks: &[Block]) -> Result<Vec<Block>, AllocError>
    ensures { IfOk result (λ shares. map part_in shares.items ≡ map part_in blocks.now) }
{
    let mut shares = Vec::new(alloc);
    for block in blocks {
        shares.push(block.share(alloc)?)?;
    }
    Ok(shares)
}

/// The place of the first of the other blocks, from this index on, that is the same as a block, and
/// the index behind it; else none, and this index.
fn same_from(
    block: &Block,
    others: &[Block],
    places: &[BlockPlace],
    from: usize,
) -> (Option<BlockPlace>, usize)
    ensures { IsFoundFrom places.now others.now block.now from result.0 result.1 }
{
    for at in from..others.len().min(places.len()) {
        if block.is_same(&others[at]) {
            return (Some(places[at]), at + 1);
        }
    }
    (None, from)
}

/// The places of the blocks that are the same as others, which lie at these places. The others are
/// looked through in their order, and none is found twice.
fn find_places(
    alloc: Global,
    blocks: &[Block],
    others: &[Block],
    places: &[BlockPlace],
) -> Result<Vec<Option<BlockPlace>>, AllocError>
    ensures count { IfOk result (λ found. length found.items ≡ length blocks.now) }
    ensures found { IfOk result (λ found. AreFound (λ block part. block ≡ part) places.now
        (map part_in others.now) found.items (map part_in blocks.now)) }
{
    let mut found = Vec::new(alloc);
    let mut from = 0;
    for block in blocks {
        let (place, next) = same_from(block, others, places, from);
        found.push(place)?;
        from = next;
    }
    Ok(found)
}

/// Why nothing is kept, if a journal is not begun anew for this cause.
pub(crate) fn kept_error(fault: RollFault) -> KeepError {
    match fault {
        RollFault::Memory
        | RollFault::Text(JournalError::Memory)
        | RollFault::Block(WriteFault::Memory) => KeepError::Memory,
        RollFault::Text(_) => KeepError::TooLong,
        RollFault::Folder(RollError::Lost | RollError::Closed) => KeepError::Closed,
        RollFault::Folder(RollError::NotWritten) | RollFault::Block(_) => KeepError::Failed,
    }
}

/// Why no events more are kept, if what all of them make is not saved for this cause. A journal
/// that was lost could not be written.
pub(crate) fn save_error(fault: RollFault) -> KeepError
    ensures closed { (closed failed : Bool) → IsRollCause closed failed fault
        → result ≡ KeepError.Closed → closed ≡ true }
    ensures failed { (closed failed : Bool) → IsRollCause closed failed fault
        → result ≡ KeepError.Failed → failed ≡ true }
    ensures told { fault ≡ RollFault.Folder RollError.Closed → result ≡ KeepError.Closed }
{
    match fault {
        RollFault::Memory
        | RollFault::Text(JournalError::Memory)
        | RollFault::Block(
            WriteFault::Memory
            | WriteFault::File(ApartError::Memory)
            | WriteFault::Block(RewriteError::Memory),
        ) => KeepError::Memory,
        RollFault::Folder(RollError::Closed) => KeepError::Closed,
        RollFault::Folder(RollError::NotWritten | RollError::Lost)
        | RollFault::Block(WriteFault::Medium | WriteFault::File(ApartError::Medium)) => {
            KeepError::Failed
        }
        RollFault::Text(_) | RollFault::Block(_) => KeepError::TooLong,
    }
}

impl<N: Beginning, F: Folder + Drop> StoreKeeper<N, F> {
    /// Saves the snapshot: the files of its blocks are written, but for those blocks that are the
    /// same as ones that lie there, and the journal is begun anew with a head that names them and
    /// has what the head of the snapshot has. Then what the blocks before left behind is removed.
    /// How many blocks the head names.
    ///
    /// The snapshot is one of the world of the events that are held, or of any others, which are
    /// kept by that in their place.
    ///
    /// Where it fails the journal goes on, unless the fault is `Folder(Lost)`: then it is closed.
    pub fn roll(&mut self, alloc: Global, snapshot: &Snapshot) -> Result<usize, RollFault>
        requires { (events after : List Change)
            × HoldsOrLost F.shows F.kept F.sound F.moment F.left_since N.first
            self.old.store.events.journal.medium self.old.store.events.journal.len
            self.old.store.events.journal.closed events self.old.places.items
            (map part_in self.old.blocks.items)
            × (replayed N.first.world after ≡ Ok (world_of snapshot.now)) }
        // After `Ok` the events of the snapshot's world are held.
        ensures saved { OnOk result ((events after : List Change)
            → HoldsOrLost F.shows F.kept F.sound F.moment F.left_since N.first
            self.old.store.events.journal.medium self.old.store.events.journal.len
            self.old.store.events.journal.closed events self.old.places.items
            (map part_in self.old.blocks.items)
            → replayed N.first.world after ≡ Ok (world_of snapshot.now)
            → HoldsLike F.shows F.kept F.sound F.moment F.left_since N.first
            self.new.store.events.journal.medium self.new.store.events.journal.len
            self.new.store.events.journal.closed after self.new.places.items
            (map part_in self.new.blocks.items)) }
        // Where it fails the events before are held, or the journal is lost on the way from them to
        // those.
        ensures unsaved { OnErr result ((events after : List Change)
            → HoldsOrLost F.shows F.kept F.sound F.moment F.left_since N.first
            self.old.store.events.journal.medium self.old.store.events.journal.len
            self.old.store.events.journal.closed events self.old.places.items
            (map part_in self.old.blocks.items)
            → replayed N.first.world after ≡ Ok (world_of snapshot.now)
            → HoldsOrLostBetween F.shows F.kept F.sound F.moment F.left_since N.first
            self.new.store.events.journal.medium self.new.store.events.journal.len
            self.new.store.events.journal.closed events after self.new.places.items
            (map part_in self.new.blocks.items)) }
        // If these are the same events, they are held whatever the answer.
        ensures held { (events : List Change)
            → HoldsOrLost F.shows F.kept F.sound F.moment F.left_since N.first
            self.old.store.events.journal.medium self.old.store.events.journal.len
            self.old.store.events.journal.closed events self.old.places.items
            (map part_in self.old.blocks.items)
            → replayed N.first.world events ≡ Ok (world_of snapshot.now)
            → HoldsOrLost F.shows F.kept F.sound F.moment F.left_since N.first
            self.new.store.events.journal.medium self.new.store.events.journal.len
            self.new.store.events.journal.closed events self.new.places.items
            (map part_in self.new.blocks.items) }
        // It takes more events, unless it was lost.
        ensures open { OnOk result (self.new.store.events.journal.closed ≡ false) }
        ensures goes_on { IfErr result (λ e. (e ≡ RollFault.Folder RollError.Lost → ⊥)
            → self.old.store.events.journal.closed ≡ false
            → self.new.store.events.journal.closed ≡ false) }
        ensures lost { self.new.store.events.journal.closed ≡ true
            → (self.old.store.events.journal.closed ≡ true)
            ⊎ (F.failed self.new.store.events.journal.medium.folder ≡ true) }
        // After `Ok` the journal has what is saved of the snapshot, and nothing more.
        ensures len { OnOk result (self.new.store.events.journal.len ≡ length (file_of
            (contents_with (head_texts (save N.first.values snapshot.now self.new.places.items))
            []))) }
        ensures file { OnOk result (HasHeadAlone F.shows F.kept
            (save N.first.values snapshot.now self.new.places.items)
            self.new.store.events.journal.medium.folder) }
        // A start makes a snapshot of it and of blocks like these.
        ensures stands { OnOk result ((made : List BlockPart) → AreLike snapshot.now.blocks made
            → MayStand (started (save N.first.values snapshot.now self.new.places.items) made)) }
        // It then has the snapshot's blocks in memory.
        ensures blocks { OnOk result (map part_in self.new.blocks.items ≡ snapshot.now.blocks) }
        ensures counted { IfOk result (λ count. count ≡ length snapshot.now.blocks) }
        // After a crash at any moment of the call, a start finds the world of the events before, or
        // that of the snapshot; and if these are the same events, then exactly theirs.
        ensures finds { (events after : List Change)
            → HoldsOrLost F.shows F.kept F.sound F.moment F.left_since N.first
            self.old.store.events.journal.medium self.old.store.events.journal.len
            self.old.store.events.journal.closed events self.old.places.items
            (map part_in self.old.blocks.items)
            → replayed N.first.world after ≡ Ok (world_of snapshot.now)
            → self.old.store.events.journal.closed ≡ false
            → StartFindsEither F.moment F.left_since self.old.store.events.journal.medium.folder
            self.new.store.events.journal.medium.folder N.first events after }
        ensures any_moment { (events : List Change)
            → HoldsOrLost F.shows F.kept F.sound F.moment F.left_since N.first
            self.old.store.events.journal.medium self.old.store.events.journal.len
            self.old.store.events.journal.closed events self.old.places.items
            (map part_in self.old.blocks.items)
            → replayed N.first.world events ≡ Ok (world_of snapshot.now)
            → self.old.store.events.journal.closed ≡ false
            → StartFinds F.moment F.left_since self.old.store.events.journal.medium.folder
            self.new.store.events.journal.medium.folder N.first events }
        // Such a crash leaves the store as it was, or what is saved of the snapshot, and no events.
        ensures leaves { (events after : List Change)
            → (h : HoldsLike F.shows F.kept F.sound F.moment F.left_since N.first
            self.old.store.events.journal.medium self.old.store.events.journal.len
            self.old.store.events.journal.closed events self.old.places.items
            (map part_in self.old.blocks.items))
            → replayed N.first.world after ≡ Ok (world_of snapshot.now)
            → self.old.store.events.journal.closed ≡ false
            → LeavesOnly F.moment F.left_since self.old.store.events.journal.medium.folder
            self.new.store.events.journal.medium.folder
            (IsOldOrSaved h.0.saved h.0.parts h.0.late N.first.values snapshot.now) }
        ensures closed { self.old.store.events.journal.closed ≡ true
            → (result ≡ Err (RollFault.Folder RollError.Closed)) × (self.new ≡ self.old) }
        // The fault tells that it was closed, or that the folder failed, where it is so.
        ensures cause { IfErr result (λ e. IsRollCause self.old.store.events.journal.closed
            (F.failed self.new.store.events.journal.medium.folder) e) }
        ensures terms { self.new.terms.most ≡ self.old.terms.most }
        // They note how many bytes the journal has, or had where it fails, and the blocks.
        ensures noted { OnOk result (self.new.terms ≡ record {
          most = self.old.terms.most;
          len = self.new.store.events.journal.len;
          blocks = length snapshot.now.blocks;
        }) }
        ensures tried { OnErr result (self.old.store.events.journal.closed ≡ false
            → self.new.terms ≡ record {
              most = self.old.terms.most;
              len = self.old.store.events.journal.len;
              blocks = length snapshot.now.blocks;
            }) }
        // A block that is found among those before keeps its place, wherever it stands. What is
        // written lies in folders of the least numbers that are above those before, and its
        // `meta.json` says what the values mean.
        ensures numbers { OnOk result ((found : List (Option Place)) × (next : ℕ) × (1 ≤ next)
            × IsAbove next self.old.places.items
            × ((n : ℕ) → 1 ≤ n → AreBelow n self.old.places.items → next ≤ n)
            × AreFound (λ block part. block ≡ part) self.old.places.items
            (map part_in self.old.blocks.items) found snapshot.now.blocks
            × (self.new.places.items
            ≡ places_with next found (length snapshot.now.blocks))
            × EachSays F.shows F.kept N.first.values
            (places_from next (length (unfound found snapshot.now.blocks)))
            self.new.store.events.journal.medium.folder) }
        // What is none of the store's stays.
        ensures foreign { KeepsForeign F.shows F.kept self.old.store.events.journal.medium.folder
            self.new.store.events.journal.medium.folder }
        // Once the `meta.json` of each block says what the values mean, it does so from then on.
        ensures says { EachSays F.shows F.kept N.first.values self.old.places.items
            self.old.store.events.journal.medium.folder
            → EachSays F.shows F.kept N.first.values self.new.places.items
            self.new.store.events.journal.medium.folder }
    {
        if self.store.events.journal.closed {
            return Err(RollFault::Folder(RollError::Closed));
        }
        let count = snapshot.blocks().len();
        self.terms.note(self.store.len(), count);
        let Ok(blocks) = share_blocks(alloc, snapshot.blocks()) else {
            return Err(RollFault::Memory);
        };
        let Ok(found) = find_places(alloc, snapshot.blocks(), &self.blocks, &self.places) else {
            return Err(RollFault::Memory);
        };
        let next = next_number(&self.places);
        match self.store.save(alloc, snapshot, &self.places, &found, next) {
            Ok(places) => {
                let _ = self.store.sweep_blocks(alloc, &places);
                self.places = places;
                self.blocks = blocks;
                self.terms.note(self.store.len(), count);
                Ok(count)
            }
            Err(fault) => {
                self.store.sweep_after(alloc, &self.places);
                Err(fault)
            }
        }
    }
}

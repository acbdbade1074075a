//! The events of a store, kept in its folder.

use crate::keeper_roll::{kept_error, save_error};
use crate::store_journal::{Beginning, StoreJournal};
use crate::terms::RollTerms;
use block::Block;
use data_folder::Folder;
use event_journal::numbered_records;
use head::Snapshot;
use head_record::BlockPlace;
use keeper::{KeepError, Keeper, keep_error};
use std::alloc::Global;

/// The right to take back what was kept last in the folder of a store. Keeping alone gives one.
#[derive(Drop)]
pub struct LastKept(());

/// The token that what was kept in the folder of a store stays.
#[derive(Drop)]
pub struct Settled(());

/// Keeps the events of a store in the journal of its folder, beside the blocks that the journal's
/// head names. When the journal has grown long, or the store has other blocks, it is begun anew.
#[derive(Drop)]
pub struct StoreKeeper<N: Beginning, F: Folder + Drop> {
    /// The journal.
    pub store: StoreJournal<N, F>,
    /// Where the blocks lie that the journal's head names.
    pub places: Vec<BlockPlace>,
    /// These blocks, in memory.
    pub blocks: Vec<Block>,
    /// When the journal is begun anew.
    pub terms: RollTerms,
}

impl<N: Beginning, F: Folder + Drop> Keeper for StoreKeeper<N, F> {
    type Last = LastKept;

    type Settled = Settled;

    ghost use Rattle.data_folder.specs.Folders.{Left as Files, LeavesOnly};
    ghost use Rattle.data_folder.specs.JournalLaws.{StaysBeside};
    ghost use Rattle.data_folder.specs.Sweeping.{KeepsForeign};
    ghost use Rattle.store_folder.specs.Holding.{BytesSince, BytesStandFor, HoldsLike, HoldsOrLost};
    ghost use Rattle.store_folder.specs.Holding.{IsLast};
    ghost use Rattle.std.specs.Prelude.{◌≡◌, ◌⊎◌, ◌<◌, ◌^◌, ◌++◌, List, [], true, false};
    ghost use Rattle.std.specs.Prelude.{Err, IfOk, IfSome, IsErrOf, None, Ok, OnErr, OnOk, OnSome};
    ghost use Rattle.std.specs.Prelude.{length, map};
    ghost use Rattle.event_journal.specs.Holding.{contents_with};
    ghost use Rattle.head.specs.Blocks.{part_in};
    ghost use Rattle.head.specs.Heads.{BlockPart, world_of};
    ghost use Rattle.head.specs.Resuming.{MayStand};
    ghost use Rattle.head.specs.Worlds.{Event as Change};
    ghost use Rattle.head_record.specs.Saved.{save};
    ghost use Rattle.head_record.specs.Spelling.{head_texts};
    ghost use Rattle.journal.specs.Records.{file_of};
    ghost use Rattle.keeper.specs.Finding.{AreAll, AreAllAndSome, IsOfAll, LeavesEvents};
    ghost use Rattle.keeper.specs.Together.{SpellTogether};
    ghost use Rattle.store_folder.specs.Rolls.{HasHeadAlone};
    ghost use Rattle.store_folder.specs.Saving.{IsOldOrSaved};
    ghost use Rattle.store_folder.specs.Terms.{are_met};
    ghost use Rattle.event_journal.specs.KeeperLaws.{not_idle};
    ghost use Rattle.store_folder.specs.KeeperLaws.{as_store, finds_no_other, finds_world};
    ghost use Rattle.store_folder.specs.KeeperLaws.{now_kept, settled_kept};
    ghost use Rattle.store_folder.specs.States.{StartsWith, started};
    ghost use Rattle.store_folder.specs.Writing.{AreLike, EachSays};

    ghost first = { N.first.world };

    ghost idle = { false };

    ghost any = { λ idle k events. not_idle idle };

    ghost any_stays = { λ idle s events. not_idle idle };

    ghost may = { λ events. Unit {0} };

    ghost holds = { λ k events. HoldsOrLost F.shows F.kept F.sound F.moment F.left_since N.first
        k.store.events.journal.medium k.store.events.journal.len k.store.events.journal.closed
        events k.places.items (map part_in k.blocks.items) };

    ghost stays = { λ s events. Unit {0} };

    ghost kept_last = { λ k last events more. IsLast F.shows F.kept F.sound F.moment F.left_since
        N.first k.store.events.journal.medium k.store.events.journal.len
        k.store.events.journal.closed events more k.places.items
        (map part_in k.blocks.items) };

    ghost closed = { λ k. k.store.events.journal.closed };

    ghost failed = { λ k. F.failed k.store.events.journal.medium.folder };

    ghost full = { λ k. 2 ^ 62 < k.store.events.journal.len };

    ghost due = { λ k s. are_met k.terms k.store.events.journal.len (length s.blocks) };

    ghost moment = { λ k. F.moment k.store.events.journal.medium.folder };

    ghost Left = { Files };

    ghost left_since = { λ k t left.
        BytesSince F.left_since k.store.events.journal.medium.folder t left };

    ghost stands = { λ left events. BytesStandFor N.first left events };

    ghost makes = { λ left w. StartsWith left w };

    fn is_idle() -> bool {
        false
    }

    /// What lies beside the journal stays.
    fn keep(&mut self, records: &[u8]) -> Result<LastKept, KeepError>
        requires { (events more : List Change)
            × ⟦<StoreKeeper<N, F> as Keeper>⟧.holds self.old events
            × SpellTogether records.now more
            × ⟦<StoreKeeper<N, F> as Keeper>⟧.may (events ++ more) }
        ensures ok { OnOk result ((events more : List Change)
            → ⟦<StoreKeeper<N, F> as Keeper>⟧.holds self.old events
            → SpellTogether records.now more
            → ⟦<StoreKeeper<N, F> as Keeper>⟧.holds self.new (events ++ more)) }
        ensures last { IfOk result (λ last. (events more : List Change)
            → ⟦<StoreKeeper<N, F> as Keeper>⟧.holds self.old events
            → SpellTogether records.now more
            → ⟦<StoreKeeper<N, F> as Keeper>⟧.kept_last self.new last events more) }
        ensures err { OnErr result ((events : List Change)
            → ⟦<StoreKeeper<N, F> as Keeper>⟧.holds self.old events
            → ⟦<StoreKeeper<N, F> as Keeper>⟧.holds self.new events) }
        ensures any_moment { (events more : List Change)
            → ⟦<StoreKeeper<N, F> as Keeper>⟧.holds self.old events
            → SpellTogether records.now more → self.old.store.events.journal.closed ≡ false
            → LeavesEvents ⟦<StoreKeeper<N, F> as Keeper>⟧.moment
            ⟦<StoreKeeper<N, F> as Keeper>⟧.left_since
            ⟦<StoreKeeper<N, F> as Keeper>⟧.stands self.old self.new
            (AreAllAndSome events more) }
        ensures open { OnOk result (self.new.store.events.journal.closed ≡ false) }
        ensures closed { self.old.store.events.journal.closed ≡ true
            → (result ≡ Err KeepError.Closed) × (self.new ≡ self.old) }
        ensures told { IsErrOf result KeepError.Closed
            → self.old.store.events.journal.closed ≡ true }
        ensures full { IsErrOf result KeepError.TooLong
            → 2 ^ 62 < self.old.store.events.journal.len }
        ensures failed { IsErrOf result KeepError.Failed
            → F.failed self.new.store.events.journal.medium.folder ≡ true }
        ensures lost { self.new.store.events.journal.closed ≡ true
            → (self.old.store.events.journal.closed ≡ true)
            ⊎ (F.failed self.new.store.events.journal.medium.folder ≡ true) }
        ensures beside { StaysBeside F.shows F.kept F.moment F.left_since
            self.old.store.events.journal.medium.folder
            self.new.store.events.journal.medium.folder }
        ensures terms { self.new.terms ≡ self.old.terms }
    {
        if self.store.events.journal.closed {
            return Err(KeepError::Closed);
        }
        let names = &mut self.store.events.journal.medium.names;
        let count = names.len();
        let alloc = names.alloc();
        match numbered_records(alloc, names, records) {
            Err(_) => Err(KeepError::Memory),
            Ok(numbered) => match self.store.events.append(&numbered) {
                Ok(()) => Ok(LastKept(())),
                Err(error) => {
                    self.store.events.journal.medium.names.forget(count);
                    Err(keep_error(error))
                }
            },
        }
    }

    /// What is none of the store's stays.
    fn save(&mut self, alloc: Global, snapshot: &Snapshot) -> Result<LastKept, KeepError>
        requires made { ⟦<StoreKeeper<N, F> as Keeper>⟧.idle ≡ false
            → (events more : List Change) × ⟦<StoreKeeper<N, F> as Keeper>⟧.holds self.old events
            × ⟦<StoreKeeper<N, F> as Keeper>⟧.may (events ++ more)
            × IsOfAll N.first.world (events ++ more) (world_of snapshot.now) }
        ensures ok { OnOk result ((events more : List Change)
            → ⟦<StoreKeeper<N, F> as Keeper>⟧.holds self.old events
            → (⟦<StoreKeeper<N, F> as Keeper>⟧.idle ≡ false
            → IsOfAll N.first.world (events ++ more) (world_of snapshot.now))
            → ⟦<StoreKeeper<N, F> as Keeper>⟧.holds self.new (events ++ more)) }
        ensures last { IfOk result (λ last. (events more : List Change)
            → ⟦<StoreKeeper<N, F> as Keeper>⟧.holds self.old events
            → (⟦<StoreKeeper<N, F> as Keeper>⟧.idle ≡ false
            → IsOfAll N.first.world (events ++ more) (world_of snapshot.now))
            → ⟦<StoreKeeper<N, F> as Keeper>⟧.kept_last self.new last events more) }
        ensures err { OnErr result ((events more : List Change)
            → ⟦<StoreKeeper<N, F> as Keeper>⟧.holds self.old events
            → (⟦<StoreKeeper<N, F> as Keeper>⟧.idle ≡ false
            → IsOfAll N.first.world (events ++ more) (world_of snapshot.now))
            → ⟦<StoreKeeper<N, F> as Keeper>⟧.holds self.new events) }
        ensures any_moment { (events more : List Change)
            → ⟦<StoreKeeper<N, F> as Keeper>⟧.holds self.old events
            → (⟦<StoreKeeper<N, F> as Keeper>⟧.idle ≡ false
            → IsOfAll N.first.world (events ++ more) (world_of snapshot.now))
            → self.old.store.events.journal.closed ≡ false
            → LeavesEvents ⟦<StoreKeeper<N, F> as Keeper>⟧.moment
            ⟦<StoreKeeper<N, F> as Keeper>⟧.left_since
            ⟦<StoreKeeper<N, F> as Keeper>⟧.stands self.old self.new
            (AreAllAndSome events more) }
        // Such a crash leaves the store as it was, or what is saved of the snapshot, and no events.
        ensures leaves { (events more : List Change)
            → (h : HoldsLike F.shows F.kept F.sound F.moment F.left_since N.first
            self.old.store.events.journal.medium self.old.store.events.journal.len
            self.old.store.events.journal.closed events self.old.places.items
            (map part_in self.old.blocks.items))
            → IsOfAll N.first.world (events ++ more) (world_of snapshot.now)
            → self.old.store.events.journal.closed ≡ false
            → LeavesOnly F.moment F.left_since self.old.store.events.journal.medium.folder
            self.new.store.events.journal.medium.folder
            (IsOldOrSaved h.0.saved h.0.parts h.0.late N.first.values snapshot.now) }
        ensures open { OnOk result (self.new.store.events.journal.closed ≡ false) }
        ensures closed { self.old.store.events.journal.closed ≡ true
            → (result ≡ Err KeepError.Closed) × (self.new ≡ self.old) }
        ensures lost { self.new.store.events.journal.closed ≡ true
            → (self.old.store.events.journal.closed ≡ true)
            ⊎ (F.failed self.new.store.events.journal.medium.folder ≡ true) }
        ensures told { IsErrOf result KeepError.Closed
            → self.old.store.events.journal.closed ≡ true }
        ensures failed { IsErrOf result KeepError.Failed
            → F.failed self.new.store.events.journal.medium.folder ≡ true }
        // After `Ok` the journal has what is saved of the snapshot, and nothing more.
        ensures len { OnOk result (self.new.store.events.journal.len ≡ length (file_of
            (contents_with (head_texts (save N.first.values snapshot.now self.new.places.items))
            []))) }
        ensures file { OnOk result (HasHeadAlone F.shows F.kept
            (save N.first.values snapshot.now self.new.places.items)
            self.new.store.events.journal.medium.folder) }
        // A start makes a snapshot of it and of blocks like these.
        ensures stands { OnOk result ((made : List BlockPart) → AreLike snapshot.now.blocks made
            → MayStand (started (save N.first.values snapshot.now self.new.places.items) made)) }
        ensures foreign { KeepsForeign F.shows F.kept
            self.old.store.events.journal.medium.folder
            self.new.store.events.journal.medium.folder }
        // Once the `meta.json` of each block says what the values mean, it does so from then on.
        ensures says { EachSays F.shows F.kept N.first.values self.old.places.items
            self.old.store.events.journal.medium.folder
            → EachSays F.shows F.kept N.first.values self.new.places.items
            self.new.store.events.journal.medium.folder }
    {
        match self.roll(alloc, snapshot) {
            Ok(_) => Ok(LastKept(())),
            Err(fault) => Err(save_error(fault)),
        }
    }

    fn settle(&self, _last: LastKept) -> Settled {
        Settled(())
    }

    /// What lies beside the journal stays.
    fn close(&mut self, last: LastKept)
        requires { self.old.store.events.journal.closed ≡ false }
        ensures held { (events more : List Change)
            → ⟦<StoreKeeper<N, F> as Keeper>⟧.kept_last self.old last events more
            → ⟦<StoreKeeper<N, F> as Keeper>⟧.holds self.new events }
        ensures any_moment { (events more : List Change)
            → ⟦<StoreKeeper<N, F> as Keeper>⟧.kept_last self.old last events more
            → LeavesEvents ⟦<StoreKeeper<N, F> as Keeper>⟧.moment
            ⟦<StoreKeeper<N, F> as Keeper>⟧.left_since
            ⟦<StoreKeeper<N, F> as Keeper>⟧.stands self.old self.new
            (AreAllAndSome events more) }
        ensures closed { self.new.store.events.journal.closed ≡ true }
        ensures beside { StaysBeside F.shows F.kept F.moment F.left_since
            self.old.store.events.journal.medium.folder
            self.new.store.events.journal.medium.folder }
        ensures terms { self.new.terms ≡ self.old.terms }
    {
        self.store.events.close();
    }

    /// What is none of the store's stays. If blocks were saved, then all of the snapshot was.
    fn roll_if_due(
        &mut self,
        alloc: Global,
        snapshot: &Snapshot,
    ) -> Result<Option<usize>, KeepError>
        requires made { ⟦<StoreKeeper<N, F> as Keeper>⟧.idle ≡ false
            → (events : List Change) × ⟦<StoreKeeper<N, F> as Keeper>⟧.holds self.old events
            × IsOfAll N.first.world events (world_of snapshot.now) }
        ensures held { (events : List Change)
            → ⟦<StoreKeeper<N, F> as Keeper>⟧.holds self.old events
            → (⟦<StoreKeeper<N, F> as Keeper>⟧.idle ≡ false
            → IsOfAll N.first.world events (world_of snapshot.now))
            → ⟦<StoreKeeper<N, F> as Keeper>⟧.holds self.new events }
        ensures any_moment { (events : List Change)
            → ⟦<StoreKeeper<N, F> as Keeper>⟧.holds self.old events
            → (⟦<StoreKeeper<N, F> as Keeper>⟧.idle ≡ false
            → IsOfAll N.first.world events (world_of snapshot.now))
            → self.old.store.events.journal.closed ≡ false
            → LeavesEvents ⟦<StoreKeeper<N, F> as Keeper>⟧.moment
            ⟦<StoreKeeper<N, F> as Keeper>⟧.left_since
            ⟦<StoreKeeper<N, F> as Keeper>⟧.stands self.old self.new (AreAll events) }
        // Such a crash leaves the store as it was, or what is saved of the snapshot, and no events.
        ensures leaves { (events : List Change)
            → (h : HoldsLike F.shows F.kept F.sound F.moment F.left_since N.first
            self.old.store.events.journal.medium self.old.store.events.journal.len
            self.old.store.events.journal.closed events self.old.places.items
            (map part_in self.old.blocks.items))
            → IsOfAll N.first.world events (world_of snapshot.now)
            → self.old.store.events.journal.closed ≡ false
            → LeavesOnly F.moment F.left_since self.old.store.events.journal.medium.folder
            self.new.store.events.journal.medium.folder
            (IsOldOrSaved h.0.saved h.0.parts h.0.late N.first.values snapshot.now) }
        ensures rests { are_met self.old.terms self.old.store.events.journal.len
            (length snapshot.now.blocks) ≡ false
            → (result ≡ Ok None) × (self.new ≡ self.old) }
        ensures saves { result ≡ Ok None
            → (are_met self.old.terms self.old.store.events.journal.len
            (length snapshot.now.blocks) ≡ false)
            ⊎ (self.old.store.events.journal.closed ≡ true) }
        ensures open { OnOk result (self.new.store.events.journal.closed
            ≡ self.old.store.events.journal.closed) }
        ensures closed { self.old.store.events.journal.closed ≡ true → self.new ≡ self.old }
        ensures lost { self.new.store.events.journal.closed ≡ true
            → (self.old.store.events.journal.closed ≡ true)
            ⊎ (F.failed self.new.store.events.journal.medium.folder ≡ true) }
        // Where it saves, the journal then has what is saved of the snapshot, and nothing more.
        ensures len { IfOk result (λ saved. OnSome saved (self.new.store.events.journal.len
            ≡ length (file_of (contents_with
            (head_texts (save N.first.values snapshot.now self.new.places.items)) [])))) }
        ensures file { IfOk result (λ saved. OnSome saved (HasHeadAlone F.shows F.kept
            (save N.first.values snapshot.now self.new.places.items)
            self.new.store.events.journal.medium.folder)) }
        // A start makes a snapshot of it and of blocks like these.
        ensures stands { IfOk result (λ saved. OnSome saved ((made : List BlockPart)
            → AreLike snapshot.now.blocks made
            → MayStand (started (save N.first.values snapshot.now self.new.places.items) made))) }
        ensures counted { IfOk result (λ saved. IfSome saved (λ count.
            count ≡ length snapshot.now.blocks)) }
        // Its terms note it: the next time depends on what the journal grows from then on.
        ensures noted { IfOk result (λ saved. OnSome saved (self.new.terms ≡ record {
          most = self.old.terms.most;
          len = self.new.store.events.journal.len;
          blocks = length snapshot.now.blocks;
        })) }
        ensures tried { OnErr result (self.new.terms ≡ record {
          most = self.old.terms.most;
          len = self.old.store.events.journal.len;
          blocks = length snapshot.now.blocks;
        }) }
        ensures foreign { KeepsForeign F.shows F.kept
            self.old.store.events.journal.medium.folder
            self.new.store.events.journal.medium.folder }
        // Once the `meta.json` of each block says what the values mean, it does so from then on.
        ensures says { EachSays F.shows F.kept N.first.values self.old.places.items
            self.old.store.events.journal.medium.folder
            → EachSays F.shows F.kept N.first.values self.new.places.items
            self.new.store.events.journal.medium.folder }
    {
        if self.store.events.journal.closed {
            return Ok(None);
        }
        let blocks = snapshot.blocks().len();
        if !self.terms.are_met(self.store.len(), blocks) {
            return Ok(None);
        }
        match self.roll(alloc, snapshot) {
            Ok(count) => Ok(Some(count)),
            Err(fault) => Err(kept_error(fault)),
        }
    }

    ghost earlier = { λ k t u left le fits had. (
      F.earlier k.store.events.journal.medium.folder t u left le fits had.0,
      had.1,
    ) };

    ghost now = { λ k events left held had. now_kept F.shows F.kept F.sound F.moment F.left_since
        (λ f name x n left shown kept since. F.only_now f name x n left shown kept since) N.first
        k.store.events.journal.medium k.store.events.journal.len k.store.events.journal.closed
        events left (as_store F.shows F.kept F.sound F.moment F.left_since
        (λ f name x n left shown kept since. F.only_now f name x n left shown kept since) N.first
        k.store.events.journal.medium k.store.events.journal.len k.store.events.journal.closed
        events k.places.items (map part_in k.blocks.items) held) had };

    ghost settled = { λ k events left held opened had. settled_kept F.shows F.kept F.sound F.moment
        F.left_since
        (λ f name x n left shown kept since. F.only_now f name x n left shown kept since) N.first
        k.store.events.journal.medium k.store.events.journal.len k.store.events.journal.closed
        events left (as_store F.shows F.kept F.sound F.moment F.left_since
        (λ f name x n left shown kept since. F.only_now f name x n left shown kept since) N.first
        k.store.events.journal.medium k.store.events.journal.len k.store.events.journal.closed
        events k.places.items (map part_in k.blocks.items) held) opened had };

    ghost finds = { λ left events w stood world. finds_world N.first w left events stood world };

    ghost finds_only = { λ left events w stood made.
        finds_no_other N.first w left events stood made };
}

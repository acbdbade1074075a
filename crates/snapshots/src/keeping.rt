//! How events are kept before they are published.

ghost use Rattle.std.specs.Prelude.{◌≡◌, ◌++◌, ◌∷◌, [], List, false, true, IfOk, IfErr, OnOk};
ghost use Rattle.std.specs.Prelude.{OnErr};
ghost use Rattle.head.specs.Worlds.{Event};
ghost use Rattle.keeper.specs.Finding.{AreAllAndSome, LeavesEvents};
ghost use Rattle.snapshots.specs.Keeping.{keep_refusal, AreAllOrNone, IsHindered, IsOfKeeping};
ghost use Rattle.snapshots.specs.Keeping.{IsRecordFor, SpellAll};

use crate::change::Change;
use head::CommitError;
use keeper::{KeepError, Keeper, push_text};
use std::alloc::{AllocError, Global};

/// The refusal of a store whose keeper refuses so.
pub fn refusal_of(error: KeepError) -> CommitError
    ensures { result ≡ keep_refusal error }
{
    match error {
        KeepError::Memory => CommitError::Memory,
        KeepError::TooLong | KeepError::Failed | KeepError::Closed => CommitError::Journal,
    }
}

/// The record of a change, by which keepers of this kind keep it. It has no byte if they keep
/// nothing.
pub fn record_of<C: Change, K: Keeper>(alloc: Global, change: &C) -> Result<Vec<u8>, CommitError>
    ensures ok { IfOk result (λ bytes. IsRecordFor K.idle (C.event change.now) bytes.items) }
    ensures refused { IfErr result (λ e. IsOfKeeping e) }
    ensures needed { OnErr result (K.idle ≡ false) }
{
    let mut bytes = Vec::new(alloc);
    if K::is_idle() {
        return Ok(bytes);
    }
    let text = change.text(alloc)?;
    match push_text(&mut bytes, &text) {
        Ok(()) => Ok(bytes),
        Err(error) => Err(refusal_of(error)),
    }
}

/// Puts the record of one event more to those of other events, with which it is kept.
pub fn push_record<K: Keeper>(records: &mut Vec<u8>, bytes: &[u8]) -> Result<(), AllocError>
    ensures ok { OnOk result ((events : List Event) (event : Event)
        → SpellAll K.idle events records.old.items → IsRecordFor K.idle event bytes.now
        → SpellAll K.idle (events ++ event ∷ []) records.new.items) }
    ensures err { OnErr result (records.new.items ≡ records.old.items) }
{
    if K::is_idle() {
        return Ok(());
    }
    records.extend_from_slice(bytes)
}

/// Keeps several events by their records, by one write and one sync. After an `Err` the keeper
/// keeps what it kept.
pub fn keep<K: Keeper>(keeper: &mut K, bytes: &[u8]) -> Result<K::Last, CommitError>
    requires held { (events more : List Event) × K.holds keeper.old events
        × SpellAll K.idle more bytes.now × K.may (events ++ more) }
    ensures ok { OnOk result ((events more : List Event) → K.holds keeper.old events
        → SpellAll K.idle more bytes.now → K.holds keeper.new (events ++ more)) }
    // The events were kept last; or none was, if keepers of this kind keep nothing.
    ensures last { IfOk result (λ last. (events more : List Event) → K.holds keeper.old events
        → SpellAll K.idle more bytes.now → (few : List Event) × AreAllOrNone K.idle more few
        × K.kept_last keeper.new last events few) }
    ensures open { OnOk result (K.closed keeper.new ≡ false) }
    ensures err { OnErr result ((events : List Event) → K.holds keeper.old events
        → K.holds keeper.new events) }
    // A closed keeper stays as it is.
    ensures closed { K.closed keeper.old ≡ true → keeper.new ≡ keeper.old }
    // Of an open one a crash at any moment of the call leaves all that was kept, and at most the
    // first few of these events.
    ensures in_flight { (events more : List Event) → K.holds keeper.old events
        → SpellAll K.idle more bytes.now → K.closed keeper.old ≡ false
        → LeavesEvents K.moment K.left_since K.stands keeper.old keeper.new
        (AreAllAndSome events more) }
    ensures refused { IfErr result (λ e. IsOfKeeping e) }
    // One that keeps nothing refuses nothing.
    ensures needed { OnErr result (K.idle ≡ false) }
    // `E8` has a cause: the keeper was closed before, or has no room, or could not write.
    ensures cause { IfErr result (λ e. e ≡ CommitError.Journal
        → IsHindered K.closed K.full K.failed keeper.old keeper.new) }
{
    match keeper.keep(bytes) {
        Ok(last) => Ok(last),
        Err(error) => Err(refusal_of(error)),
    }
}

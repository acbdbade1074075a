//! What leaves a store next.

ghost use Rattle.std.specs.Prelude.{◌≡◌, ◌⊎◌, ◌≤◌, Some, IfSome, IfNone, IsNone, IsSomeAnd, All};
ghost use Rattle.join_schedule.specs.Expiry.{IsExpired, IsLastExpired, IsLeastEnd};
ghost use Rattle.join_schedule.specs.Blocks.{bytes_in};
ghost use Rattle.block_upkeep.specs.Leaving.{IsLeaving, IsTask, StaysAll};

use crate::emptied::{Stretch, emptied_stretch};
use crate::limits::Upkeep;
use join_schedule::{Shape, expiry, expiry_by_size};

/// What is to be done next.
#[derive(Clone, Copy, Debug, PartialEq, Eq)]
pub enum Task {
    /// These blocks leave: no sample is left in them.
    Remove(Stretch),
    /// The samples before this time leave.
    Expire(i64),
}

/// The later of two times, if there is one.
fn later(one: Option<i64>, other: Option<i64>) -> Option<i64>
    ensures none { IsNone result → IsNone one × IsNone other }
    ensures either { IfSome result (λ t. (one ≡ Some t) ⊎ (other ≡ Some t)) }
{
    let Some(first) = one else {
        return other;
    };
    let Some(second) = other else {
        return one;
    };
    if first < second { other } else { one }
}

/// The time before which samples are too old, if there is one.
fn expired_by_age(keep: Option<u64>, blocks: &[Shape], floor: i64, now: i64) -> Option<i64>
    ensures some { IfSome result (λ t.
        IsSomeAnd keep (λ n. IsLastExpired floor now n blocks.now t)) }
    ensures none { IfNone result (IfSome keep (λ n.
        All (λ b. IsExpired floor now n b.to → ⊥) blocks.now)) }
{
    match keep {
        Some(keep) => expiry(blocks, floor, now, keep),
        None => None,
    }
}

/// The time before which samples are too many, if there is one.
fn expired_by_size(most: Option<u64>, blocks: &[Shape]) -> Option<i64>
    ensures some { IfSome result (λ t. IsSomeAnd most (λ n. IsLeastEnd n blocks.now t)) }
    ensures none { IfNone result (IfSome most (λ n. bytes_in blocks.now ≤ n)) }
{
    match most {
        Some(most) => expiry_by_size(blocks, most),
        None => None,
    }
}

impl Upkeep {
    /// The time before which samples leave, if there is one.
    fn expired(&self, blocks: &[Shape], floor: i64, now: i64) -> Option<i64>
        ensures some { IfSome result (IsLeaving self.now floor now blocks.now) }
        ensures none { IfNone result (StaysAll self.now floor now blocks.now) }
    {
        let by_age = expired_by_age(self.keep, blocks, floor, now);
        let by_size = expired_by_size(self.keep_bytes, blocks);
        later(by_age, by_size)
    }

    /// What leaves next, of a store with this floor, at this time of the clock: blocks in which no
    /// sample is left, or else samples that are too old or too many. None if nothing does.
    pub fn next_leaving(&self, blocks: &[Shape], floor: i64, now: i64) -> Option<Task>
        ensures some { IfSome result (IsTask self.now floor now blocks.now) }
        ensures none { IfNone result (StaysAll self.now floor now blocks.now) }
    {
        if let Some(emptied) = emptied_stretch(blocks) {
            return Some(Task::Remove(emptied));
        }
        match self.expired(blocks, floor, now) {
            Some(time) => Some(Task::Expire(time)),
            None => None,
        }
    }
}

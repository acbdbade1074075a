//! Up to which time samples leave.

ghost use Rattle.std.specs.Prelude.{◌≡◌, ◌≤◌, ◌≤ℤ◌, ◌⊎◌, ◌↔◌};
ghost use Rattle.std.specs.Prelude.{IfSome, IfNone, OnSome, IsNone, IsTrue, All};
ghost use Rattle.join_schedule.specs.Blocks.{bytes_in};
ghost use Rattle.join_schedule.specs.Expiry.{IsExpired, IsLastExpired, IsLeastEnd, bytes_after};
ghost use Rattle.join_schedule.specs.Expiry.{share_after};

use crate::blocks::{Shape, sum_within};

/// Whether `keep` milliseconds have passed from the end of a block on, both to the store's floor
/// and by the clock.
fn has_expired(block: &Shape, floor: i64, now: i64, keep: u64) -> bool
    ensures { IsTrue result ↔ IsExpired floor now keep block.now.to }
{
    match block.to.checked_add_unsigned(keep) {
        Some(time) => time <= floor && time <= now,
        None => false,
    }
}

/// The end of a block, if it has expired.
fn expired_end(block: &Shape, floor: i64, now: i64, keep: u64) -> Option<i64>
    ensures end { IfSome result (λ t. t ≡ block.now.to) }
    ensures some { OnSome result (IsExpired floor now keep block.now.to) }
    ensures none { IfNone result (IsExpired floor now keep block.now.to → ⊥) }
{
    if has_expired(block, floor, now, keep) {
        Some(block.to)
    } else {
        None
    }
}

/// The later of two times, if there is one.
fn later(one: Option<i64>, other: Option<i64>) -> Option<i64>
    ensures none { IsNone result → IsNone one × IsNone other }
    ensures either { IfSome result (λ t. (one ≡ Some t) ⊎ (other ≡ Some t)) }
    ensures later { IfSome result (λ t. IfSome one (λ s. s ≤ℤ t) × IfSome other (λ s. s ≤ℤ t)) }
{
    let Some(first) = one else {
        return other;
    };
    let Some(second) = other else {
        return one;
    };
    if first < second { other } else { one }
}

/// The earlier of two times, if there is one.
fn earlier(one: Option<i64>, other: Option<i64>) -> Option<i64>
    ensures none { IsNone result → IsNone one × IsNone other }
    ensures either { IfSome result (λ t. (one ≡ Some t) ⊎ (other ≡ Some t)) }
    ensures earlier { IfSome result (λ t. IfSome one (λ s. t ≤ℤ s) × IfSome other (λ s. t ≤ℤ s)) }
{
    let Some(first) = one else {
        return other;
    };
    let Some(second) = other else {
        return one;
    };
    if second < first { other } else { one }
}

/// The time before which samples have been kept for long enough: the last end of a block from
/// which on `keep` milliseconds have passed, both to the store's floor and by the clock. None if
/// there is none. Time in proportion to the blocks.
pub fn expiry(blocks: &[Shape], floor: i64, now: i64, keep: u64) -> Option<i64>
    ensures last { IfSome result (IsLastExpired floor now keep blocks.now) }
    ensures none { IfNone result (All (λ b. IsExpired floor now keep b.to → ⊥) blocks.now) }
{
    let mut last = None;
    for block in blocks {
        last = later(last, expired_end(block, floor, now, keep));
    }
    last
}

/// Whether blocks have no more bytes than `most` together.
fn have_at_most(blocks: &[Shape], most: u64) -> bool
    ensures { IsTrue result ↔ (bytes_in blocks.now ≤ most) }
{
    let mut bytes = 0;
    for block in blocks {
        let Some(more) = sum_within(bytes, block.bytes, most) else {
            return false;
        };
        bytes = more;
    }
    true
}

/// The bytes of a block, if it ends after a time.
fn share_after(block: &Shape, time: i64) -> u64
    ensures { result ≡ share_after time block.now }
{
    if time < block.to { block.bytes } else { 0 }
}

/// Whether the blocks that end after a time have no more bytes than `most` together.
fn have_at_most_after(blocks: &[Shape], time: i64, most: u64) -> bool
    ensures { IsTrue result ↔ (bytes_after time blocks.now ≤ most) }
{
    let mut bytes = 0;
    for block in blocks {
        let Some(more) = sum_within(bytes, share_after(block, time), most) else {
            return false;
        };
        bytes = more;
    }
    true
}

/// The end of a block, if the blocks that end after it have no more bytes than `most` together.
fn sufficient_end(block: &Shape, blocks: &[Shape], most: u64) -> Option<i64>
    ensures end { IfSome result (λ t. t ≡ block.now.to) }
    ensures some { OnSome result (bytes_after block.now.to blocks.now ≤ most) }
    ensures none { IfNone result (bytes_after block.now.to blocks.now ≤ most → ⊥) }
{
    if have_at_most_after(blocks, block.to, most) {
        Some(block.to)
    } else {
        None
    }
}

/// The time before which samples leave so that the files of the other blocks have no more bytes
/// than `most`: the least end of a block behind which they have no more. None if all blocks
/// together have no more. Time in proportion to the square of the blocks.
pub fn expiry_by_size(blocks: &[Shape], most: u64) -> Option<i64>
    ensures least { IfSome result (IsLeastEnd most blocks.now) }
    ensures none { IsNone result ↔ (bytes_in blocks.now ≤ most) }
{
    if have_at_most(blocks, most) {
        return None;
    }
    let mut least = None;
    for block in blocks {
        least = earlier(least, sufficient_end(block, blocks, most));
    }
    least
}

//! How many slots each part has.

ghost use Rattle.std.specs.Prelude.{◌≡◌, ◌≤◌, ◌<◌, ◌+◌, ℕ, length, take, IfOk, IfErr, IfSome};
ghost use Rattle.std.specs.Prelude.{IfNone};
ghost use Rattle.time_cuts.specs.Parts.{AreParts, IsWithin, HasSlotBeyond, carried_into};
ghost use Rattle.time_cuts.specs.declared.error.CutError.TheVariants.{Slot as OneSlot};

use crate::error::CutError;
use crate::slot::{Limits, Slot};
use std::alloc::Global;

/// How many slots each part has, from the first on. Each part is as long as the limits let it be.
/// It takes time in proportion to the slots.
pub fn cut(alloc: Global, slots: &[Slot], limits: Limits) -> Result<Vec<usize>, CutError>
    // Laid end to end the parts are the slots, and each is within the limits.
    ensures parts { IfOk result (λ counts. AreParts limits slots.now counts.items) }
    // It is refused only where a slot alone is beyond them.
    ensures beyond { IfErr result (λ e. e ≡ OneSlot → HasSlotBeyond limits slots.now) }
{
    let mut counts = Vec::new(alloc);
    let mut rest = slots;
    while !rest.is_empty() {
        let count = fitting(rest, limits);
        if count == 0 {
            return Err(CutError::Slot);
        }
        counts.push(count)?;
        rest = rest.split_at(count).1;
    }
    Ok(counts)
}

// How many slots from the front are within the limits together.
fn fitting(slots: &[Slot], limits: Limits) -> usize
    ensures inside { result ≤ length slots.now }
    ensures within { IsWithin limits (take result slots.now) }
    ensures longest { result < length slots.now
        → IsWithin limits (take (result + 1) slots.now) → ⊥ }
{
    let mut samples = carried_into(slots);
    let mut series = 0u64;
    let mut count = 0usize;
    for slot in slots {
        let Some((more, most)) = with_slot(samples, series, *slot, limits) else {
            return count;
        };
        samples = more;
        series = most;
        count += 1;
    }
    count
}

// The samples, and those of one series, with a slot more, where both are within the limits.
fn with_slot(samples: u64, series: u64, slot: Slot, limits: Limits) -> Option<(u64, u64)>
    ensures some { IfSome result (λ n. (n.0 ≡ samples + slot.begun) × (n.1 ≡ series + slot.most)
        × (n.0 ≤ limits.samples) × (n.1 ≤ limits.series)) }
    ensures none { IfNone result (samples + slot.begun ≤ limits.samples
        → series + slot.most ≤ limits.series → ⊥) }
{
    let more = samples.checked_add(slot.begun)?;
    let most = series.checked_add(slot.most)?;
    if more > limits.samples || most > limits.series {
        return None;
    }
    Some((more, most))
}

// How many samples are carried into the first slot.
fn carried_into(slots: &[Slot]) -> u64
    ensures { result ≡ carried_into slots.now }
{
    match slots.first() {
        Some(slot) => slot.carried,
        None => 0,
    }
}

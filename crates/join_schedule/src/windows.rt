//! Windows of time whose blocks may become one.

ghost use Rattle.std.specs.Prelude.{◌≡◌, ◌≤◌, ◌<◌, ◌+◌, ℕ, ℤ, pos, ◌+ℤ◌, ◌≤ℤ◌, ◌<ℤ◌, length, take};
ghost use Rattle.std.specs.Prelude.{IfSome, IfNone, IsTrue, ◌↔◌, All, slice_get, FitsSigned, min};
ghost use Rattle.std.specs.Prelude.{unwrap_or, false, Some};
ghost use Rattle.std.specs.Int.{w64};
ghost use Rattle.join_schedule.specs.declared.blocks.Shape.{Shape as ShapeOf};
ghost use Rattle.join_schedule.specs.declared.blocks.Run.{Run as RunOf};
ghost use Rattle.join_schedule.specs.Windows.{IsMultiple, IsSpan, LiesIn, IsWindow, FillsWindow};
ghost use Rattle.join_schedule.specs.Windows.{NoWindowFits, IsFirstWindow};

use crate::blocks::{Limits, Run, Shape, blocks_from, blocks_of, fits};

/// The end of the window in which a time lies. None if it is later than all times.
fn window_end(span: u64, time: i64) -> Option<i64>
    requires { IsSpan span }
    ensures multiple { IfSome result (IsMultiple span) }
    ensures next { IfSome result (λ end. (time <ℤ end) × (end ≤ℤ (time +ℤ pos span))) }
    ensures none { IfNone result ((end : ℤ) → IsMultiple span end → time <ℤ end
        → FitsSigned w64 end → ⊥) }
{
    let step = span as i64;
    let ahead = step - time.rem_euclid(step);
    time.checked_add(ahead)
}

/// The end of the window in which a time lies, if it is closed.
fn closed_end(span: u64, time: i64, floor: i64) -> Option<i64>
    requires { IsSpan span }
    ensures multiple { IfSome result (IsMultiple span) }
    ensures next { IfSome result (λ end. (time <ℤ end) × (end ≤ℤ (time +ℤ pos span))) }
    ensures closed { IfSome result (λ end. end ≤ℤ floor) }
    ensures none { IfNone result ((end : ℤ) → IsMultiple span end → time <ℤ end
        → end ≤ℤ (time +ℤ pos span) → end ≤ℤ floor → ⊥) }
{
    let end = window_end(span, time)?;
    if end <= floor { Some(end) } else { None }
}

/// Whether a block lies in the window that ends there.
fn lies_in(block: &Shape, span: u64, end: i64) -> bool
    ensures { IsTrue result ↔ LiesIn span end block.now }
{
    let start = end.saturating_sub_unsigned(span);
    if block.from < start {
        return false;
    }
    if block.from >= end {
        return false;
    }
    block.to <= end
}

/// How many blocks from the front on lie in the window that ends there.
fn count_in(blocks: &[Shape], span: u64, end: i64) -> usize
    ensures within { result ≤ length blocks.now }
    ensures inside { All (LiesIn span end) (take result blocks.now) }
    ensures behind { (b : ShapeOf) → slice_get blocks.now result ≡ Some b
        → LiesIn span end b → ⊥ }
{
    for (at, block) in blocks.iter().enumerate() {
        if !lies_in(block, span, end) {
            return at;
        }
    }
    blocks.len()
}

/// Whether the block before a place lies in the window that ends there.
fn begins_before(blocks: &[Shape], at: usize, span: u64, end: i64) -> bool
    requires { at < length blocks.now }
    ensures yes { IsTrue result → (before : ℕ) × (b : ShapeOf) × (before + 1 ≡ at)
        × (slice_get blocks.now before ≡ Some b) × LiesIn span end b }
    ensures no { result ≡ false → (before : ℕ) (b : ShapeOf) → before + 1 ≡ at
        → slice_get blocks.now before ≡ Some b → LiesIn span end b → ⊥ }
{
    at > 0 && lies_in(&blocks[at - 1], span, end)
}

/// The run of a window whose first block is at this place.
fn window_at(blocks: &[Shape], at: usize, floor: i64, span: u64) -> Option<Run>
    requires at { at < length blocks.now }
    requires span { IsSpan span }
    ensures at { IfSome result (λ run. run.at ≡ at) }
    ensures window { IfSome result (λ run. (end : ℤ) × IsWindow floor blocks.now span end run) }
    ensures only { IfSome result (λ run. (end : ℤ) (other : RunOf) → other.at ≡ at
        → IsWindow floor blocks.now span end other → other.count ≡ run.count) }
    ensures none { IfNone result ((end : ℤ) (run : RunOf) → run.at ≡ at
        → IsWindow floor blocks.now span end run → ⊥) }
{
    let end = closed_end(span, blocks[at].from, floor)?;
    if begins_before(blocks, at, span, end) {
        return None;
    }
    let count = count_in(blocks_from(at, blocks), span, end);
    if count > 1 {
        Some(Run { at, count })
    } else {
        None
    }
}

/// The run of a window whose first block is at this place, if its blocks may become one.
fn fitting_window(
    blocks: &[Shape],
    at: usize,
    floor: i64,
    limits: &Limits,
    span: u64,
) -> Option<Run>
    requires at { at < length blocks.now }
    requires span { IsSpan span }
    ensures at { IfSome result (λ run. run.at ≡ at) }
    ensures fills { IfSome result (FillsWindow limits.now floor blocks.now span) }
    ensures none { IfNone result ((run : RunOf) → run.at ≡ at
        → FillsWindow limits.now floor blocks.now span run → ⊥) }
{
    let run = window_at(blocks, at, floor, span)?;
    if fits(blocks_of(run, blocks), floor, limits) {
        Some(run)
    } else {
        None
    }
}

/// The first window of a span whose blocks may become one. Time in proportion to the blocks.
fn first_of_span(blocks: &[Shape], floor: i64, limits: &Limits, span: u64) -> Option<Run>
    requires { IsSpan span }
    ensures fills { IfSome result (FillsWindow limits.now floor blocks.now span) }
    ensures first { IfSome result (λ run. (other : RunOf)
        → FillsWindow limits.now floor blocks.now span other → run.at ≤ other.at) }
    ensures none { IfNone result ((run : RunOf)
        → FillsWindow limits.now floor blocks.now span run → ⊥) }
{
    for at in 0..blocks.len() {
        if let Some(run) = fitting_window(blocks, at, floor, limits, span) {
            return Some(run);
        }
    }
    None
}

/// The longest that a window may be, in milliseconds.
fn longest_window(limits: &Limits) -> u64
    ensures { result ≡ min (unwrap_or limits.now.longest_window 9223372036854775807)
        9223372036854775807 }
{
    let ever = i64::MAX as u64;
    limits.longest_window.unwrap_or(ever).min(ever)
}

/// The first of the shortest windows whose blocks may become one. Time in proportion to the blocks
/// for each of the spans, of which there are at most 39.
pub(crate) fn first_window(blocks: &[Shape], floor: i64, limits: &Limits) -> Option<Run>
    requires { 0 < limits.now.cut }
    ensures some { IfSome result (IsFirstWindow limits.now floor blocks.now) }
    ensures none { IfNone result (NoWindowFits limits.now floor blocks.now) }
{
    let longest = longest_window(limits);
    let mut span = limits.cut.saturating_mul(3);
    while span <= longest {
        if let Some(run) = first_of_span(blocks, floor, limits, span) {
            return Some(run);
        }
        span = span.saturating_mul(3);
    }
    None
}

//! How long samples are kept, as the options of a server say it.

ghost use Rattle.std.specs.Prelude.{◌≡◌, ◌↔◌, IfSome, IfErr, IsTrue, OnOk};
ghost use Rattle.commands.specs.Upkeep.{AsksKeep, IsKeepFault, IsKeepOf, IsKeepable, IsTended};
ghost use Rattle.commands.specs.Upkeep.{IsUpkeepOf, WritesSpan, bytes_of};

use crate::command::{Serving, no_span, no_upkeep};
use crate::fault::Fault;
use block_upkeep::Upkeep;
use span_text::span_of;
use std::alloc::Global;

/// How many bytes one GB has.
const GB: u64 = 1_000_000_000;

/// Whether the store is kept in a folder, and cut by itself.
fn is_tended(serving: Serving<'_>) -> bool
    ensures { IsTrue result ↔ IsTended serving.entry }
{
    serving.folder.is_some() && serving.cut_every > 0
}

/// Whether the options say for how long samples are kept, or how many of them.
fn asks_keep(serving: Serving<'_>) -> bool
    ensures { IsTrue result ↔ AsksKeep serving.entry }
{
    serving.keep.is_some() || serving.keep_gb > 0
}

/// Whether the option of how long samples are kept, if there is one, writes a span of time.
fn writes_span(serving: Serving<'_>) -> bool
    ensures { IsTrue result ↔ WritesSpan serving.entry }
{
    match serving.keep {
        Some(text) => span_of(text).is_some(),
        None => true,
    }
}

/// Refuses options that say how long samples are kept, of a store that is not kept in a folder or
/// not cut by itself, or by a text that writes no span of time.
pub(crate) fn check_upkeep(alloc: Global, serving: Serving<'_>) -> Result<(), Fault>
    ensures ok { OnOk result (IsKeepable serving.entry) }
    ensures err { IfErr result (IsKeepFault serving.entry) }
{
    if asks_keep(serving) && !is_tended(serving) {
        return Err(Fault::Words(no_upkeep(alloc)?));
    }
    if writes_span(serving) {
        return Ok(());
    }
    let text = serving.keep.unwrap_or("");
    Err(Fault::Words(no_span(alloc, text)?))
}

/// For how many milliseconds samples are kept.
fn keep_of(serving: Serving<'_>) -> Option<u64>
    ensures { IsKeepOf serving.entry.keep result }
{
    match serving.keep {
        Some(text) => span_of(text),
        None => None,
    }
}

/// The bytes of so many GB, as far as they can be counted. None of 0.
fn bytes_of(gb: u64) -> Option<u64>
    ensures { result ≡ bytes_of gb }
{
    if gb == 0 {
        None
    } else {
        Some(gb.saturating_mul(GB))
    }
}

/// What the server does with the blocks of its store by itself: nothing, unless the store is kept
/// in a folder and cut by itself.
pub(crate) fn upkeep_of(serving: Serving<'_>) -> Option<Upkeep>
    ensures { IfSome result (IsUpkeepOf serving.entry) }
{
    if !is_tended(serving) {
        return None;
    }
    Some(Upkeep {
        keep: keep_of(serving),
        keep_bytes: bytes_of(serving.keep_gb),
        join_samples: serving.join_samples,
    })
}

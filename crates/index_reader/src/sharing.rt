//! What several threads can read: the bodies of the series, and other parts beside them.

ghost use Rattle.std.specs.Prelude.{◌<◌, ◌^◌, ⊤, All, length};
ghost use Rattle.std.specs.Thread.{IsSync};
ghost use Rattle.index_reader.specs.CheckedFile.{IsSoundLayout};
ghost use Rattle.index_reader.specs.Layout.{IsPlaced};
ghost use Rattle.index_reader.specs.Seen.{bytes_of, entries_seen};
ghost use Rattle.index_reader.specs.Shared.{AreBodiesOf, AreBodiesIn, AreListsIn};

use crate::bodies::{Bodies, bodies_of};
use crate::error::IndexError;
use crate::joining::joined;
use crate::layout::Layout;
use crate::parts::{Listed, check_bodies, lists_in};
use crate::series_entries::SeriesEntry;
use crate::symbols::SymbolTable;
use std::alloc::Global;
use std::thread::{Threads, join};

/// Of fewer entries all is read by one thread.
const MANY: usize = 4_096;

/// The lists, and the bodies of the series, each with its first refusal.
pub type Parts<'a> = (Result<Listed<'a>, IndexError>, Result<Bodies, IndexError>);

// The parts of an index by the calling thread alone.
fn parts_alone<'a>(alloc: Global, file: &'a [u8], layout: &Layout<'_>) -> Parts<'a>
    requires { IsSoundLayout file.now layout.now }
    ensures lists { AreListsIn file.now layout.now result.0 }
    ensures bodies { AreBodiesIn file.now layout.now result.1 }
{
    let room = layout.entries.len();
    let read = bodies_of(alloc, &layout.symbols, &layout.entries, room);
    let bodies = check_bodies(file, layout, read);
    let lists = lists_in(alloc, file, layout);
    (lists, bodies)
}

// The bodies of all entries by at most so many threads, the calling one among them. Where a thread
// can't be started, the calling one does its share. What the first share makes has room for
// `room` bodies, so that later ones are added in place. The later of the two parts, which is
// copied, is not the larger, but for a rest.
#[tactic(auto, using(crate::proofs::BothParts::small_early, crate::proofs::BothParts::small_late, crate::proofs::BothParts::share_inside))]
#[cycle(halves)]
fn bodies_among<R: Threads + Sync>(
    rt: &R,
    alloc: Global,
    symbols: &SymbolTable<'_>,
    entries: &[SeriesEntry<'_>],
    room: usize,
    threads: usize,
) -> Result<Bodies, IndexError>
    requires { All (λ e. e.offset < 2 ^ 32) entries.now }
    ensures { AreBodiesOf (bytes_of symbols.now.texts.items) (entries_seen entries.now) result }
{
    if threads < 2 || entries.len() < MANY || entries.len() < threads {
        return bodies_of(alloc, symbols, entries, room);
    }
    let rest = threads / 2;
    let helpers = threads - rest;
    let share = entries.len() / threads;
    let (early, late) = entries.split_at(share * helpers);
    let first = || -> Result<Bodies, IndexError>
        requires { IsSync R.row × All (λ e. e.offset < 2 ^ 32) early.now }
        ensures { AreBodiesOf (bytes_of symbols.entry.now.texts.items)
            (entries_seen early.entry.now) result }
    { bodies_among(rt, alloc, symbols, early, room, helpers) };
    let second = || -> Result<Bodies, IndexError>
        requires { IsSync R.row × All (λ e. e.offset < 2 ^ 32) late.now }
        ensures { AreBodiesOf (bytes_of symbols.entry.now.texts.items)
            (entries_seen late.entry.now) result }
    { bodies_among(rt, alloc, symbols, late, late.len(), rest) };
    let (of_early, of_late) = join(rt, first, second);
    let front = of_early?;
    let back = of_late?;
    let bodies = joined(front, back)?;
    Ok(bodies)
}

// All bodies by at most so many threads, and their checks.
fn checked_bodies_among<R: Threads + Sync>(
    rt: &R,
    alloc: Global,
    file: &[u8],
    layout: &Layout<'_>,
    threads: usize,
) -> Result<Bodies, IndexError>
    requires { IsSoundLayout file.now layout.now }
    ensures { AreBodiesIn file.now layout.now result }
{
    let room = layout.entries.len();
    let read = bodies_among(rt, alloc, &layout.symbols, &layout.entries, room, threads);
    check_bodies(file, layout, read)
}

// The parts of an index by at most so many threads: the lists by one of them, the bodies by the
// others.
fn parts_among<'a, R: Threads + Sync>(
    rt: &R,
    alloc: Global,
    file: &'a [u8],
    layout: &Layout<'_>,
    threads: usize,
) -> Parts<'a>
    requires { IsSoundLayout file.now layout.now }
    ensures lists { AreListsIn file.now layout.now result.0 }
    ensures bodies { AreBodiesIn file.now layout.now result.1 }
{
    if threads < 2 || layout.entries.len() < MANY {
        return parts_alone(alloc, file, layout);
    }
    let readers = threads - 1;
    let lists = || -> Result<Listed<'_>, IndexError>
        requires { IsPlaced layout.now.contents (length file.now) }
        ensures { AreListsIn file.entry.now layout.entry.now result }
    { lists_in(alloc, file, layout) };
    let series = || -> Result<Bodies, IndexError>
        requires { IsSync R.row × IsSoundLayout file.now layout.now }
        ensures { AreBodiesIn file.entry.now layout.entry.now result }
    { checked_bodies_among(rt, alloc, file, layout, readers) };
    join(rt, lists, series)
}

/// Who reads the parts of an index that can be read side by side.
pub trait Readers {
    // What the reading takes: that threads may share what starts them.
    ghost is_ready: { Self → Type 0 };

    /// The lists, and the bodies of the series.
    fn parts<'a>(&self, alloc: Global, file: &'a [u8], layout: &Layout<'_>) -> Parts<'a>
        requires ready { is_ready self.now }
        requires sound { IsSoundLayout file.now layout.now }
        ensures lists { AreListsIn file.now layout.now result.0 }
        ensures bodies { AreBodiesIn file.now layout.now result.1 };
}

/// The calling thread alone.
#[derive(Drop)]
pub struct OneThread;

impl Readers for OneThread {
    ghost is_ready = { λ _. ⊤ };

    fn parts<'a>(&self, alloc: Global, file: &'a [u8], layout: &Layout<'_>) -> Parts<'a> {
        parts_alone(alloc, file, layout)
    }
}

/// At most so many threads, the calling one among them.
#[derive(Drop)]
pub struct Workers<'a, R> {
    pub rt: &'a R,
    pub threads: usize,
}

impl<'b, R: Threads + Sync> Readers for Workers<'b, R> {
    ghost is_ready = { λ _. IsSync R.row };

    fn parts<'a>(&self, alloc: Global, file: &'a [u8], layout: &Layout<'_>) -> Parts<'a> {
        parts_among(self.rt, alloc, file, layout, self.threads)
    }
}

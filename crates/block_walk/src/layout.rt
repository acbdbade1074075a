//! What stands where in an index: its table of contents, its symbols, its series entries.

ghost use Rattle.std.specs.Prelude.{◌≡◌, Ok, IfOk};
ghost use Rattle.block_walk.specs.IndexFile.Outcome.{Gives};
ghost use Rattle.block_walk.specs.IndexFile.Layout as layout;
ghost use Rattle.block_walk.specs.IndexFile.Reading.{layout_of};
ghost use Rattle.block_walk.specs.IndexFile.Grammar.{IsLayout};
ghost use Rattle.block_walk.specs.IndexFile.Seen.{seen};
ghost use Rattle.block_walk.specs.IndexFile.Sound.{IsSoundLayout};

use crate::contents::{Contents, contents_of, series_end};
use crate::entries::{Entry, entries_of};
use crate::error::WalkError;
use crate::framed::frame_of;
use crate::symbols::symbols_of;
use std::alloc::Global;

/// An index, by the places of its parts in the file.
#[derive(Drop)]
pub struct Layout<'a> {
    pub contents: Contents,
    pub symbols: Vec<&'a str>,
    pub symbols_end: usize,
    pub entries: Vec<Entry<'a>>,
}

#[tactic(auto, unfolding(crate::specs::IndexFile::Reading::layout_of))]
fn layout_of(alloc: Global, file: &[u8]) -> Result<Layout<'_>, WalkError>
    ensures { Gives seen result (layout_of file.now) }
{
    let contents = contents_of(file)?;
    let series = contents.series as usize;
    let end = series_end(contents) as usize;
    let (content, _) = frame_of(&file[5..series], WalkError::SymbolsCrc)?;
    let symbols_end = content.len() + 13;
    let symbols = symbols_of(alloc, content)?;
    let entries = entries_of(alloc, file, (series + 15) / 16 * 16, end)?;
    Ok(Layout {
        contents,
        symbols,
        symbols_end,
        entries,
    })
}

/// The layout of an index, or the first of the checks `I15` (length), `I1` to `I8` that fails.
pub(crate) fn read_layout(alloc: Global, file: &[u8]) -> Result<Layout<'_>, WalkError>
    // The first check that fails is answered.
    ensures exact { Gives seen result (layout_of file.now) }
    // What is given is laid out so.
    ensures found { IfOk result (λ o. IsLayout file.now (seen o)) }
    // What is laid out so is given, unless memory runs out.
    ensures only { (x : layout.Layout) → IsLayout file.now x → Gives seen result (Ok x) }
    // What later checks build on.
    ensures sound { IfOk result (λ o. IsSoundLayout file.now o) }
{
    layout_of(alloc, file)
}

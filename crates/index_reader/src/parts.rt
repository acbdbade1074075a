//! What is read of an index after its layout: its lists, and the bodies of its series. Neither
//! depends on the other.

ghost use Rattle.std.specs.Prelude.{length};
ghost use Rattle.index_reader.specs.CheckedFile.{IsSoundLayout, layout_seen};
ghost use Rattle.index_reader.specs.Layout.{IsPlaced};
ghost use Rattle.index_reader.specs.Outcome.{Gives};
ghost use Rattle.index_reader.specs.Reading.Whole.{bodies_of, postings_of};
ghost use Rattle.index_reader.specs.Seen.{bytes_of, entries_seen, table_seen};
ghost use Rattle.index_reader.specs.Shared.{AreBodiesOf, AreBodiesIn, AreListsIn};

use crate::bodies::{Bodies, is_rising};
use crate::error::IndexError;
use crate::layout::{Layout, TableOfContents, series_end};
use crate::offset_table::{table_content_of, table_of};
use crate::postings::{PostingsTable, lists_of};
use crate::series_entries::gaps_are_zero;
use crate::symbols::{Symbols, copy_symbols};
use std::alloc::Global;

/// The bodies that were read, with nothing but zeros between their entries, and in their order.
#[tactic(auto, using(crate::proofs::Sound::sets_are), unfolding(crate::specs::Reading::Whole::bodies_of))]
pub fn check_bodies(
    file: &[u8],
    layout: &Layout<'_>,
    read: Result<Bodies, IndexError>,
) -> Result<Bodies, IndexError>
    requires sound { IsSoundLayout file.now layout.now }
    requires bodies { AreBodiesOf (bytes_of layout.now.symbols.texts.items)
        (entries_seen layout.now.entries.items) read }
    ensures { AreBodiesIn file.now layout.now result }
{
    let bodies = read?;
    let end = series_end(layout.contents) as usize;
    if !gaps_are_zero(file, layout.symbols_end, end, &layout.entries) {
        return Err(IndexError::Series);
    }
    if !is_rising(&bodies) {
        return Err(IndexError::SeriesOrder);
    }
    Ok(bodies)
}

#[tactic(auto, unfolding(crate::specs::Reading::Whole::postings_of))]
fn postings_of(
    alloc: Global,
    file: &[u8],
    t: TableOfContents,
) -> Result<PostingsTable<'_>, IndexError>
    requires { IsPlaced t (length file.now) }
    ensures { Gives (λ x. (table_seen x.entries.items, bytes_of x.lists.items)) result
        (postings_of file.now t) }
{
    let content = table_content_of(file, t)?;
    let end = if t.label_offsets == 0 {
        t.postings_offsets
    } else {
        t.label_offsets
    };
    let entries = table_of(alloc, t.postings, end, content)?;
    let lists = lists_of(alloc, file, end as usize, &entries)?;
    Ok(PostingsTable { entries, lists })
}

/// The table with its lists, and the symbols as texts of their own.
#[derive(Drop)]
pub struct Listed<'a> {
    pub table: PostingsTable<'a>,
    pub symbols: Symbols,
}

/// The table and its lists, in place in the file.
pub fn lists_in<'a>(
    alloc: Global,
    file: &'a [u8],
    layout: &Layout<'_>,
) -> Result<Listed<'a>, IndexError>
    requires { IsPlaced layout.now.contents (length file.now) }
    ensures { AreListsIn file.now layout.now result }
{
    let table = postings_of(alloc, file, layout.contents)?;
    let symbols = copy_symbols(alloc, &layout.symbols)?;
    Ok(Listed { table, symbols })
}

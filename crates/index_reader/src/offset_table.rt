//! The offset table: for each pair where the section of its list stands.

ghost use Rattle.std.specs.List.{list_all};
ghost use Rattle.std.specs.Prelude.{◌≡◌, ◌<◌, ◌≤◌, length, nat_lt, slice_get, Some, All, IsTrue};
ghost use Rattle.std.specs.Prelude.{IfOk, nat_le, ◌&&◌};
ghost use Rattle.index_reader.specs.Layout.{rises, IsPlaced, is_before, is_within};
ghost use Rattle.index_reader.specs.Outcome.{Gives};
ghost use Rattle.index_reader.specs.Seen.{table_entry_seen, table_seen};
ghost use Rattle.index_reader.specs.Reading.Steps.{steps};
ghost use Rattle.index_reader.specs.Reading.Table.{text_at, table_entry_at, table_at};
ghost use Rattle.index_reader.specs.Reading.Table.{label_offsets_at, table_content_at};

use crate::error::IndexError;
use crate::layout::{TableOfContents, frame_of};
use std::alloc::Global;
use std::cmp::Ordering;
use wire::Cut;

/// An entry of the table.
#[derive(Clone, Copy, Debug)]
pub struct TableEntry<'a> {
    pub name: &'a [u8],
    pub value: &'a [u8],
    pub offset: u64,
}

#[tactic(auto, unfolding(crate::specs::Reading::Table::text_at))]
fn read_text<'a>(cut: &mut Cut<'a>) -> Result<&'a [u8], IndexError>
    ensures { Gives (λ x. (x.now, cut.new)) result (text_at cut.old) }
{
    let len = cut.uvarint().or(Err(IndexError::Offsets))?;
    cut.bytes(len as usize).or(Err(IndexError::Offsets))
}

#[tactic(auto, unfolding(crate::specs::Reading::Table::table_entry_at))]
fn read_entry<'a>(cut: &mut Cut<'a>) -> Result<TableEntry<'a>, IndexError>
    ensures { Gives (λ x. (table_entry_seen x, cut.new)) result (table_entry_at cut.old) }
{
    let tag = cut.u8().or(Err(IndexError::Offsets))?;
    if tag != 2 {
        return Err(IndexError::Offsets);
    }
    let name = read_text(cut)?;
    let value = read_text(cut)?;
    let offset = cut.uvarint().or(Err(IndexError::Offsets))?;
    Ok(TableEntry {
        name,
        value,
        offset,
    })
}

fn read_entries<'a>(
    alloc: Global,
    count: u32,
    cut: &mut Cut<'a>,
) -> Result<Vec<TableEntry<'a>>, IndexError>
    ensures { Gives (λ v. (table_seen v.items, cut.new)) result
        (steps table_entry_at count cut.old) }
{
    let mut table = Vec::new(alloc);
    for _ in 0..count {
        table.push(read_entry(cut)?)?;
    }
    Ok(table)
}

fn is_before(a: &TableEntry<'_>, b: &TableEntry<'_>) -> bool
    ensures { result ≡ is_before (table_entry_seen a.now) (table_entry_seen b.now) }
{
    match a.name.cmp(b.name) {
        Ordering::Equal => matches!(a.value.cmp(b.value), Ordering::Less),
        other => matches!(other, Ordering::Less),
    }
}

pub fn table_entry_at<'a>(table: &[TableEntry<'a>], i: usize) -> TableEntry<'a>
    requires { i < length table.now }
    ensures seen { slice_get (table_seen table.now) i ≡ Some (table_entry_seen result) }
    ensures value { slice_get table.now i ≡ Some result }
{
    table[i]
}

fn is_rising(table: &[TableEntry<'_>]) -> bool
    ensures { result ≡ rises is_before (table_seen table.now) }
{
    table.is_sorted_by(is_before)
}

fn all_within(table: &[TableEntry<'_>], from: u64, to: u64) -> bool
    ensures { result ≡ list_all (λ l. nat_le from l.offset && nat_lt l.offset to) table.now }
{
    table
        .iter()
        .all(|listed| (from <= listed.offset) & (listed.offset < to))
}

#[tactic(auto, using(crate::proofs::Within::all_map, crate::proofs::Within::all_le))]
fn are_within(table: &[TableEntry<'_>], from: u64, to: u64) -> bool
    ensures exact { result ≡ list_all (is_within from to) (table_seen table.now) }
    ensures fits { IsTrue result → All (λ l. l.offset ≤ to) table.now }
{
    all_within(table, from, to)
}

/// The entries of the table.
#[tactic(auto, unfolding(crate::specs::Reading::Table::table_at))]
pub fn table_of(
    alloc: Global,
    from: u64,
    to: u64,
    content: &[u8],
) -> Result<Vec<TableEntry<'_>>, IndexError>
    ensures exact { Gives (λ v. table_seen v.items) result (table_at from to content.now) }
    ensures within { IfOk result (λ v. All (λ l. l.offset ≤ to) v.items) }
{
    let mut cut = Cut::new(content);
    let count = cut.be32().or(Err(IndexError::Offsets))?;
    let table = read_entries(alloc, count, &mut cut)?;
    let whole = cut.is_empty() & is_rising(&table) & are_within(&table, from, to);
    if !whole {
        return Err(IndexError::Offsets);
    }
    Ok(table)
}

fn label_offsets_of(file: &[u8], t: TableOfContents) -> Result<&[u8], IndexError>
    requires { IsPlaced t (length file.now) }
    ensures { Gives (λ x. x.now) result (label_offsets_at file.now t) }
{
    if t.label_offsets == 0 {
        return Ok(&[]);
    }
    let (content, _) = frame_of(
        &file[t.label_offsets as usize..t.postings_offsets as usize],
        IndexError::Offsets,
    )?;
    Ok(content)
}

/// The content of the table.
#[tactic(auto, unfolding(crate::specs::Reading::Table::table_content_at))]
pub fn table_content_of(file: &[u8], t: TableOfContents) -> Result<&[u8], IndexError>
    requires { IsPlaced t (length file.now) }
    ensures { Gives (λ x. x.now) result (table_content_at file.now t) }
{
    label_offsets_of(file, t)?;
    let (content, rest) = frame_of(
        &file[t.postings_offsets as usize..file.len() - 52],
        IndexError::Offsets,
    )?;
    if !rest.is_empty() {
        return Err(IndexError::Offsets);
    }
    Ok(content)
}

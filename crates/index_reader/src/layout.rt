//! The layout of an index: its head, its table of contents, and where its symbols and its series
//! entries stand.

ghost use Rattle.std.specs.Prelude.{◌≡◌, ◌+◌, ◌≤◌, length, IfOk, ◌==◌, Ok, drop, take};
ghost use Rattle.byteorder.specs.Endian.{big_number};
ghost use Rattle.wire.specs.Checksum.{crc32c};
ghost use Rattle.index_reader.specs.Reading.Whole.{layout_of};
ghost use Rattle.index_reader.specs.CheckedFile.{IsSoundLayout, layout_seen};
ghost use Rattle.index_reader.specs.Reading.Frames.{checked_at, frame_at};
ghost use Rattle.index_reader.specs.Grammar.{IsLayout};
ghost use Rattle.index_reader.specs.Reading.Head.{contents_at, contents_of, in_order, head_of};
ghost use Rattle.index_reader.specs.Layout.{series_end, IsPlaced};
ghost use Rattle.index_reader.specs.Outcome.{Gives};
ghost use Rattle.index_reader.specs.Layout as layout;

use crate::error::IndexError;
use crate::series_entries::{SeriesEntry, entries_of};
use crate::symbols::{SymbolTable, symbols_of};
use byteorder::{BigEndian, ByteOrder};
use std::alloc::Global;
use wire::{Cut, crc32c};

/// Where the parts of an index stand.
#[derive(Clone, Copy, Debug)]
pub struct TableOfContents {
    pub symbols: u64,
    pub series: u64,
    pub label_indices: u64,
    pub label_offsets: u64,
    pub postings: u64,
    pub postings_offsets: u64,
}

/// The longest file that is read, in bytes.
pub const LIMIT: usize = 0x4000_0000;

/// The table of contents, the symbols and where they end, and the series entries.
#[derive(Drop)]
pub struct Layout<'a> {
    pub contents: TableOfContents,
    pub symbols: SymbolTable<'a>,
    pub symbols_end: usize,
    pub entries: Vec<SeriesEntry<'a>>,
}

fn be64_at(bytes: &[u8], at: usize) -> u64
    requires { at + 8 ≤ length bytes.now }
    ensures { result ≡ big_number 8 (drop at bytes.now) }
{
    let (_, rest) = bytes.split_at(at);
    BigEndian::read_u64(rest)
}

fn is_checked(table: &[u8]) -> bool
    requires { length table.now ≡ 52 }
    ensures { result ≡ (big_number 4 (drop 48 table.now) == crc32c (take 48 table.now)) }
{
    let (front, back) = table.split_at(48);
    BigEndian::read_u32(back) == crc32c(front)
}

fn contents_at(table: &[u8]) -> TableOfContents
    requires { length table.now ≡ 52 }
    ensures { result ≡ contents_at table.now }
{
    TableOfContents {
        symbols: be64_at(table, 0),
        series: be64_at(table, 8),
        label_indices: be64_at(table, 16),
        label_offsets: be64_at(table, 24),
        postings: be64_at(table, 32),
        postings_offsets: be64_at(table, 40),
    }
}

#[tactic(auto, unfolding(crate::specs::Reading::Head::contents_of))]
fn contents_of(table: &[u8]) -> Result<TableOfContents, IndexError>
    requires { length table.now ≡ 52 }
    ensures { Gives (λ t. t) result (contents_of table.now) }
{
    if !is_checked(table) {
        return Err(IndexError::ContentsCrc);
    }
    Ok(contents_at(table))
}

fn is_in_order(t: TableOfContents, end: u64) -> bool
    ensures { result ≡ in_order t end }
{
    (t.symbols == 5)
        & (5 < t.series)
        & (t.series <= t.postings)
        & (t.postings <= t.postings_offsets)
        & (t.postings_offsets < end)
        & ((t.label_indices == 0)
            | ((t.series <= t.label_indices) & (t.label_indices <= t.postings)))
        & ((t.label_offsets == 0)
            | ((t.postings <= t.label_offsets) & (t.label_offsets <= t.postings_offsets)))
}

#[tactic(auto, unfolding(crate::specs::Reading::Head::head_of))]
fn head_of(file: &[u8]) -> Result<TableOfContents, IndexError>
    ensures { Gives (λ t. t) result (head_of file.now) }
{
    if file.len() > LIMIT {
        return Err(IndexError::Limit);
    }
    if file.len() < 57 {
        return Err(IndexError::TooShort);
    }
    let has_magic = (file[0] == 0xBA) & (file[1] == 0xAA) & (file[2] == 0xD7) & (file[3] == 0x00);
    if !has_magic {
        return Err(IndexError::Magic);
    }
    if file[4] != 2 {
        return Err(IndexError::Version);
    }
    let end = file.len() - 52;
    let (_, table) = file.split_at(end);
    let contents = contents_of(table)?;
    if !is_in_order(contents, end as u64) {
        return Err(IndexError::ContentsOrder);
    }
    Ok(contents)
}

fn check_head(file: &[u8]) -> Result<TableOfContents, IndexError>
    ensures exact { Gives (λ t. t) result (head_of file.now) }
    ensures fits { IfOk result (λ t. IsPlaced t (length file.now)) }
{
    head_of(file)
}

/// Content of this length with its checksum after it, and what stands after both.
#[tactic(auto, unfolding(crate::specs::Reading::Frames::checked_at))]
pub fn checked_of(len: u64, bytes: &[u8], fault: IndexError) -> Result<(&[u8], &[u8]), IndexError>
    ensures { Gives (λ x. (x.0.now, x.1.now)) result (checked_at fault (len, bytes.now)) }
{
    let mut cut = Cut::new(bytes);
    let content = cut.bytes(len as usize).or(Err(fault))?;
    let sum = cut.be32().or(Err(fault))?;
    if sum != crc32c(content) {
        return Err(fault);
    }
    Ok((content, cut.rest()))
}

/// Four bytes of length, the content, its checksum; and what stands after them.
#[tactic(auto, unfolding(crate::specs::Reading::Frames::frame_at))]
pub fn frame_of(bytes: &[u8], fault: IndexError) -> Result<(&[u8], &[u8]), IndexError>
    ensures { Gives (λ x. (x.0.now, x.1.now)) result (frame_at fault bytes.now) }
{
    let mut cut = Cut::new(bytes);
    let len = cut.be32().or(Err(fault))?;
    checked_of(u64::from(len), cut.rest(), fault)
}

/// Where the series entries end.
pub fn series_end(t: TableOfContents) -> u64
    ensures { result ≡ series_end t }
{
    if t.label_indices == 0 {
        t.postings
    } else {
        t.label_indices
    }
}

#[tactic(auto, unfolding(crate::specs::Reading::Whole::layout_of))]
fn layout_of(alloc: Global, file: &[u8]) -> Result<Layout<'_>, IndexError>
    ensures { Gives layout_seen result (layout_of file.now) }
{
    let contents = check_head(file)?;
    let series = contents.series as usize;
    let end = series_end(contents) as usize;
    let (content, _) = frame_of(&file[5..series], IndexError::SymbolsCrc)?;
    let symbols_end = content.len() + 13;
    let symbols = symbols_of(alloc, content)?;
    let entries = entries_of(alloc, file, (series + 15) / 16 * 16, end)?;
    Ok(Layout {
        contents,
        symbols,
        symbols_end,
        entries,
    })
}

/// The checks up to those of the series entries.
pub fn read_layout(alloc: Global, file: &[u8]) -> Result<Layout<'_>, IndexError>
    // What is opened is laid out so.
    ensures found { IfOk result (λ o. IsLayout file.now (layout_seen o)) }
    // What is laid out so is opened, unless memory runs out.
    ensures only { (x : layout.Layout) → IsLayout file.now x → Gives layout_seen result (Ok x) }
    // The first check that fails is answered.
    ensures exact { Gives layout_seen result (layout_of file.now) }
    // What later checks build on.
    ensures sound { IfOk result (λ o. IsSoundLayout file.now o) }
{
    layout_of(alloc, file)
}

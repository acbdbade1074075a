//! The lists of references, checked in their sections and read one reference at a time.

ghost use Rattle.std.specs.Prelude.{◌≡◌, ◌+◌, ◌-◌, ◌<◌, ◌≤◌, ◌^◌, length, nat_lt, slice_get, Some};
ghost use Rattle.std.specs.Prelude.{All, ◌%◌, ◌/◌, min};
ghost use Rattle.index_reader.specs.Layout.{rises};
ghost use Rattle.index_reader.specs.Outcome.{Gives};
ghost use Rattle.index_reader.specs.Reading.Postings.{section_at, references_at, lists_at};
ghost use Rattle.index_reader.specs.References.{references_in};
ghost use Rattle.index_reader.specs.Seen.{bytes_of, table_entry_seen, table_seen};
ghost use Rattle.index_reader.specs.Reading.Steps.{each};

use crate::error::IndexError;
use crate::layout::frame_of;
use crate::offset_table::{TableEntry, table_entry_at};
use byteorder::{BigEndian, ByteOrder};
use labels::SeriesRef;
use std::alloc::Global;
use std::marker::Model;
use wire::Cut;

/// References of four bytes each, and how many of them were read. They are seen as the references
/// and the count.
#[derive(Drop)]
pub struct Entries<'a> {
    bytes: &'a [u8],
    reads: u64,
}

impl<'a> Model for Entries<'a> {
    ghost use Rattle.std.specs.Prelude.{◌≡◌, ◌%◌, ℕ, List, length};

    ghost Value = { List ℕ × ℕ };

    ghost use Rattle.index_reader.specs.References.{references_in};

    ghost view = { λ e. (references_in e.bytes.now, e.reads) };

    ghost invariant = { λ e. length e.bytes.now % 4 ≡ 0 };
}

#[tactic(auto, using(crate::proofs::WordsAt::of_words))]
pub fn word_at(bytes: &[u8], i: usize) -> u32
    requires { i < length bytes.now / 4 }
    ensures { slice_get (references_in bytes.now) i ≡ Some result }
{
    let (_, rest) = bytes.split_at(4 * i);
    BigEndian::read_u32(rest)
}

impl<'a> Entries<'a> {
    /// The references that these bytes hold, none of them read yet.
    pub(crate) fn new(bytes: &'a [u8]) -> Entries<'a>
        requires { length bytes.now % 4 ≡ 0 }
        ensures { result ≡ (references_in bytes.now, 0) }
    {
        Entries { bytes, reads: 0 }
    }

    /// How many references there are. It reads none.
    #[tactic(auto, using(crate::proofs::WordsAt::of_words))]
    pub fn len(&self) -> usize
        ensures { result ≡ length self.now.0 }
    {
        self.bytes.len() / 4
    }

    /// Reads the reference at a place, from 0.
    #[tactic(auto, using(crate::proofs::WordsAt::of_words))]
    pub fn get(&mut self, i: usize) -> SeriesRef
        requires { i < length self.old.0 }
        ensures value { slice_get self.old.0 i ≡ Some result }
        ensures counted { self.new ≡ (self.old.0, min (self.old.1 + 1) (2 ^ 64 - 1)) }
        ensures risen { self.old.1 ≤ self.new.1 }
    {
        let reference = word_at(self.bytes, i);
        self.reads = self.reads.saturating_add(1);
        SeriesRef::new(reference)
    }

    /// How many were read so far, up to the greatest number.
    pub fn reads(&self) -> u64
        ensures { result ≡ self.now.1 }
    {
        self.reads
    }
}

#[tactic(auto, unfolding(crate::specs::Reading::Postings::section_at))]
fn section_of<'a>(
    file: &'a [u8],
    to: usize,
    listed: &TableEntry<'_>,
) -> Result<&'a [u8], IndexError>
    requires within { listed.now.offset ≤ to }
    requires inside { to ≤ length file.now }
    ensures { Gives (λ x. x.now) result (section_at file.now to (table_entry_seen listed.now)) }
{
    let (content, _) = frame_of(&file[listed.offset as usize..to], IndexError::PostingsCrc)?;
    Ok(content)
}

fn is_less(a: u32, b: u32) -> bool
    ensures { result ≡ nat_lt a b }
{
    a < b
}

fn is_rising(bytes: &[u8]) -> bool
    ensures { result ≡ rises nat_lt (references_in bytes.now) }
{
    let len = bytes.len() / 4;
    let mut at = 1;
    while at < len {
        if !is_less(word_at(bytes, at - 1), word_at(bytes, at)) {
            return false;
        }
        at += 1;
    }
    true
}

#[tactic(auto, unfolding(crate::specs::Reading::Postings::references_at))]
fn references_of(content: &[u8]) -> Result<&[u8], IndexError>
    ensures { Gives (λ x. x.now) result (references_at content.now) }
{
    let mut cut = Cut::new(content);
    let count = cut.be32().or(Err(IndexError::Postings))?;
    let rest = cut.rest();
    let whole = (rest.len() as u64 == 4 * u64::from(count)) & is_rising(rest);
    if !whole {
        return Err(IndexError::Postings);
    }
    Ok(rest)
}

fn sections_of<'a>(
    alloc: Global,
    file: &'a [u8],
    to: usize,
    table: &[TableEntry<'_>],
) -> Result<Vec<&'a [u8]>, IndexError>
    requires within { All (λ l. l.offset ≤ to) table.now }
    requires inside { to ≤ length file.now }
    ensures { Gives (λ v. bytes_of v.items) result
        (each (section_at file.now to) (table_seen table.now)) }
{
    let mut contents = Vec::with_capacity(alloc, table.len())?;
    for at in 0..table.len() {
        let listed = table_entry_at(table, at);
        let content = section_of(file, to, &listed)?;
        contents.push(content)?;
    }
    Ok(contents)
}

/// The list at a place.
pub fn slice_at<'a>(contents: &[&'a [u8]], i: usize) -> &'a [u8]
    requires { i < length contents.now }
    ensures { slice_get (bytes_of contents.now) i ≡ Some result.now }
{
    contents[i]
}

fn references_of_each<'a>(alloc: Global, contents: &[&'a [u8]]) -> Result<Vec<&'a [u8]>, IndexError>
    ensures { Gives (λ v. bytes_of v.items) result (each references_at (bytes_of contents.now)) }
{
    let mut lists = Vec::with_capacity(alloc, contents.len())?;
    for at in 0..contents.len() {
        let list = references_of(slice_at(contents, at))?;
        lists.push(list)?;
    }
    Ok(lists)
}

/// The entries of the table of offsets, and the bytes of the references of each.
#[derive(Drop)]
pub struct PostingsTable<'a> {
    pub entries: Vec<TableEntry<'a>>,
    pub lists: Vec<&'a [u8]>,
    ghost paired: { length lists.items ≡ length entries.items },
}

/// The bytes of the references of each entry of the table.
#[tactic(auto, unfolding(crate::specs::Reading::Postings::lists_at))]
pub fn lists_of<'a>(
    alloc: Global,
    file: &'a [u8],
    to: usize,
    table: &[TableEntry<'_>],
) -> Result<Vec<&'a [u8]>, IndexError>
    requires within { All (λ l. l.offset ≤ to) table.now }
    requires inside { to ≤ length file.now }
    ensures { Gives (λ v. bytes_of v.items) result (lists_at file.now to (table_seen table.now)) }
{
    let contents = sections_of(alloc, file, to, table)?;
    references_of_each(alloc, &contents)
}

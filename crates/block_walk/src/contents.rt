//! The head of an index: its length, magic, version and table of contents.

ghost use Rattle.std.specs.Prelude.{◌≡◌, ◌+◌, ◌-◌, ◌<◌, ◌≤◌, length, drop, take, IfOk, ◌==◌};
ghost use Rattle.byteorder.specs.Endian.{big_number};
ghost use Rattle.wire.specs.Checksum.{crc32c};
ghost use Rattle.block_walk.specs.IndexFile.Outcome.{Gives};
ghost use Rattle.block_walk.specs.IndexFile.Layout.{IsPlaced, series_end};
ghost use Rattle.block_walk.specs.IndexFile.Reading.{contents_at, in_order, head_of, table_of};

use crate::error::WalkError;
use byteorder::{BigEndian, ByteOrder};
use wire::crc32c;

const LIMIT: usize = 0x4000_0000;

/// Where the parts of an index stand.
#[derive(Clone, Copy, Debug)]
pub struct Contents {
    pub symbols: u64,
    pub series: u64,
    pub label_indices: u64,
    pub label_offsets: u64,
    pub postings: u64,
    pub postings_offsets: u64,
}

fn be64_at(bytes: &[u8], at: usize) -> u64
    requires { at + 8 ≤ length bytes.now }
    ensures { result ≡ big_number 8 (drop at bytes.now) }
{
    let (_, rest) = bytes.split_at(at);
    BigEndian::read_u64(rest)
}

fn is_checked(table: &[u8]) -> bool
    requires { length table.now ≡ 52 }
    ensures { result ≡ (big_number 4 (drop 48 table.now) == crc32c (take 48 table.now)) }
{
    let (offsets, sum) = table.split_at(48);
    BigEndian::read_u32(sum) == crc32c(offsets)
}

fn contents_at(table: &[u8]) -> Contents
    requires { length table.now ≡ 52 }
    ensures { result ≡ contents_at table.now }
{
    Contents {
        symbols: be64_at(table, 0),
        series: be64_at(table, 8),
        label_indices: be64_at(table, 16),
        label_offsets: be64_at(table, 24),
        postings: be64_at(table, 32),
        postings_offsets: be64_at(table, 40),
    }
}

#[tactic(auto, unfolding(crate::specs::IndexFile::Reading::table_of))]
fn table_of(table: &[u8]) -> Result<Contents, WalkError>
    requires { length table.now ≡ 52 }
    ensures { Gives (λ t. t) result (table_of table.now) }
{
    if !is_checked(table) {
        return Err(WalkError::ContentsCrc);
    }
    Ok(contents_at(table))
}

fn is_in_order(t: Contents, end: u64) -> bool
    ensures { result ≡ in_order t end }
{
    (t.symbols == 5)
        & (5 < t.series)
        & (t.series <= t.postings)
        & (t.postings <= t.postings_offsets)
        & (t.postings_offsets < end)
        & ((t.label_indices == 0)
            | ((t.series <= t.label_indices) & (t.label_indices <= t.postings)))
        & ((t.label_offsets == 0)
            | ((t.postings <= t.label_offsets) & (t.label_offsets <= t.postings_offsets)))
}

#[tactic(auto, unfolding(crate::specs::IndexFile::Reading::head_of))]
fn head_of(file: &[u8]) -> Result<Contents, WalkError>
    ensures { Gives (λ t. t) result (head_of file.now) }
{
    if file.len() > LIMIT {
        return Err(WalkError::Limit);
    }
    if file.len() < 57 {
        return Err(WalkError::TooShort);
    }
    let has_magic = (file[0] == 0xBA) & (file[1] == 0xAA) & (file[2] == 0xD7) & (file[3] == 0x00);
    if !has_magic {
        return Err(WalkError::Magic);
    }
    if file[4] != 2 {
        return Err(WalkError::Version);
    }
    let end = file.len() - 52;
    let (_, table) = file.split_at(end);
    let contents = table_of(table)?;
    if !is_in_order(contents, end as u64) {
        return Err(WalkError::ContentsOrder);
    }
    Ok(contents)
}

/// The table of contents of an index whose head is sound.
///
/// `I15` where the file is longer than 1,073,741,824 bytes, `I1` where it has fewer than 57, `I2`,
/// `I3`, `I4` where magic, version or the table's checksum are others, `I5` where the parts do not
/// stand in their order. The first of these is answered.
pub(crate) fn contents_of(file: &[u8]) -> Result<Contents, WalkError>
    ensures exact { Gives (λ t. t) result (head_of file.now) }
    ensures placed { IfOk result (λ t. IsPlaced t (length file.now)) }
{
    head_of(file)
}

/// Where the series entries end.
pub(crate) fn series_end(t: Contents) -> u64
    ensures { result ≡ series_end t }
{
    if t.label_indices == 0 {
        t.postings
    } else {
        t.label_indices
    }
}

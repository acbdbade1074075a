//! The index file.

ghost use Rattle.std.specs.Prelude.{◌≡◌, ◌≤◌, length, IsTrue, IfOk, IfErr, OnOk};
ghost use Rattle.std.specs.List.Sorted.{IsStrictlySortedBy};
ghost use Rattle.labels.specs.Labels.{text_cmp, pair_cmp};
ghost use Rattle.labels.specs.Pairs.{texts_of};
ghost use Rattle.index_reader.specs.Seen.{bytes_of};
ghost use Rattle.block_writer.specs.InUse.{pairs_in, HoldsEachOnce};
ghost use Rattle.block_writer.specs.IndexText.{index_text, start_text, symbols_text};
ghost use Rattle.block_writer.specs.PartRows.{are_part_rows};
ghost use Rattle.block_writer.specs.Typed.{HaveTexts};
ghost use Rattle.block_writer.specs.Writing.{chunks_text};
ghost use Rattle.block_writer.specs.Written.{limit, IsReason, IsFileTooLong, IsWrittenIndex};

use crate::carriers::lists_of;
use crate::entries::{pad, put_entries};
use crate::error::WriteError;
use crate::limits::{MAX_LEN, within};
use crate::part_rows::PartRows;
use crate::sections::{put_frame, put_postings, put_symbol};
use crate::symbols::{pairs_of, symbols_of};
use labels::Row;
use std::alloc::{AllocError, Global};
use wire::{put_be32, put_bytes};

const HEAD: [u8; 5] = [0xBA, 0xAA, 0xD7, 0x00, 0x02];

/// How many bytes an index mostly has for each series, with its part of the lists.
const ROOM: usize = 160;

/// The bytes of the index of rows whose chunks file is no longer than 1 GiB: exactly the symbols in
/// use, each once; the series in the order of the rows, each at a multiple of 16; the postings of
/// the empty pair and of exactly the pairs in use. `N1` where it would be longer than 1,073,741,824
/// bytes. It takes time in proportion to the rows' labels, times the logarithm of their count, and
/// memory in proportion to the labels and the chunks.
pub(crate) fn index_file(alloc: Global, rows: &PartRows) -> Result<Vec<u8>, WriteError>
    requires { length (chunks_text rows.now) ≤ limit }
    ensures written { IfOk result (λ file. IsWrittenIndex rows.now file.items) }
    ensures short { IfOk result (λ file. length file.items ≤ limit) }
    ensures reason { IfErr result (IsFileTooLong rows.now) }
    ensures typed { OnOk result (HaveTexts rows.now) }
    ensures part { OnOk result (IsTrue (are_part_rows rows.now)) }
{
    let rows = rows.rows();
    let pairs = pairs_of(alloc, rows)?;
    let symbols = symbols_of(alloc, rows, &pairs)?;
    let file = spell_index(alloc, &symbols, &pairs, rows)?;
    if file.len() > MAX_LEN {
        return Err(WriteError::Limit);
    }
    Ok(file)
}

fn spell_index(
    alloc: Global,
    symbols: &[&str],
    pairs: &[(&str, &str)],
    rows: &[Row],
) -> Result<Vec<u8>, WriteError>
    requires ascending { IsStrictlySortedBy text_cmp (bytes_of symbols.now) }
    requires held { HoldsEachOnce pair_cmp (pairs_in rows.now) (texts_of pairs.now) }
    requires within { length (chunks_text rows.now) ≤ limit }
    ensures text { IfOk result (λ file.
        file.items ≡ index_text (bytes_of symbols.now) (texts_of pairs.now) rows.now) }
    ensures reason { IfErr result
        (IsReason (index_text (bytes_of symbols.now) (texts_of pairs.now) rows.now)) }
{
    let mut file = start_of(alloc, symbols, rows.len())?;
    let series = file.len();
    let references = put_entries(alloc, &mut file, symbols, rows)?;
    let lists = lists_of(alloc, pairs, rows, &references)?;
    put_postings(alloc, &mut file, series, pairs, &references, &lists)?;
    Ok(file)
}

// What stands before the series, with room for so many.
fn start_of(alloc: Global, symbols: &[&str], series: usize) -> Result<Vec<u8>, WriteError>
    ensures text { IfOk result (λ file. file.items ≡ start_text (bytes_of symbols.now)) }
    ensures reason { IfErr result (IsReason (start_text (bytes_of symbols.now))) }
{
    let content = symbols_content(alloc, symbols)?;
    let mut file = Vec::with_capacity(alloc, series.saturating_mul(ROOM))?;
    put_bytes(&mut file, &HEAD)?;
    put_frame(&mut file, &content)?;
    pad(&mut file)?;
    Ok(file)
}

fn symbols_content(alloc: Global, symbols: &[&str]) -> Result<Vec<u8>, WriteError>
    ensures text { IfOk result (λ content. content.items ≡ symbols_text (bytes_of symbols.now)) }
    ensures reason { IfErr result (IsReason (symbols_text (bytes_of symbols.now))) }
{
    let mut content = Vec::new(alloc);
    put_be32(&mut content, within(symbols.len())?)?;
    for symbol in symbols {
        put_symbol(&mut content, symbol)?;
    }
    Ok(content)
}

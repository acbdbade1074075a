//! What stands after the series: the postings sections, the table of their offsets, the table of
//! contents.

ghost use Rattle.std.specs.Prelude.{◌≡◌, ◌≤◌, ◌++◌, ◌∷◌, length, drop, string_bytes, OnOk, IfOk};
ghost use Rattle.std.specs.Prelude.{IfErr};
ghost use Rattle.std.specs.List.{flat_map};
ghost use Rattle.byteorder.specs.Endian.{big_bytes};
ghost use Rattle.labels.specs.Pairs.{texts_of};
ghost use Rattle.wire.specs.Checksum.{checked, crc32c};
ghost use Rattle.index_reader.specs.Grammar.{frame, contents_text, symbol};
ghost use Rattle.index_reader.specs.Spelled.{list_text, listed_text, table_text};
ghost use Rattle.block_writer.specs.IndexText.{contents_of, listed_from, listed_pairs, lists_in};
ghost use Rattle.block_writer.specs.IndexText.{postings_text, section_text};
ghost use Rattle.block_writer.specs.Written.{IsReason};

use crate::error::WriteError;
use crate::limits::within;
use std::alloc::{AllocError, Global};
use wire::{crc32c, put_be32, put_be64, put_bytes, put_u8, put_uvarint};

/// Appends the sections of the empty pair and of all pairs, the table of their offsets and the
/// table of contents, where the series stand from a place on.
#[tactic(auto, unfolding(crate::specs::IndexText::postings_text))]
pub fn put_postings(
    alloc: Global,
    out: &mut Vec<u8>,
    series: usize,
    pairs: &[(&str, &str)],
    all: &[u32],
    lists: &[Vec<u32>],
) -> Result<(), WriteError>
    requires { length lists.now ≡ length pairs.now }
    ensures text { OnOk result (out.new.items
        ≡ out.old.items ++ postings_text series (length out.old.items)
        (listed_pairs (texts_of pairs.now)) (all.now ∷ lists_in lists.now)) }
    ensures reason { IfErr result (IsReason (postings_text series (length out.old.items)
        (listed_pairs (texts_of pairs.now)) (all.now ∷ lists_in lists.now))) }
{
    let postings = out.len();
    let table = put_sections(alloc, out, pairs, all, lists)?;
    let offsets = out.len();
    put_frame(out, &table)?;
    put_contents(out, series, postings, offsets)?;
    Ok(())
}

// Appends the sections, and gives the content of the table of their offsets.
fn put_sections(
    alloc: Global,
    out: &mut Vec<u8>,
    pairs: &[(&str, &str)],
    all: &[u32],
    lists: &[Vec<u32>],
) -> Result<Vec<u8>, WriteError>
    requires { length lists.now ≡ length pairs.now }
    ensures text { OnOk result (out.new.items
        ≡ out.old.items ++ flat_map section_text (all.now ∷ lists_in lists.now)) }
    ensures table { IfOk result (λ t. t.items ≡ table_text (listed_from (length out.old.items)
        (listed_pairs (texts_of pairs.now)) (all.now ∷ lists_in lists.now))) }
    ensures reason { IfErr result
        (IsReason (flat_map section_text (all.now ∷ lists_in lists.now))) }
{
    let mut table = Vec::new(alloc);
    put_be32(&mut table, within(pairs.len() + 1)?)?;
    put_listed(&mut table, out, "", "", all)?;
    for i in 0..pairs.len() {
        let (name, value) = pairs[i];
        put_listed(&mut table, out, name, value, &lists[i])?;
    }
    Ok(table)
}

// Appends the section of a pair, and its entry to the table.
fn put_listed(
    table: &mut Vec<u8>,
    out: &mut Vec<u8>,
    name: &str,
    value: &str,
    references: &[u32],
) -> Result<(), WriteError>
    ensures listed { OnOk result (table.new.items ≡ table.old.items ++ listed_text
        record { name = name.now; value = value.now; offset = length out.old.items }) }
    ensures text { OnOk result (out.new.items ≡ out.old.items ++ section_text references.now) }
    ensures reason { IfErr result (IsReason (section_text references.now)) }
{
    put_u8(table, 2)?;
    put_symbol(table, name)?;
    put_symbol(table, value)?;
    put_uvarint(table, out.len() as u64)?;
    put_section(out, references)
}

fn put_section(out: &mut Vec<u8>, references: &[u32]) -> Result<(), WriteError>
    ensures text { OnOk result (out.new.items ≡ out.old.items ++ section_text references.now) }
    ensures reason { IfErr result (IsReason (section_text references.now)) }
{
    let count = within(references.len())?;
    let len = within(4 * references.len() + 4)?;
    put_be32(out, len)?;
    let start = out.len();
    put_be32(out, count)?;
    put_references(out, references)?;
    put_sum(out, start)?;
    Ok(())
}

fn put_references(out: &mut Vec<u8>, references: &[u32]) -> Result<(), AllocError>
    ensures { OnOk result (out.new.items ≡ out.old.items ++ flat_map (big_bytes 4) references.now) }
{
    for reference in references {
        put_be32(out, *reference)?;
    }
    Ok(())
}

/// Appends the checksum of what stands from a place on.
pub fn put_sum(out: &mut Vec<u8>, start: usize) -> Result<(), AllocError>
    requires { start ≤ length out.old.items }
    ensures { OnOk result (out.new.items
        ≡ out.old.items ++ big_bytes 4 (crc32c (drop start out.old.items))) }
{
    let sum = crc32c(&out[start..]);
    put_be32(out, sum)
}

/// Appends the length of a content, the content and its checksum.
pub fn put_frame(out: &mut Vec<u8>, content: &[u8]) -> Result<(), WriteError>
    ensures text { OnOk result (out.new.items ≡ out.old.items ++ frame content.now) }
    ensures reason { IfErr result (IsReason content.now) }
{
    put_be32(out, within(content.len())?)?;
    put_bytes(out, content)?;
    put_be32(out, crc32c(content))?;
    Ok(())
}

/// Appends a text with its length before it.
pub fn put_symbol(out: &mut Vec<u8>, text: &str) -> Result<(), AllocError>
    ensures { OnOk result (out.new.items ≡ out.old.items ++ symbol text.now) }
{
    put_uvarint(out, text.len() as u64)?;
    put_bytes(out, text.as_bytes())
}

fn put_contents(
    out: &mut Vec<u8>,
    series: usize,
    postings: usize,
    offsets: usize,
) -> Result<(), AllocError>
    ensures { OnOk result (out.new.items
        ≡ out.old.items ++ checked (contents_text (contents_of series postings offsets))) }
{
    let start = out.len();
    put_be64(out, 5)?;
    put_be64(out, series as u64)?;
    put_be64(out, 0)?;
    put_be64(out, 0)?;
    put_be64(out, postings as u64)?;
    put_be64(out, offsets as u64)?;
    put_sum(out, start)?;
    Ok(())
}

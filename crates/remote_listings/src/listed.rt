//! The label sets of the series that answer queries.

ghost use Rattle.std.specs.Prelude.{◌≡◌, [], flat_map, fold, IfOk, OnOk};
ghost use Rattle.std.specs.List.{cons_option, filter_map};
ghost use Rattle.std.specs.BTreeSet.{insert_key};
ghost use Rattle.labels.specs.Labels.{labels_cmp};
ghost use Rattle.remote_listings.specs.Finding.{labels_of_interval};
ghost use Rattle.remote_listings.specs.Listed.{found_by, found_in, found_in_part, in_order};
ghost use Rattle.remote_listings.specs.Listed.{listed};

use block::Block;
use block_search::{SearchedPart, is_skipped};
use cover::{Interval, Verdict, cover};
use head::Snapshot;
use labels::LabelSet;
use matchers::Query;
use std::alloc::{AllocError, Global};
use std::collections::BTreeSet;

/// The label set that an interval of a certificate stands for.
fn matched<S: SearchedPart>(
    alloc: Global,
    source: &S,
    interval: &Interval,
) -> Result<Option<LabelSet>, AllocError>
    ensures { IfOk result (λ labels. labels
        ≡ labels_of_interval (S.part source.now) interval.now) }
{
    match interval.verdict {
        Verdict::Match => source.labels_of(alloc, interval.from),
        Verdict::NoSample => Ok(None),
        Verdict::Rejected(_) => Ok(None),
    }
}

/// Adds the label set of an interval, if it stands for one.
fn add_match<S: SearchedPart>(
    alloc: Global,
    sets: &mut BTreeSet<LabelSet>,
    source: &S,
    interval: &Interval,
) -> Result<(), AllocError>
    ensures { OnOk result (sets.new.keys ≡ fold (insert_key labels_cmp) sets.old.keys
        (cons_option (labels_of_interval (S.part source.now) interval.now) [])) }
{
    if let Some(labels) = matched(alloc, source, interval)? {
        sets.insert(labels)?;
    }
    Ok(())
}

/// Adds the label sets of a certificate's matches.
fn add_matches<S: SearchedPart>(
    alloc: Global,
    sets: &mut BTreeSet<LabelSet>,
    source: &S,
    certificate: &[Interval],
) -> Result<(), AllocError>
    ensures { OnOk result (sets.new.keys ≡ fold (insert_key labels_cmp) sets.old.keys
        (filter_map (labels_of_interval (S.part source.now)) certificate.now)) }
{
    for interval in certificate {
        add_match(alloc, sets, source, interval)?;
    }
    Ok(())
}

/// Adds the label sets of the series of a part that answer a query.
fn add_part<S: SearchedPart>(
    alloc: Global,
    sets: &mut BTreeSet<LabelSet>,
    source: &S,
    query: &Query,
) -> Result<(), AllocError>
    ensures { OnOk result (sets.new.keys ≡ fold (insert_key labels_cmp) sets.old.keys
        (found_in_part query.now (S.part source.now))) }
{
    let cover = cover(alloc, source, query)?;
    add_matches(alloc, sets, source, cover.certificate.as_slice())
}

/// The same of a block, which is passed over if its range has no time of the query's.
fn add_block(
    alloc: Global,
    sets: &mut BTreeSet<LabelSet>,
    block: &Block,
    query: &Query,
) -> Result<(), AllocError>
    ensures { OnOk result (sets.new.keys ≡ fold (insert_key labels_cmp) sets.old.keys
        (found_in_part query.now block.now.part)) }
{
    if is_skipped(block.range(), query) {
        return Ok(());
    }
    add_part(alloc, sets, &block.view(), query)
}

fn add_blocks(
    alloc: Global,
    sets: &mut BTreeSet<LabelSet>,
    blocks: &[Block],
    query: &Query,
) -> Result<(), AllocError>
    ensures { OnOk result (sets.new.keys ≡ fold (insert_key labels_cmp) sets.old.keys
        (flat_map (λ b. found_in_part query.now b.part) blocks.now)) }
{
    for block in blocks {
        add_block(alloc, sets, block, query)?;
    }
    Ok(())
}

/// The same of all parts.
fn add_parts(
    alloc: Global,
    sets: &mut BTreeSet<LabelSet>,
    snapshot: &Snapshot,
    query: &Query,
) -> Result<(), AllocError>
    ensures { OnOk result (sets.new.keys ≡ fold (insert_key labels_cmp) sets.old.keys
        (found_in snapshot.now query.now)) }
{
    add_blocks(alloc, sets, snapshot.blocks(), query)?;
    add_part(alloc, sets, &snapshot.head(), query)
}

fn set_of(
    alloc: Global,
    snapshot: &Snapshot,
    queries: &[Query],
) -> Result<BTreeSet<LabelSet>, AllocError>
    ensures { IfOk result (λ sets.
        sets.keys ≡ in_order labels_cmp (found_by snapshot.now queries.now)) }
{
    let mut sets = BTreeSet::new(alloc);
    for query in queries {
        add_parts(alloc, &mut sets, snapshot, query)?;
    }
    Ok(sets)
}

fn in_list(alloc: Global, sets: BTreeSet<LabelSet>) -> Result<Vec<LabelSet>, AllocError>
    ensures { IfOk result (λ all. all.items ≡ sets.keys) }
{
    sets.into_iter().collect(alloc)
}

/// The label sets of the series of a snapshot that answer one of the queries, in label order, each
/// once.
#[tactic(auto, unfolding(crate::specs::Listed::listed))]
pub fn listed(
    alloc: Global,
    snapshot: &Snapshot,
    queries: &[Query],
) -> Result<Vec<LabelSet>, AllocError>
    ensures { IfOk result (λ sets. sets.items ≡ listed snapshot.now queries.now) }
{
    let sets = set_of(alloc, snapshot, queries)?;
    in_list(alloc, sets)
}

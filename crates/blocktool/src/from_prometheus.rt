//! Blocks out of blocks of Prometheus.

use crate::command::Options;
use crate::fault::Fault;
use crate::folder::find_blocks;
use crate::plan::plan_for;
use crate::progress::Teller;
use crate::prometheus::{Segments, Source, open_source};
use crate::writing::write_planned;
use std::alloc::Global;
use std::io::Write;
use std::rt::Files;

fn open_all<'a, R: Files + AllocGlobal>(
    alloc: Global,
    rt: &'a R,
    options: &Options<'_>,
    blocks: &'a [String],
) -> Result<Vec<Source<'a, Segments<'a, R>>>, Fault> {
    let mut sources = Vec::new(alloc);
    for block in blocks {
        let source = open_source(alloc, rt, block.as_str(), options.form)?;
        sources.push(source)?;
    }
    Ok(sources)
}

/// Makes blocks out of the blocks of Prometheus that paths name. The later block wins.
pub(crate) fn from_prometheus<R: Files + AllocGlobal + Clone + Drop, W: Write, E: Write>(
    alloc: Global,
    rt: &R,
    options: &Options<'_>,
    paths: &[&str],
    out: &mut W,
    teller: &mut Teller<'_, E>,
) -> Result<(), Fault> {
    let blocks = find_blocks(alloc, rt, paths, teller)?;
    teller.is_at("reading the indexes")?;
    let sources = open_all(alloc, rt, options, blocks.as_slice())?;
    teller.is_at("counting the samples")?;
    let plan = plan_for(alloc, sources.as_slice(), options.times)?;
    let target = options.target();
    write_planned(alloc, rt, sources, &plan, &target, 0, out, teller)
}

//! How many outputs there are, and which times each has.

ghost use Rattle.std.specs.Prelude.{◌≡◌, ◌≤◌, length, IfOk};
ghost use Rattle.block_outputs.specs.Tiles.{AreTiles};
ghost use Rattle.blocktool.specs.Conversion.{Makes};

use crate::conversion::convert;
use crate::fault::Fault;
use crate::input::Input;
use crate::summary::Summary;
use crate::target::Target;
use block_folder::Disk;
use block_outputs::{Counts, Stretch};
use prometheus_block::Counted;
use std::alloc::Global;
use std::io::Write;

/// The most outputs. One answer takes no more blocks.
const MOST_OUTPUTS: usize = 63;

/// What is to be written.
#[derive(Drop)]
pub(crate) struct Plan {
    /// What the inputs count.
    pub(crate) counted: Counted,
    /// The times of each output.
    pub(crate) tiles: Vec<Stretch>,
}

/// The first and the last time that inputs may have in a range, or the range if they have none.
fn span_of<I: Input>(inputs: &[I], times: Stretch) -> Stretch {
    let mut span = None;
    for input in inputs {
        span = input.span(times, span);
    }
    span.unwrap_or(times)
}

fn count_all<I: Input>(alloc: Global, inputs: &[I], counts: &mut Counts) -> Result<Counted, Fault> {
    let mut all = Counted {
        samples: 0,
        histograms: 0,
    };
    for input in inputs {
        let counted = input.count(alloc, counts)?;
        all.samples = all.samples.saturating_add(counted.samples);
        all.histograms = all.histograms.saturating_add(counted.histograms);
    }
    Ok(all)
}

/// Counts what inputs have in a range of times, and cuts it into at most 63 outputs.
pub(crate) fn plan_for<I: Input>(alloc: Global, inputs: &[I], times: Stretch) -> Result<Plan, Fault>
    ensures tiles { IfOk result (λ plan. AreTiles times.from times.to plan.tiles.items) }
    ensures few { IfOk result (λ plan. length plan.tiles.items ≤ 63) }
{
    let mut counts = Counts::new(alloc, span_of(inputs, times))?;
    let counted = count_all(alloc, inputs, &mut counts)?;
    let tiles = counts.cut(alloc, times)?;
    if tiles.len() > MOST_OUTPUTS {
        return Err(Fault::TooMany(tiles.len()));
    }
    Ok(Plan { counted, tiles })
}

/// Writes the outputs that are planned, and the line of each. Returns what became of the samples.
/// The inputs are let go before the last is written.
pub(crate) fn make_outputs<I: Input + Drop, D: Disk, W: Write>(
    alloc: Global,
    inputs: Vec<I>,
    plan: &Plan,
    disk: &mut D,
    target: &Target<'_>,
    out: &mut W,
) -> Result<Summary, Fault>
    // The outputs are those of the planned times, and each sample that was counted is reported
    // once.
    ensures { IfOk result (λ summary. Makes I.may_give D.did inputs.items target.now.into.now
        target.now.values plan.now.tiles.items plan.now.counted summary disk.old disk.new) }
{
    let account = convert(alloc, inputs, plan.tiles.as_slice(), disk, target, out)?;
    match Summary::of(plan.counted, account) {
        Some(summary) => Ok(summary),
        None => Err(Fault::Changed),
    }
}

//! What a text says, as an input.

ghost use Rattle.std.specs.Prelude.{◌≡◌, IfOk};
ghost use Rattle.blocktool.specs.Texts.{AreInputsOf, count_within, IsGivenByText};
ghost use Rattle.blocktool.specs.Texts.{IsTold, TextsGiveTheirContent};

use crate::fault::Fault;
use crate::input::Input;
use crate::listed::Listed;
use crate::plan::plan_for;
use crate::progress::Teller;
use crate::target::Target;
use crate::writing::write_planned;
use block_outputs::{Counts, Stretch};
use exposition::Left;
use kept_samples::Tally;
use labels::Row;
use prometheus_block::Counted;
use std::alloc::{AllocError, Global};
use std::io::Write;
use std::rt::Files;

/// Rows whose times ascend, of which the first counts, samples with other values, and those of the
/// rows that were rounded. It has also the number of samples that had an exemplar, which is left.
#[derive(Drop)]
pub(crate) struct Said {
    pub(crate) listed: Listed,
    pub(crate) others: Vec<Left>,
    pub(crate) rounded: Vec<Left>,
    pub(crate) exemplars: u64,
}

// How many samples lie in a range.
fn count_within(samples: &[Left], times: Stretch) -> u64
    ensures { result ≡ count_within times.from times.to samples.now }
{
    samples.iter().filter(|sample| times.has(sample.t)).count() as u64
}

// Counts which samples with other values, and which of those that were rounded, lie in a range.
fn tell(said: &Said, times: Stretch, tally: &mut Tally)
    ensures { IsTold said.now.others.items said.now.rounded.items times tally.old tally.new }
{
    let rest = count_within(said.others.as_slice(), times);
    let rounded = count_within(said.rounded.as_slice(), times);
    tally.rest = tally.rest.saturating_add(rest);
    tally.rounded = tally.rounded.saturating_add(rounded);
}

// The rows in a range. The samples with other values that lie in it are counted.
fn rows_said(
    alloc: Global,
    said: &Said,
    times: Stretch,
    tally: &mut Tally,
) -> Result<Vec<Row>, Fault>
    ensures { IfOk result (λ rows. IsGivenByText said.now.listed.rows.items
        said.now.others.items said.now.rounded.items times rows.items tally.old tally.new) }
{
    let rows = said.listed.rows_in(alloc, times, tally)?;
    tell(said, times, tally);
    Ok(rows)
}

impl Input for Said {
    ghost may_give = { λ said times rows old new.
        IsGivenByText said.listed.rows.items said.others.items said.rounded.items times rows old
        new };

    fn rows_in(&self, alloc: Global, times: Stretch, tally: &mut Tally) -> Result<Vec<Row>, Fault> {
        rows_said(alloc, self, times, tally)
    }

    fn span(&self, times: Stretch, before: Option<Stretch>) -> Option<Stretch> {
        self.listed.span(times, before)
    }

    fn count(&self, alloc: Global, counts: &mut Counts) -> Result<Counted, Fault> {
        let counted = self.listed.count(alloc, counts)?;
        Ok(Counted {
            samples: counted.samples.saturating_add(self.others.len() as u64),
            histograms: counted.histograms,
        })
    }
}

/// What was said, and an empty input behind it, since the rows of several inputs are put in order.
fn inputs_of(alloc: Global, said: Said) -> Result<Vec<Said>, AllocError>
    ensures { IfOk result (λ inputs. AreInputsOf said inputs.items) }
{
    let mut inputs = Vec::new(alloc);
    inputs.push(said)?;
    inputs.push(Said {
        listed: Listed {
            rows: Vec::new(alloc),
        },
        others: Vec::new(alloc),
        rounded: Vec::new(alloc),
        exemplars: 0,
    })?;
    Ok(inputs)
}

/// Makes blocks of what was said in a range of times.
pub(crate) fn write_said<R: Files + AllocGlobal + Clone + Drop, W: Write, E: Write>(
    alloc: Global,
    rt: &R,
    said: Said,
    times: Stretch,
    target: &Target<'_>,
    out: &mut W,
    teller: &mut Teller<'_, E>,
) -> Result<(), Fault> {
    let exemplars = said.exemplars;
    let inputs = inputs_of(alloc, said)?;
    let plan = plan_for(alloc, inputs.as_slice(), times)?;
    write_planned(alloc, rt, inputs, &plan, target, exemplars, out, teller)
}

/// A law: a text gives of a range exactly what its rows hold in it, as a conversion asks of its
/// inputs.
pub fn texts_give_their_content()
    ensures { TextsGiveTheirContent }
{}

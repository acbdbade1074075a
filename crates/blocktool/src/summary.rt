//! What became of all samples.

ghost use Rattle.std.specs.Prelude.{IfSome};
ghost use Rattle.blocktool.specs.Conversion.{IsSummaryOf};

use crate::conversion::Account;
use block_folder::Values;
use prometheus_block::Counted;
use std::alloc::{AllocError, Global};

/// How many samples were read, and what became of them. Each is counted in exactly one of the other
/// counts. Those that were rounded are counted among the kept and the hidden, and once more.
/// Histograms are not samples.
#[derive(Clone, Copy, Debug, PartialEq, Eq, Drop)]
pub(crate) struct Summary {
    read: u64,
    kept: u64,
    stale: u64,
    rest: u64,
    deleted: u64,
    hidden: u64,
    outside: u64,
    rounded: u64,
    histograms: u64,
}

impl Summary {
    /// The summary of the counted samples, by what became of those that the outputs' times have. It
    /// is `None` if these are more than there are, as an input changed while it was read.
    pub(crate) fn of(counted: Counted, account: Account) -> Option<Summary>
        // Each sample that was read is reported once.
        ensures { IfSome result (IsSummaryOf counted account) }
    {
        let Account { tally, hidden } = account;
        let kept = tally.kept.checked_sub(hidden)?;
        let outside = counted
            .samples
            .checked_sub(tally.kept)?
            .checked_sub(tally.stale)?
            .checked_sub(tally.rest)?
            .checked_sub(tally.deleted)?;
        Some(Summary {
            read: counted.samples,
            kept,
            stale: tally.stale,
            rest: tally.rest,
            deleted: tally.deleted,
            hidden,
            outside,
            rounded: tally.rounded,
            histograms: counted.histograms,
        })
    }

    /// The summary as a line, which reports this many exemplars beside the histograms.
    pub(crate) fn line_of(
        &self,
        alloc: Global,
        digits: u32,
        values: Values,
        exemplars: u64,
    ) -> Result<String, AllocError> {
        let Summary {
            read,
            kept,
            stale,
            rest,
            deleted,
            hidden,
            outside,
            rounded,
            histograms,
        } = *self;
        let of_values = match values {
            Values::Whole => { format!(in alloc; "values times 10^{digits}, {rounded} rounded")? }
            Values::Doubles => String::from_str(alloc, "values as doubles")?,
        };
        let of_values = of_values.as_str();
        format!(in alloc;
            "read {read} samples: {kept} kept, {stale} stale, {rest} of other values, \
             {deleted} deleted, {hidden} hidden, {outside} outside; \
             {histograms} of histograms, {exemplars} exemplars left; \
             {of_values}\n"
        )
    }
}

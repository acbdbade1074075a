//! The headline: the audited answer of a store that others change at the same time.

ghost use Rattle.std.specs.Prelude.{◌≡◌, IfOk};
ghost use mathlib.Core.List.{IsPrefix};
ghost use Rattle.answers.specs.Headline.{IsHeadline};

use crate::audited::{AuditedAnswer, answer, answer_in_turn};
use crate::error::AskError;
use matchers::Query;
use snapshots::{Naming, Pass};
use std::alloc::Global;
use std::thread::Threads;

/// The audited answer of the pass's next snapshot to a query.
///
/// The list of events that the pass has seen then begins with all that it had seen, and with the
/// list of each receipt that it learnt. The rows are exactly those of what this list makes of the
/// opening's content, restricted to the matchers and the range. The answer reports each part of
/// that snapshot, with the certificate that shows that its rows are all. If no event of the list
/// joins blocks, the first blocks of the snapshot are those that the store opened with, each with
/// its range, its references and its label sets. If there is no snapshot, the error is `S1`, and
/// without memory it is `memory`; then the pass knows no less than before. It waits for nobody.
pub fn ask<J: Naming>(
    alloc: Global,
    pass: &mut Pass<J>,
    query: &Query,
) -> Result<AuditedAnswer, AskError>
    ensures headline { IfOk result (IsHeadline J.opening query.now pass.old pass.new) }
    ensures seen { IsPrefix pass.old.seen pass.new.seen }
    ensures told { pass.new.told ≡ pass.old.told }
{
    let snapshot = pass.snapshot()?;
    Ok(answer(alloc, &snapshot, query)?)
}

/// The same as [`ask`], but several threads make the rows of a part's many matches. It waits for no
/// thread but these.
pub fn ask_by<J: Naming, R: Threads + Sync>(
    rt: &R,
    alloc: Global,
    pass: &mut Pass<J>,
    query: &Query,
) -> Result<AuditedAnswer, AskError>
    ensures headline { IfOk result (IsHeadline J.opening query.now pass.old pass.new) }
    ensures seen { IsPrefix pass.old.seen pass.new.seen }
    ensures told { pass.new.told ≡ pass.old.told }
{
    let snapshot = pass.snapshot()?;
    Ok(answer_in_turn(rt, alloc, &snapshot, query)?)
}

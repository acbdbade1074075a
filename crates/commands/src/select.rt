//! The answer to a selection over the blocks in directories.

ghost use Rattle.std.specs.Prelude.{IfOk, IfErr, OnOk};
ghost use Rattle.commands.specs.Reading.{paths_of};
ghost use Rattle.commands.specs.Selecting.{IsQueryOf, IsSelectionFault, IsSelectFault, KeepsAt};
ghost use Rattle.commands.specs.Selecting.{WritesSelection};

use crate::command::Selection;
use crate::fault::Fault;
use crate::files::ReadFiles;
use crate::opening::open_store;
use crate::writing::write_answer;
use matchers::{Query, Selector};
use std::alloc::Global;
use std::io::Write;
use std::thread::Threads;

/// The query of a selection: the selector is checked, and then the range.
fn query_of(alloc: Global, selection: Selection<'_>) -> Result<Query, Fault>
    ensures ok { IfOk result (λ q. IsQueryOf selection.entry q) }
    ensures err { IfErr result (λ fault. IsSelectionFault selection.entry fault) }
{
    let matchers = Selector::parse(alloc, selection.selector)?;
    Ok(Query::new(matchers, selection.from, selection.to)?)
}

/// Writes the audited answer to a selection over the blocks in these directories as one line, and
/// nothing else.
///
/// The selector is checked, then the range, then each directory in the order given, and then their
/// number.
pub fn select<T: Threads + Sync, F: ReadFiles, W: Write>(
    rt: &T,
    alloc: Global,
    files: &F,
    selection: Selection<'_>,
    directories: &[&str],
    out: &mut W,
) -> Result<(), Fault>
    ensures ok { OnOk result (WritesSelection (F.may_read files.now) (paths_of directories.now)
        selection.entry (W.contents out.old) (W.contents out.new)) }
    ensures err { IfErr result (λ fault.
        IsSelectFault (F.may_read files.now) (paths_of directories.now) selection.entry fault) }
    ensures kept { IfErr result (λ fault. KeepsAt fault (W.contents out.old) (W.contents out.new)) }
{
    let query = query_of(alloc, selection)?;
    let snapshot = open_store(rt, alloc, files, directories)?;
    write_answer(rt, alloc, &snapshot, &query, out)
}

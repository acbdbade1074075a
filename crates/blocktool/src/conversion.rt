//! The outputs of several inputs.

ghost use Rattle.std.specs.Prelude.{◌≡◌, ◌+◌, ◌<◌, ◌≤◌, true, false, List, length, IfOk, OnOk};
ghost use Rattle.labels.specs.Rows.{Row as RowValue};
ghost use Rattle.block_outputs.specs.Joined.{lists_in};
ghost use Rattle.block_outputs.specs.Writing.{Writes};
ghost use Rattle.blocktool.specs.Conversion.{AreGiven, IsJoinedOf, IsConverted};
ghost use Rattle.blocktool.specs.Conversion.{AreConverted, samples_in_all, capped};

use crate::fault::Fault;
use crate::input::Input;
use crate::target::{Target, send};
use block_folder::Disk;
use block_outputs::{Stretch, count_samples, join, write_output};
use block_writer::PartRows;
use kept_samples::Tally;
use labels::Row;
use std::alloc::Global;
use std::io::Write;

/// What became of samples.
#[derive(Clone, Copy, Debug, PartialEq, Eq, Drop)]
pub(crate) struct Account {
    /// What the inputs counted.
    pub(crate) tally: Tally,
    /// How many samples were given that a later input has at the same label set and time.
    pub(crate) hidden: u64,
}

/// The rows that each input gives of a range.
fn rows_of_all<I: Input>(
    alloc: Global,
    inputs: &[I],
    times: Stretch,
    tally: &mut Tally,
) -> Result<Vec<Vec<Row>>, Fault>
    ensures { IfOk result (λ lists. AreGiven I.may_give inputs.now times
        (lists_in lists.items) tally.old tally.new) }
{
    let mut lists = Vec::new(alloc);
    for input in inputs {
        let rows = input.rows_in(alloc, times, tally)?;
        lists.push(rows)?;
    }
    Ok(lists)
}

/// How many samples lists have, up to the greatest number.
fn count_all(lists: &[Vec<Row>]) -> u64
    ensures { result ≡ capped (samples_in_all (lists_in lists.now)) }
{
    let mut count = 0u64;
    for rows in lists {
        count = count.saturating_add(count_samples(rows.as_slice()));
    }
    count
}

/// The rows of all inputs in a range. The later input wins.
fn rows_joined<I: Input>(
    alloc: Global,
    inputs: &[I],
    times: Stretch,
    account: &mut Account,
) -> Result<PartRows, Fault>
    ensures { IfOk result (λ rows. IsJoinedOf I.may_give inputs.now times rows
        account.old account.new) }
{
    let lists = rows_of_all(alloc, inputs, times, &mut account.tally)?;
    let given = count_all(lists.as_slice());
    let rows = join(alloc, lists)?;
    let hidden = given.saturating_sub(count_samples(rows.rows()));
    account.hidden = account.hidden.saturating_add(hidden);
    Ok(rows)
}

/// Writes rows as the output of the next number, and its line. It writes nothing if there is no
/// row.
fn write_rows<D: Disk, W: Write>(
    alloc: Global,
    rows: PartRows,
    disk: &mut D,
    target: &Target<'_>,
    outputs: &mut usize,
    out: &mut W,
) -> Result<(), Fault>
    ensures { OnOk result
        (Writes D.did target.now.into.now target.now.values rows disk.old disk.new) }
{
    let number = outputs.saturating_add(1);
    let written = match write_output(
        alloc,
        disk,
        target.into,
        number,
        target.digits,
        target.values,
        rows,
    ) {
        Ok(written) => written,
        Err(error) => return Err(target.fault(alloc, number, error)),
    };
    if let Some(output) = written {
        *outputs = number;
        let line = target.line_of(alloc, &output)?;
        send(out, line.as_str())?;
    }
    Ok(())
}

/// Lets the inputs go if they are needed no more.
fn let_go<I: Drop>(inputs: &mut Vec<I>, is_last: bool)
    ensures { is_last ≡ false → inputs.new.items ≡ inputs.old.items }
{
    if is_last {
        inputs.clear();
    }
}

/// Writes the output of a range and its line, or nothing if there is no row. `outputs` counts the
/// outputs. If the output is the last, the inputs are let go before it is written.
fn convert_one<I: Input + Drop, D: Disk, W: Write>(
    alloc: Global,
    inputs: &mut Vec<I>,
    times: Stretch,
    is_last: bool,
    disk: &mut D,
    target: &Target<'_>,
    account: &mut Account,
    outputs: &mut usize,
    out: &mut W,
) -> Result<(), Fault>
    ensures converted { OnOk result ((rows : List RowValue)
        × IsConverted I.may_give D.did inputs.old.items target.now.into.now target.now.values times
        rows account.old account.new disk.old disk.new) }
    ensures kept { OnOk result (is_last ≡ false → inputs.new.items ≡ inputs.old.items) }
{
    let rows = rows_joined(alloc, inputs.as_slice(), times, account)?;
    let_go(inputs, is_last);
    write_rows(alloc, rows, disk, target, outputs, out)?;
    Ok(())
}

/// Whether a place is the last.
fn is_last_of(at: usize, tiles: &[Stretch]) -> bool
    requires { at < length tiles.now }
    ensures { result ≡ true → length tiles.now ≤ at + 1 }
{
    at + 1 >= tiles.len()
}

/// Writes the outputs of ranges of times, one after another, and the line of each. Returns what
/// became of the samples. The inputs are let go before the last is written.
pub(crate) fn convert<I: Input + Drop, D: Disk, W: Write>(
    alloc: Global,
    inputs: Vec<I>,
    tiles: &[Stretch],
    disk: &mut D,
    target: &Target<'_>,
    out: &mut W,
) -> Result<Account, Fault>
    // Each output has exactly the rows of what the inputs hold together in its range, in which the
    // later input wins. Nothing else is written.
    ensures { IfOk result (λ account. AreConverted I.may_give D.did inputs.items
        target.now.into.now target.now.values tiles.now account disk.old disk.new) }
{
    let mut account = Account {
        tally: Tally {
            kept: 0,
            rounded: 0,
            stale: 0,
            rest: 0,
            deleted: 0,
            outside: 0,
        },
        hidden: 0,
    };
    let mut left = inputs;
    let mut outputs = 0usize;
    for at in 0..tiles.len() {
        convert_one(
            alloc,
            &mut left,
            tiles[at],
            is_last_of(at, tiles),
            disk,
            target,
            &mut account,
            &mut outputs,
            out,
        )?;
    }
    Ok(account)
}

//! Blocks of this project, written anew.

ghost use Rattle.std.specs.Prelude.{◌≡◌, true, IfOk, OnOk};
ghost use Rattle.std.specs.List.{list_all};
ghost use Rattle.labels.specs.Parts.{rows_in};
ghost use Rattle.blocktool.specs.Opening.{AreDoubles, AreTaken, IsMeantAs, Takes, filled};
ghost use Rattle.blocktool.specs.Opening.{is_filled, names_in, nothing_taken, rows_of, taken_in};
ghost use Rattle.blocktool.specs.Rewriting.{SmallNumbersStandForThemselves, are_small, is_small};

use crate::fault::Fault;
use crate::listed::Listed;
use crate::own_blocks::{Opened, OpensOwn};
use crate::plan::plan_for;
use crate::progress::Teller;
use crate::target::Target;
use crate::writing::write_planned;
use block_folder::Values;
use block_outputs::Stretch;
use labels::{MAX_TIME, MIN_TIME, Row, Sample, SeriesRef};
use std::alloc::{AllocError, Global};
use std::io::Write;
use std::rt::Files;

/// Up to here every whole number is a double.
const SMALL: u64 = 0x20_0000_0000_0000;

/// Inputs, how many digits after the point their values have, and what they mean.
#[derive(Drop)]
pub(crate) struct Inputs {
    pub(crate) listed: Vec<Listed>,
    pub(crate) digits: Option<u32>,
    pub(crate) values: Option<Values>,
}

fn is_filled(row: &Row) -> bool
    ensures { result ≡ is_filled row.now }
{
    !row.samples().is_empty()
}

fn keep_filled(alloc: Global, listed: Vec<(SeriesRef, Row)>) -> Result<Vec<Row>, AllocError>
    ensures { IfOk result (λ rows. rows.items ≡ filled (rows_in listed.items)) }
{
    let mut rows = Vec::new(alloc);
    for (_, row) in listed {
        if is_filled(&row) {
            rows.push(row)?;
        }
    }
    Ok(rows)
}

/// The rows of a block that have a sample.
fn listed_of(alloc: Global, opened: &Opened) -> Result<Listed, AllocError>
    ensures { IfOk result (λ listed. listed.rows.items ≡ rows_of opened.now) }
{
    let listed = opened.block.list_all(alloc)?;
    let rows = keep_filled(alloc, listed)?;
    Ok(Listed { rows })
}

fn is_small(v: i64) -> bool
    ensures { result ≡ is_small v }
{
    v.unsigned_abs() <= SMALL
}

fn are_small(row: &Row) -> bool
    ensures { result ≡ are_small row.now }
{
    row.samples().iter().all(|sample| is_small(sample.v()))
}

fn are_all_small(rows: &[Row]) -> bool
    ensures { result ≡ list_all are_small rows.now }
{
    rows.iter().all(|row| are_small(row))
}

/// The first sample whose value is no double for itself.
fn first_beyond(rows: &[Row]) -> Option<Sample> {
    for row in rows {
        for sample in row.samples() {
            if !is_small(sample.v()) {
                return Some(*sample);
            }
        }
    }
    None
}

fn beyond(alloc: Global, directory: &str, rows: &[Row]) -> Fault {
    match (String::from_str(alloc, directory), first_beyond(rows)) {
        (Ok(directory), Some(sample)) => Fault::Beyond(directory, sample.t(), sample.v()),
        _ => Fault::Memory,
    }
}

// Refuses whole numbers of which one is no double for itself.
fn check_small(alloc: Global, directory: &str, rows: &[Row]) -> Result<(), Fault>
    ensures { OnOk result (list_all are_small rows.now ≡ true) }
{
    if !are_all_small(rows) {
        return Err(beyond(alloc, directory, rows));
    }
    Ok(())
}

/// Takes the values of a block as doubles. Those that are whole numbers, without digits after the
/// point, represent themselves.
fn take_as_doubles(
    alloc: Global,
    opened: &Opened,
    listed: &Listed,
    directory: &str,
) -> Result<Values, Fault>
    requires { listed.now.rows.items ≡ rows_of opened.now }
    ensures { IfOk result (AreDoubles opened.now) }
{
    if opened.values.is_same(Values::Whole) {
        if opened.digits != 0 {
            return Err(Fault::Digits(String::from_str(alloc, directory)?));
        }
        check_small(alloc, directory, listed.rows.as_slice())?;
    }
    Ok(Values::Doubles)
}

/// What the values of a block mean in the outputs.
fn meaning_of(
    alloc: Global,
    asked: Option<Values>,
    opened: &Opened,
    listed: &Listed,
    before: Option<Values>,
    directory: &str,
) -> Result<Values, Fault>
    requires { listed.now.rows.items ≡ rows_of opened.now }
    ensures { IfOk result (IsMeantAs asked opened.now before) }
{
    match asked {
        Some(Values::Doubles) => take_as_doubles(alloc, opened, listed, directory),
        _ => opened.check_values(alloc, before, directory),
    }
}

impl Inputs {
    /// Takes a further block, by its rows that have a sample. If doubles are asked for, its values
    /// are taken as doubles. Otherwise they must mean what the values of the blocks before it mean.
    fn take(
        &mut self,
        alloc: Global,
        asked: Option<Values>,
        opened: &Opened,
        directory: &str,
    ) -> Result<(), Fault>
        ensures { OnOk result (Takes asked opened.now (taken_in self.old) (taken_in self.new)) }
    {
        let listed = listed_of(alloc, opened)?;
        let digits = opened.check_digits(alloc, self.digits, directory)?;
        let values = meaning_of(alloc, asked, opened, &listed, self.values, directory)?;
        self.listed.push(listed)?;
        self.digits = Some(digits);
        self.values = Some(values);
        Ok(())
    }
}

/// Opens the blocks in directories, and takes each as an input.
fn open_all<B: OpensOwn>(
    alloc: Global,
    own: &B,
    asked: Option<Values>,
    directories: &[&str],
) -> Result<Inputs, Fault>
    ensures { IfOk result (λ inputs. AreTaken B.may_open own.now asked (names_in directories.now)
        nothing_taken (taken_in inputs)) }
{
    let mut inputs = Inputs {
        listed: Vec::new(alloc),
        digits: None,
        values: None,
    };
    for directory in directories {
        let opened = own.open(alloc, *directory)?;
        inputs.take(alloc, asked, &opened, *directory)?;
    }
    Ok(inputs)
}

/// Makes blocks of the samples of blocks that are not deleted. The later sample wins. If doubles
/// are asked for, whole numbers become the doubles that they are.
pub(crate) fn rewrite<R: Files + AllocGlobal + Clone + Drop, W: Write, E: Write>(
    alloc: Global,
    rt: &R,
    into: &str,
    asked: Option<Values>,
    directories: &[&str],
    out: &mut W,
    teller: &mut Teller<'_, E>,
) -> Result<(), Fault> {
    teller.is_at("reading the blocks")?;
    let inputs = open_all(alloc, rt, asked, directories)?;
    let whole = Stretch {
        from: MIN_TIME,
        to: MAX_TIME,
    };
    let plan = plan_for(alloc, inputs.listed.as_slice(), whole)?;
    let target = Target {
        into,
        digits: inputs.digits.unwrap_or(0),
        values: inputs.values.unwrap_or(Values::Whole),
    };
    write_planned(alloc, rt, inputs.listed, &plan, &target, 0, out, teller)
}

/// A law: a whole number within 2^53 is kept for the double that it is.
pub fn small_numbers_stand_for_themselves()
    ensures { SmallNumbersStandForThemselves }
{}

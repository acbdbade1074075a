//! The outputs on the host's disk.

use crate::fault::Fault;
use crate::input::Input;
use crate::plan::{Plan, make_outputs};
use crate::progress::Teller;
use crate::target::{Target, make_folder, send};
use block_folder::HostDisk;
use std::alloc::Global;
use std::io::Write;
use std::rt::Files;

/// Writes the outputs that are planned, the line of each, and the line of all samples, which
/// reports this many exemplars.
pub(crate) fn write_planned<
    I: Input + Drop,
    R: Files + AllocGlobal + Clone + Drop,
    W: Write,
    E: Write,
>(
    alloc: Global,
    rt: &R,
    inputs: Vec<I>,
    plan: &Plan,
    target: &Target<'_>,
    exemplars: u64,
    out: &mut W,
    teller: &mut Teller<'_, E>,
) -> Result<(), Fault> {
    teller.is_at("writing the outputs")?;
    make_folder(alloc, rt, target.into)?;
    let mut disk = HostDisk::new(rt);
    let summary = make_outputs(alloc, inputs, plan, &mut disk, target, out)?;
    let line = summary.line_of(alloc, target.digits, target.values, exemplars)?;
    send(out, line.as_str())?;
    Ok(())
}

//! Where outputs are written, and what is reported of them.

use crate::fault::Fault;
use block_folder::Values;
use block_outputs::{Extent, Output, OutputError};
use std::alloc::{AllocError, Global};
use std::fs;
use std::io::{self, ErrorKind, Write};
use std::rt::Files;

/// The directory for outputs, how many digits after the point their values have, and what the
/// values mean.
#[derive(Clone, Copy, Drop)]
pub(crate) struct Target<'a> {
    pub(crate) into: &'a str,
    pub(crate) digits: u32,
    pub(crate) values: Values,
}

impl<'a> Target<'a> {
    /// The line of an output: `mine/0001: 10 series 1200 samples, 1700006400000 to 1700008185001`.
    pub(crate) fn line_of(&self, alloc: Global, output: &Output) -> Result<String, AllocError> {
        let name = output.name.as_str();
        let Extent {
            series,
            samples,
            first,
            last,
        } = output.extent;
        format!(in alloc; "{name}: {series} series {samples} samples, {first} to {last}\n")
    }

    /// Why the output of this number was not written.
    pub(crate) fn fault(&self, alloc: Global, number: usize, error: OutputError) -> Fault {
        match error {
            OutputError::Disk => self.cannot_write(alloc, number).unwrap_or(Fault::Memory),
            other => Fault::from(other),
        }
    }

    fn cannot_write(&self, alloc: Global, number: usize) -> Result<Fault, AllocError> {
        let into = self.into;
        Ok(Fault::CannotWrite(format!(in alloc; "{into}/{number:04}")?))
    }
}

/// Writes a text, and passes it on.
pub(crate) fn send<W: Write>(out: &mut W, text: &str) -> io::Result<()> {
    out.write_all(text.as_bytes())?;
    out.flush()
}

/// Makes the directory for outputs, which must not be there, or be empty.
pub(crate) fn make_folder<R: Files + AllocGlobal + Clone + Drop>(
    alloc: Global,
    rt: &R,
    into: &str,
) -> Result<(), Fault> {
    match fs::create_dir(rt, into) {
        Ok(()) => Ok(()),
        Err(error) if error.kind() == ErrorKind::AlreadyExists => check_empty(alloc, rt, into),
        Err(_) => Err(Fault::CannotWrite(String::from_str(alloc, into)?)),
    }
}

/// Refuses a directory that is not empty, or cannot be read.
pub(crate) fn check_empty<R: Files + AllocGlobal + Clone + Drop>(
    alloc: Global,
    rt: &R,
    into: &str,
) -> Result<(), Fault> {
    let Ok(mut entries) = fs::read_dir(rt, into) else {
        return Err(Fault::CannotRead(String::from_str(alloc, into)?));
    };
    if entries.next().is_some() {
        return Err(Fault::NotEmpty(String::from_str(alloc, into)?));
    }
    Ok(())
}

//! Files of a directory.

use crate::fault::Fault;
use std::alloc::Global;
use std::fs;
use std::io::ErrorKind;
use std::rt::Files;

/// The bytes of the file at a path.
pub(crate) fn read_path<R: Files + AllocGlobal>(
    alloc: Global,
    rt: &R,
    path: &str,
) -> Result<Vec<u8>, Fault> {
    match fs::read(rt, path) {
        Ok(bytes) => Ok(bytes),
        Err(error) if error.kind() == ErrorKind::OutOfMemory => Err(Fault::Memory),
        Err(_) => Err(Fault::CannotRead(String::from_str(alloc, path)?)),
    }
}

/// The bytes of a file of a directory.
pub(crate) fn read_file<R: Files + AllocGlobal>(
    alloc: Global,
    rt: &R,
    directory: &str,
    name: &str,
) -> Result<Vec<u8>, Fault> {
    let path = format!(in alloc; "{directory}/{name}")?;
    read_path(alloc, rt, path.as_str())
}

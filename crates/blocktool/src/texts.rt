//! Texts in a file or on standard input.

ghost use Rattle.std.specs.Prelude.{◌≡◌, IfOk, IfSome};

use crate::fault::Fault;
use crate::files::read_path;
use std::alloc::{AllocError, Global};
use std::io::{ErrorKind, Read};
use std::rt::Files;

/// All that a reader gives.
fn all_of<I: Read>(alloc: Global, input: &mut I) -> Result<Vec<u8>, Fault>
    ensures { IfOk result (λ text. IfSome (I.remaining input.old) (λ all. text.items ≡ all)) }
{
    let mut text = Vec::new(alloc);
    match input.read_to_end(&mut text) {
        Ok(_) => Ok(text),
        Err(error) if matches!(error.kind(), ErrorKind::OutOfMemory) => Err(Fault::Memory),
        Err(_) => Err(Fault::NoInput),
    }
}

/// The bytes of a file, or all that a reader gives if no file is named.
pub(crate) fn read_text<R: Files + AllocGlobal, I: Read>(
    alloc: Global,
    rt: &R,
    file: Option<&str>,
    input: &mut I,
) -> Result<Vec<u8>, Fault> {
    match file {
        Some(path) => read_path(alloc, rt, path),
        None => all_of(alloc, input),
    }
}

/// How a file, or standard input, is named in a refusal.
pub(crate) fn name_of(alloc: Global, file: Option<&str>) -> Result<String, AllocError> {
    String::from_str(alloc, file.unwrap_or("standard input"))
}

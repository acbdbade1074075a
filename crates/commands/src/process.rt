//! The process, as the system reports it.

use crate::files::ReadFiles;
use server::Memory;
use std::alloc::Global;

/// How many bytes a page of memory has.
const PAGE: u64 = 4096;

/// The process, as the files of the system report it.
#[derive(Drop)]
pub(crate) struct Process<'a, F> {
    pub(crate) alloc: Global,
    pub(crate) files: &'a F,
}

/// The number that begins a text, of at most 15 digits, or 0 if none does.
fn number_in(text: &[u8]) -> u64 {
    let mut number = 0u64;
    for digit in text
        .iter()
        .take_while(|byte| byte.is_ascii_digit())
        .take(15)
    {
        number = number
            .saturating_mul(10)
            .saturating_add(u64::from(digit.wrapping_sub(b'0')));
    }
    number
}

/// The second number of a line, as `/proc/self/statm` has there the pages that are occupied.
fn second_number(line: &[u8]) -> u64 {
    match line.iter().position(|byte| *byte == b' ') {
        Some(space) => number_in(&line[space + 1..]),
        None => 0,
    }
}

impl<F: ReadFiles> Memory for Process<'_, F> {
    fn resident(&self) -> u64 {
        match self.files.read_file(self.alloc, "/proc/self/statm", 256) {
            Ok(line) => second_number(line.as_slice()).saturating_mul(PAGE),
            Err(_) => 0,
        }
    }
}

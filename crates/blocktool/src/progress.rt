//! What the program reports of its progress.

use crate::fault::Fault;
use std::io::Write;

/// Where the program reports what it passes over and, on a terminal, what it is at.
#[derive(Drop)]
pub(crate) struct Teller<'a, E> {
    pub(crate) err: &'a mut E,
    /// Whether somebody looks on: a terminal.
    pub(crate) is_terminal: bool,
}

impl<'a, E: Write> Teller<'a, E> {
    /// Reports something of a path.
    pub(crate) fn tell(&mut self, path: &str, what: &str) -> Result<(), Fault> {
        writeln!(self.err, "{path} {what}")?;
        Ok(())
    }

    /// Reports what the program is at, if somebody looks on.
    pub(crate) fn is_at(&mut self, what: &str) -> Result<(), Fault> {
        if self.is_terminal {
            writeln!(self.err, "{what}")?;
        }
        Ok(())
    }
}

//! Who has a lock.

use std::fmt;

/// Who has locked a folder.
#[derive(Clone, Copy, Debug, PartialEq, Eq, Drop)]
pub enum Holder {
    /// The process with this number.
    Process(u64),
    /// A process whose number is not known.
    Another,
}

impl fmt::Display for Holder {
    ghost use Rattle.std.specs.Prelude.{Some};
    ghost use Rattle.folder_lock.specs.Holders.{holder_text};

    ghost output = { λ holder. Some (holder_text holder) };

    fn fmt<W: fmt::Write>(&self, f: &mut fmt::Formatter<W>) -> fmt::Result {
        match self {
            Holder::Process(number) => write!(f, "process {number} has it"),
            Holder::Another => write!(f, "another process has it (see the file lock there)"),
        }
    }
}

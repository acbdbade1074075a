//! What is reported of progress.

ghost use Rattle.std.specs.Prelude.{◌≡◌, ◌&&◌, not, vec_len};

use crate::command::Reading;
use crate::files::{ReadError, ReadFiles};
use std::alloc::Global;
use std::sync::atomic::{AtomicU64, Ordering};

/// Files with a report of their reading. The report says on the host's own standard error which
/// directory is read, and how far that is.
#[derive(Drop)]
pub(crate) struct Followed<'a, R, F> {
    rt: &'a R,
    files: &'a F,
    /// Whether it is reported.
    is_told: bool,
    /// How many directories there are.
    count: usize,
    /// How many were begun.
    begun: AtomicU64,
}

impl<'a, R, F> Followed<'a, R, F> {
    /// The files. Their reading is reported if there is a terminal and they are not to be read
    /// quietly.
    pub(crate) fn new(
        rt: &'a R,
        files: &'a F,
        reading: &Reading<'_>,
        is_terminal: bool,
    ) -> Followed<'a, R, F>
        ensures files { result.files.now ≡ files.entry.now }
        ensures told { result.is_told ≡ (is_terminal && not reading.now.quiet) }
        ensures count { result.count ≡ vec_len reading.now.directories }
    {
        Followed {
            rt,
            files,
            is_told: is_terminal && !reading.quiet,
            count: reading.directories.len(),
            begun: AtomicU64::new(0),
        }
    }
}

/// What is read is what the files hold, whether or not it is reported.
impl<R: Eprint + Sync, F: ReadFiles> ReadFiles for Followed<'_, R, F> {
    ghost may_read = { λ followed. F.may_read followed.files.now };

    fn read_file(&self, alloc: Global, path: &str, most: usize) -> Result<Vec<u8>, ReadError> {
        self.files.read_file(alloc, path, most)
    }

    fn read_secret(&self, alloc: Global, path: &str, most: usize) -> Result<Vec<u8>, ReadError> {
        self.files.read_secret(alloc, path, most)
    }

    fn host(&self) -> Option<&HostRuntime> {
        self.files.host()
    }

    fn begin(&self, directory: &str) {
        if self.is_told {
            let before = self.begun.fetch_add(1, Ordering::SeqCst);
            let number = before.saturating_add(1);
            let _ = eprintln!(self.rt; "reading {number} of {}: {directory}", self.count);
        }
    }
}

//! How many cases passed, and what is reported of each other case.

use std::alloc::{AllocError, Global};
use std::str;

/// How many cases passed, how many failed, and what is reported of those that failed.
#[derive(Drop)]
pub struct Report {
    pub passed: u64,
    pub failed: u64,
    pub text: String,
}

/// Adds a text, or bytes that are none, in a line.
fn show(text: &mut String, what: &str, bytes: &[u8]) -> Result<(), AllocError> {
    match str::from_utf8(bytes) {
        Ok(shown) => write!(text, "  {what}: {shown:?}\n"),
        Err(_) => write!(text, "  {what}: {bytes:?}\n"),
    }
}

impl Report {
    pub fn new(alloc: Global) -> Report {
        Report {
            passed: 0,
            failed: 0,
            text: String::new(alloc),
        }
    }

    /// Counts a case. Of a case that failed it reports what was wanted and what came.
    pub fn count(&mut self, passed: bool, case: &str, wanted: &[u8], came: &[u8]) {
        if passed {
            self.passed = self.passed.saturating_add(1);
            return;
        }
        self.failed = self.failed.saturating_add(1);
        let _ = write!(self.text, "failed: {case}\n");
        let _ = show(&mut self.text, "wanted", wanted);
        let _ = show(&mut self.text, "came", came);
    }

    /// Counts a paragraph that is not understood as a case that failed.
    pub fn misread(&mut self, paragraph: &str) {
        self.failed = self.failed.saturating_add(1);
        let _ = write!(self.text, "not understood: {paragraph}\n");
    }
}

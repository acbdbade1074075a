//! Readers and writers over memory.

use query_http::Outlet;
use requests::{Fault, Inlet};

/// Bytes that come at most `at_most` at a time, in `reads` reads. Each further read fails.
#[derive(Drop)]
pub struct Script<'a> {
    pub rest: &'a [u8],
    pub at_most: usize,
    pub reads: usize,
    pub failed: u64,
}

impl Inlet for Script<'_> {
    ghost use Rattle.std.specs.Prelude.{Some};

    ghost input = { λ s. Some s.rest.now };

    ghost failed_reads = { λ s. s.failed };

    fn read(&mut self, buf: &mut [u8]) -> Result<usize, Fault> {
        if self.reads == 0 {
            self.failed = self.failed.saturating_add(1);
            return Err(Fault);
        }
        let n = self.rest.len().min(buf.len()).min(self.at_most.max(1));
        let (front, others) = self.rest.split_at(n);
        buf[..n].copy_from_slice(front);
        self.rest = others;
        self.reads -= 1;
        Ok(n)
    }
}

/// What was written, at most `at_most` bytes at a time, with room for `room` more.
#[derive(Drop)]
pub struct Sink {
    pub bytes: Vec<u8>,
    pub room: usize,
    pub at_most: usize,
    pub failed: u64,
}

impl Outlet for Sink {
    ghost use Rattle.std.specs.Prelude.{Some};

    ghost output = { λ s. Some s.bytes.items };

    ghost failed_writes = { λ s. s.failed };

    fn write(&mut self, buf: &[u8]) -> Result<usize, Fault> {
        let n = buf.len().min(self.room).min(self.at_most);
        if n > 0 && self.bytes.extend_from_slice(&buf[..n]).is_ok() {
            self.room -= n;
            return Ok(n);
        }
        if buf.is_empty() {
            return Ok(0);
        }
        self.failed = self.failed.saturating_add(1);
        Err(Fault)
    }
}

//! The two sides of a socket.

use query_http::Outlet;
use requests::{Fault, Inlet};
use std::io::{Read, Write};
use std::net::TcpStream;
use std::rc::Rc;

/// The side of a socket that is read, of whose bytes no clause knows.
#[derive(Drop)]
pub struct SocketReader {
    stream: Rc<TcpStream>,
    failed: u64,
}

impl SocketReader {
    pub(crate) fn new(stream: Rc<TcpStream>) -> SocketReader {
        SocketReader { stream, failed: 0 }
    }
}

impl Inlet for SocketReader {
    ghost use Rattle.std.specs.Prelude.{None};

    ghost input = { λ _. None };

    ghost failed_reads = { λ s. s.failed };

    fn read(&mut self, buf: &mut [u8]) -> Result<usize, Fault> {
        let mut stream: &TcpStream = &self.stream;
        match stream.read(buf) {
            Ok(count) => Ok(count),
            Err(_) => {
                self.failed = self.failed.saturating_add(1);
                Err(Fault)
            }
        }
    }
}

/// The side of a socket that is written.
#[derive(Drop)]
pub struct SocketWriter {
    stream: Rc<TcpStream>,
    failed: u64,
    written: u64,
}

impl SocketWriter {
    pub(crate) fn new(stream: Rc<TcpStream>) -> SocketWriter {
        SocketWriter {
            stream,
            failed: 0,
            written: 0,
        }
    }

    pub(crate) fn stream(&self) -> &TcpStream {
        &self.stream
    }

    /// How many bytes were written.
    pub(crate) fn written(&self) -> u64 {
        self.written
    }
}

impl Outlet for SocketWriter {
    ghost use Rattle.std.specs.Prelude.{None};

    ghost output = { λ _. None };

    ghost failed_writes = { λ s. s.failed };

    fn write(&mut self, buf: &[u8]) -> Result<usize, Fault> {
        let mut stream: &TcpStream = &self.stream;
        match stream.write(buf) {
            Ok(count) if count > 0 || buf.is_empty() => {
                self.written = self.written.saturating_add(count as u64);
                Ok(count)
            }
            _ => {
                self.failed = self.failed.saturating_add(1);
                Err(Fault)
            }
        }
    }
}

//! Connections from a listening socket.

use crate::connections::Connections;
use crate::ending::end;
use crate::socket::{SocketReader, SocketWriter};
use crate::tally::Tally;
use query_http::{Note, Served};
use requests::Status;
use std::alloc::Global;
use std::io;
use std::net::{TcpListener, TcpStream};
use std::rc::Rc;
use std::thread::sleep;
use std::time::{Clock, Duration, Instant};

/// How long an accept that failed waits, in milliseconds.
const PAUSE: u64 = 100;

/// Connections from a listening socket, each with the time limit of its own.
#[derive(Drop)]
pub struct Sockets<'a, R> {
    rt: &'a R,
    alloc: Global,
    listener: &'a TcpListener,
    idle: Option<Duration>,
    tally: &'a Tally,
    since: Option<Instant>,
}

impl<'a, R> Sockets<'a, R> {
    /// The connections of a listener. A connection that gives no byte, or takes none, for the time
    /// given ends as a failed read or write. Each is counted.
    pub fn new(
        rt: &'a R,
        alloc: Global,
        listener: &'a TcpListener,
        idle: Option<Duration>,
        tally: &'a Tally,
    ) -> Sockets<'a, R> {
        Sockets {
            rt,
            alloc,
            listener,
            idle,
            tally,
            since: None,
        }
    }
}

/// A time in microseconds, or the greatest number.
pub(crate) fn micros_of(time: Duration) -> u64 {
    let whole = time.as_secs().saturating_mul(1_000_000);
    whole.saturating_add(time.subsec_micros() as u64)
}

/// Whether an accept failed because there is no listener any more.
fn is_gone(error: &io::Error) -> bool {
    matches!(
        error.raw_os_error(),
        Some(libc::EBADF | libc::EINVAL | libc::ENOTSOCK)
    )
}

/// What is reported of a connection that was served this way, if it is a fault.
fn fault_of(served: Served) -> Option<&'static str> {
    match served {
        Served::ReadFault => Some("cannot read a request"),
        Served::WriteFault => Some("cannot write a reply"),
        Served::NoMemory => Some("no memory for a request"),
        Served::Replied(_) | Served::Closed => None,
    }
}

/// Sets the limits of a connection: a call that waits longer than `idle` fails. No option makes the
/// end of a reply go out at once, since the writing side is ended right behind it.
fn limit(stream: &TcpStream, idle: Option<Duration>) -> io::Result<()> {
    stream.set_read_timeout(idle)?;
    stream.set_write_timeout(idle)
}

/// The two sides of a socket, if there is memory for them.
fn sides_of(alloc: Global, stream: TcpStream) -> Option<(SocketReader, SocketWriter)> {
    let stream = Rc::new(alloc, stream).ok()?;
    let reader = SocketReader::new(Rc::clone(&stream).ok()?);
    Some((reader, SocketWriter::new(stream)))
}

impl<'a, R: Clock + Eprint> Sockets<'a, R> {
    /// Reports a fault in a line of its own on standard error, if that takes it.
    fn tell(&self, fault: &str) {
        let _ = eprintln!(self.rt; "{fault}");
    }

    /// The two sides of a new connection, with its limits. There is none if that fails, which is
    /// reported.
    fn open(&self, stream: TcpStream) -> Option<(SocketReader, SocketWriter)> {
        if limit(&stream, self.idle).is_err() {
            self.tell("cannot limit a connection");
            return None;
        }
        let sides = sides_of(self.alloc, stream);
        if sides.is_none() {
            self.tell("no memory for a connection");
        }
        sides
    }

    /// For how many microseconds the connection is served, as far as the clock says.
    fn microseconds(&self) -> u64 {
        let Some(since) = self.since else {
            return 0;
        };
        match since.elapsed(self.rt) {
            Ok(time) => micros_of(time),
            Err(_) => 0,
        }
    }

    /// The worker begins to serve a connection.
    fn begin(&mut self) {
        self.tally.set_busy(true);
        self.since = Instant::now(self.rt).ok();
    }

    /// One try to accept a connection. It is an error if there is no listener any more.
    fn try_accept(&self) -> io::Result<Option<(SocketReader, SocketWriter)>> {
        match self.listener.accept() {
            Ok((stream, _peer)) => Ok(self.open(stream)),
            Err(error) if is_gone(&error) => Err(error),
            Err(error) => {
                let _ = eprintln!(self.rt; "cannot accept a connection: {error}");
                sleep(self.rt, Duration::from_millis(PAUSE));
                Ok(None)
            }
        }
    }
}

impl<R: Clock + Eprint> Connections for Sockets<'_, R> {
    ghost use Rattle.std.specs.Prelude.{None};

    type Reader = SocketReader;

    type Writer = SocketWriter;

    ghost coming = { λ _. None };

    ghost past = { λ _. None };

    fn accept(&mut self) -> Option<(SocketReader, SocketWriter)> {
        for _ in 0..u64::MAX {
            match self.try_accept() {
                Ok(Some(connection)) => {
                    self.begin();
                    return Some(connection);
                }
                Ok(None) => {}
                Err(_) => return None,
            }
        }
        None
    }

    fn close(&mut self, _reader: SocketReader, writer: SocketWriter, served: Served, note: Note) {
        self.tally
            .count(note, self.microseconds(), writer.written());
        if let Some(fault) = fault_of(served) {
            self.tell(fault);
        }
        if let Served::Replied(status) = served {
            end(self.rt, writer.stream(), status != Status::Done);
        }
        self.tally.set_busy(false);
    }
}

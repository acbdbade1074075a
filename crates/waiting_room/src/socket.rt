//! A socket, read with limits of time.

ghost use Rattle.std.specs.Prelude.{◌≤◌, length, IfOk, IfSome};

use crate::gate::Gate;
use crate::source::{Missed, Source};
use std::io::{self, ErrorKind, Read};
use std::net::TcpStream;
use std::time::{Clock, Duration, Instant};

/// The longest wait of one read, in milliseconds: so often it is seen that all places are taken.
const SLICE: u64 = 1000;

/// How long a client may take.
#[derive(Clone, Copy, Debug, PartialEq, Eq, Drop)]
pub struct Limits {
    /// For how long it may give no byte, or take none.
    pub idle: Duration,
    /// For how long it may give no byte while all places are taken.
    pub crowded: Duration,
    /// How long its whole request may take.
    pub whole: Duration,
}

/// A socket that is read within limits, of whose bytes no clause knows.
#[derive(Drop)]
pub(crate) struct Socket<'a, R> {
    rt: &'a R,
    stream: &'a TcpStream,
    gate: &'a Gate,
    limits: Limits,
    start: Option<Instant>,
    missed: Option<Missed>,
}

impl<'a, R: Clock> Socket<'a, R> {
    pub(crate) fn new(
        rt: &'a R,
        stream: &'a TcpStream,
        gate: &'a Gate,
        limits: Limits,
    ) -> Socket<'a, R> {
        Socket {
            rt,
            stream,
            gate,
            limits,
            start: Instant::now(rt).ok(),
            missed: None,
        }
    }

    /// What is left of a time since a moment: none if it is over, or if there is no clock.
    fn left(&self, since: Option<Instant>, time: Duration) -> Option<Duration> {
        let spent = since?.elapsed(self.rt).ok()?;
        let left = time.checked_sub(spent)?;
        if left.is_zero() { None } else { Some(left) }
    }

    /// How long the next read may wait of a client that is silent since then.
    fn wait(&self, silent: Option<Instant>) -> Result<Duration, Missed> {
        let idle = if self.gate.is_full() {
            self.limits.crowded.min(self.limits.idle)
        } else {
            self.limits.idle
        };
        let Some(whole) = self.left(self.start, self.limits.whole) else {
            return Err(Missed::Late);
        };
        let Some(silence) = self.left(silent, idle) else {
            return Err(Missed::Silent);
        };
        Ok(whole.min(silence).min(Duration::from_millis(SLICE)))
    }

    /// One read that waits so long: none if no byte came.
    fn read_within(&self, buf: &mut [u8], wait: Duration) -> io::Result<Option<usize>>
        ensures { IfOk result (λ found. IfSome found (λ n. n ≤ length buf.new)) }
    {
        self.stream.set_read_timeout(Some(wait))?;
        let mut stream = self.stream;
        match stream.read(buf) {
            Ok(count) => Ok(Some(count)),
            Err(error) => {
                if error.kind() == ErrorKind::WouldBlock {
                    Ok(None)
                } else {
                    Err(error)
                }
            }
        }
    }

    fn try_read(&self, buf: &mut [u8]) -> Result<usize, Missed>
        ensures { IfOk result (λ n. n ≤ length buf.new) }
    {
        let silent = Instant::now(self.rt).ok();
        for _ in 0..u64::MAX {
            let wait = self.wait(silent)?;
            match self.read_within(buf, wait) {
                Ok(Some(count)) => return Ok(count),
                Ok(None) => {}
                Err(_) => return Err(Missed::Failed),
            }
        }
        Err(Missed::Late)
    }
}

impl<R: Clock> Source for Socket<'_, R> {
    ghost use Rattle.std.specs.Prelude.{None};

    ghost input = { λ _. None };

    ghost missed = { λ s. s.missed };

    fn read(&mut self, buf: &mut [u8]) -> Result<usize, Missed> {
        match self.try_read(buf) {
            Ok(count) => Ok(count),
            Err(missed) => {
                self.missed = Some(missed);
                Err(missed)
            }
        }
    }
}

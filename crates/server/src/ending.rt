//! The end of a connection.

use std::io::{self, ErrorKind, Read};
use std::net::{Shutdown, TcpStream};
use std::time::{Clock, Duration, Instant};

/// For how many seconds the server reads on if a client has sent more than was read.
const LINGER: u64 = 1;

/// How many further reads there are of such a client. They take at most 2 MiB.
const WASTE_READS: u32 = 256;

/// Whether a client that got its reply may have sent more than was read. The rest of a request that
/// was refused may still be on its way. Of another request only what is there already counts.
fn may_send_more(stream: &TcpStream, is_refused: bool) -> bool {
    let mut byte = [0u8; 1];
    if stream.set_nonblocking(true).is_err() {
        return false;
    }
    match stream.peek(&mut byte) {
        Ok(count) => count > 0,
        Err(error) => error.kind() == ErrorKind::WouldBlock && is_refused,
    }
}

/// Reads what a client still sends, and drops it, until the client ends. It reads at most 2 MiB,
/// and no read begins after a second.
fn drain(rt: &impl Clock, stream: &TcpStream) -> io::Result<()> {
    let mut waste = [0u8; 8192];
    let mut reader = stream;
    let most = Duration::from_secs(LINGER);
    stream.set_nonblocking(false)?;
    stream.set_read_timeout(Some(most))?;
    let start = Instant::now(rt)?;
    for _ in 0..WASTE_READS {
        if reader.read(&mut waste)? == 0 || start.elapsed(rt)? > most {
            return Ok(());
        }
    }
    Ok(())
}

/// Ends the writing side, and reads on for a moment if the client may have sent more than was read.
/// A socket that is closed with bytes unread takes back the reply.
pub(crate) fn end(rt: &impl Clock, stream: &TcpStream, is_refused: bool) {
    if stream.shutdown(Shutdown::Write).is_ok() && may_send_more(stream, is_refused) {
        let _ = drain(rt, stream);
    }
}

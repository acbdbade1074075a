//! The head of a request, in whatever pieces it comes.

ghost use Rattle.std.specs.Prelude.{◌≡◌, ◌<◌, ◌≤◌, ◌⊎◌, ◌+◌, [], vec_len};
ghost use Rattle.std.specs.Prelude.{IfOk, IfErr, IfSome, OnOk};
ghost use Rattle.std.specs.Io.KnownBytes.{Consumes, IsAtEnd};
ghost use Rattle.requests.specs.Edge.{IsReadInto};
ghost use Rattle.requests.specs.Ending.{EndsReading, IsCountedFault};
ghost use Rattle.requests.specs.Heads.{BeginsWithHead, EndsHead};
ghost use Rattle.requests.specs.Looks.{Looks};

use crate::edge::Inlet;
use crate::{ReadError, Refusal};
use httparse::Status;
use httparse::spans::{EMPTY_HEADER_SPAN, parse_request};

const MAX_HEAD: usize = 8192;

/// Reads at most so many bytes to the end of the buffer; none only at the end of the input.
pub fn read_some<R: Inlet>(
    reader: &mut R,
    buf: &mut Vec<u8>,
    most: usize,
) -> Result<usize, ReadError>
    requires { 0 < most }
    ensures count { IfOk result (λ n. n ≤ most) }
    ensures len { IfOk result (λ n. vec_len buf.new ≡ vec_len buf.old + n) }
    ensures bytes { OnOk result
        (IsReadInto (R.input reader.old) (R.input reader.new) buf.old.items buf.new.items) }
    ensures end { IfOk result (λ n. n ≡ 0 → IsAtEnd (R.input reader.new)) }
    ensures counted { OnOk result (R.failed_reads reader.new ≡ R.failed_reads reader.old) }
    ensures err { IfErr result (λ e. (e ≡ ReadError.Fault) ⊎ (e ≡ ReadError.Memory)) }
    ensures failed { IsCountedFault result (R.failed_reads reader.old) (R.failed_reads reader.new) }
{
    let mut piece = [0u8; 8192];
    let limit = most.min(8192);
    let n = reader.read(&mut piece[..limit])?;
    buf.extend_from_slice(&piece[..n])?;
    Ok(n)
}

/// How bytes stand to a head.
enum Look {
    Whole,
    More,
    Never,
}

fn look_at(buf: &[u8]) -> Look
    ensures { Looks buf.now result }
{
    let mut headers = [EMPTY_HEADER_SPAN; 64];
    match parse_request(buf, &mut headers) {
        Ok(Status::Complete(_)) => Look::Whole,
        Ok(Status::Partial) => Look::More,
        Err(_) => Look::Never,
    }
}

/// Reads into an empty buffer until a head has come: `H1` or `H2` where none comes. What follows
/// the head may have come with it.
pub fn read_head<R: Inlet>(reader: &mut R, buf: &mut Vec<u8>) -> Result<(), ReadError>
    requires { buf.old.items ≡ [] }
    ensures ok { OnOk result (BeginsWithHead buf.new.items) }
    ensures short { OnOk result (vec_len buf.new ≤ 8192) }
    ensures taken { OnOk result
        (Consumes (R.input reader.old) (R.input reader.new) buf.new.items) }
    ensures counted { OnOk result (R.failed_reads reader.new ≡ R.failed_reads reader.old) }
    ensures err { IfErr result (λ e. IfSome (R.input reader.old) (EndsHead e)) }
    ensures refusal { IfErr result EndsReading }
    ensures failed { IsCountedFault result (R.failed_reads reader.old) (R.failed_reads reader.new) }
{
    while buf.len() < MAX_HEAD {
        let most = MAX_HEAD - buf.len();
        if read_some(reader, buf, most)? == 0 {
            return Err(if buf.is_empty() {
                ReadError::Closed
            } else {
                ReadError::Refused(Refusal::BadHead)
            });
        }
        match look_at(buf.as_slice()) {
            Look::Whole => return Ok(()),
            Look::Never => return Err(ReadError::Refused(Refusal::BadHead)),
            Look::More => {}
        }
    }
    Err(ReadError::Refused(Refusal::HeadTooLong))
}

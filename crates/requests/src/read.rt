//! What follows the head of a request.

ghost use Rattle.std.specs.Prelude.{◌≤◌, ◌-◌, ◌⊎◌, vec_len, IfOk, IfErr, IfSome, OnOk};
ghost use Rattle.httparse.specs.Grammar.{RequestHead};
ghost use Rattle.requests.specs.Edge.{IsReadInto, TakesAtMost};
ghost use Rattle.requests.specs.Ending.{EndsReading, IsCountedFault};
ghost use Rattle.requests.specs.Fields.{IsHeadIn};
ghost use Rattle.requests.specs.Fitting.{IsFit};
ghost use Rattle.requests.specs.Heads.{BeginsWithHead};
ghost use Rattle.requests.specs.Requests.{Told};
ghost use Rattle.requests.specs.Reading.{AsksAfter, EndsBody, BodyMeans, most_taken};

use crate::changes::{cut, delete};
use crate::edge::Inlet;
use crate::fields::{Head, head_in};
use crate::head::read_some;
use crate::select::select;
use crate::target::{Path, path_asked, query_text, takes_query};
use crate::write::write;
use crate::{ReadError, Refusal, Request};
use selector_cache::KeptSelectors;
use std::alloc::Global;

/// Reads until the buffer has so many bytes: `H7` where the input ends before.
fn read_body<R: Inlet>(reader: &mut R, buf: &mut Vec<u8>, end: usize) -> Result<(), ReadError>
    ensures whole { OnOk result (end ≤ vec_len buf.new) }
    ensures few { OnOk result
        ((vec_len buf.new ≤ vec_len buf.old) ⊎ (vec_len buf.new ≤ end)) }
    ensures bytes { OnOk result
        (IsReadInto (R.input reader.old) (R.input reader.new) buf.old.items buf.new.items) }
    ensures err { IfErr result (λ e. IfSome (R.input reader.old)
        (λ more. EndsBody buf.old.items end e more)) }
    ensures refusal { IfErr result EndsReading }
    ensures failed { IsCountedFault result (R.failed_reads reader.old) (R.failed_reads reader.new) }
{
    while buf.len() < end {
        let most = end - buf.len();
        if read_some(reader, buf, most)? == 0 {
            return Err(ReadError::Refused(Refusal::BadBody));
        }
    }
    Ok(())
}

/// What a body asks of a path that takes one.
fn body_request(
    alloc: Global,
    kept: &mut KeptSelectors,
    path: Path,
    body: &[u8],
) -> Result<Request, ReadError>
    ensures { Told (BodyMeans path body.now) result }
{
    match path {
        Path::Write => write(alloc, body),
        Path::Delete => delete(alloc, kept, body),
        Path::Cut => cut(alloc, body),
        Path::Select => Err(ReadError::Refused(Refusal::BadBody)),
    }
}

fn head_of(buf: &[u8]) -> Head<'_>
    requires { BeginsWithHead buf.now }
    ensures { (h : RequestHead) × IsHeadIn buf.now result h }
{
    head_in(buf).unwrap()
}

/// Reads what follows a head that has come, if its path takes a body, and says what is asked.
pub(crate) fn read_after<R: Inlet>(
    alloc: Global,
    reader: &mut R,
    buf: &mut Vec<u8>,
    kept: &mut KeptSelectors,
) -> Result<Request, ReadError>
    requires begins { BeginsWithHead buf.old.items }
    requires short { vec_len buf.old ≤ 8192 }
    ensures means { AsksAfter buf.old.items (R.input reader.old) result }
    ensures few { IfOk result (λ request. TakesAtMost (most_taken request - vec_len buf.old)
        (R.input reader.old) (R.input reader.new)) }
    ensures fits { IfOk result IsFit }
    ensures refusal { IfErr result EndsReading }
    ensures failed { IsCountedFault result (R.failed_reads reader.old) (R.failed_reads reader.new) }
{
    let head = head_of(buf.as_slice());
    let path = match path_asked(head.method, head.target) {
        Ok(path) => path,
        Err(refusal) => return Err(ReadError::Refused(refusal)),
    };
    if takes_query(path) {
        return select(alloc, kept, query_text(head.target));
    }
    let start = head.end;
    let length = match head.length {
        Ok(length) => length,
        Err(refusal) => return Err(ReadError::Refused(refusal)),
    };
    let end = start + length;
    read_body(reader, buf, end)?;
    body_request(alloc, kept, path, &buf[start..end])
}

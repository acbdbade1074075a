//! A request, read from its first byte to its last, if rules admit it.

ghost use Rattle.std.specs.Prelude.{◌≡◌, IfOk, IfErr, IfSome, vec_len};
ghost use Rattle.requests.specs.Admitting.{refusal_of, IsAdmission, AnswersUnder};
ghost use Rattle.requests.specs.Edge.{TakesAtMost};
ghost use Rattle.requests.specs.Ending.{EndsReading, IsCountedFault, IsOfBytes};
ghost use Rattle.requests.specs.Fitting.{IsFit};
ghost use Rattle.requests.specs.Heads.{BeginsWithHead};
ghost use Rattle.requests.specs.Reading.{Answers, most_taken};

use crate::edge::Inlet;
use crate::fields::claims_in;
use crate::head::read_head;
use crate::read::read_after;
use crate::{ReadError, Refusal, Request};
use guard::{Denial, Rules};
use selector_cache::KeptSelectors;
use std::alloc::Global;

/// The refusal of a request that is not admitted: `H12`, or `H3` as of a path that is none.
fn refusal_of(denial: Denial) -> Refusal
    ensures { result ≡ refusal_of denial }
{
    match denial {
        Denial::ReadOnly => Refusal::NoSuchPath,
        Denial::Guarded => Refusal::Guarded,
    }
}

/// Whether the rules admit the head that has come.
fn admit(rules: &Rules, buf: &[u8]) -> Result<(), Refusal>
    requires { BeginsWithHead buf.now }
    ensures admission { IsAdmission rules.now buf.now result }
    ensures refusal { IfErr result IsOfBytes }
{
    match rules.judge(&claims_in(buf).unwrap()) {
        Ok(()) => Ok(()),
        Err(denial) => Err(refusal_of(denial)),
    }
}

/// Reads one request under rules: its head, and its body where its path takes one.
///
/// The answer is the request that the bytes mean, or the first refusal that they meet, `H1` to
/// `H8`, however they were cut into pieces; `Closed` where the input ends before its first byte. A
/// head that the rules do not admit is refused with `H12`, or with `H3` for a `POST` where there is
/// none, before anything else is asked of it and before its body is read. `Fault` comes only where
/// a read failed. The bytes of the request are read into the buffer, whose content is dropped first
/// and plays no part in the answer. Selectors that were read before may be kept, and that plays no
/// part either. At most 8,192 bytes are taken from the input for a request without a body, and at
/// most 1,048,576 more for one with a body. Beside that it takes memory for the values of the
/// request, and time linear in the number of its bytes.
pub fn read_admitted_into<R: Inlet>(
    alloc: Global,
    rules: &Rules,
    reader: &mut R,
    buf: &mut Vec<u8>,
    kept: &mut KeptSelectors,
) -> Result<Request, ReadError>
    ensures means { IfSome (R.input reader.old) (AnswersUnder rules.now result) }
    ensures few { IfOk result (λ request. TakesAtMost (most_taken request)
        (R.input reader.old) (R.input reader.new)) }
    ensures fits { IfOk result IsFit }
    ensures refusal { IfErr result EndsReading }
    ensures failed { IsCountedFault result (R.failed_reads reader.old) (R.failed_reads reader.new) }
{
    buf.clear();
    read_head(reader, buf)?;
    match admit(rules, buf.as_slice()) {
        Ok(()) => read_after(alloc, reader, buf, kept),
        Err(refusal) => Err(ReadError::Refused(refusal)),
    }
}

/// Reads one request as [`read_admitted_into`] does, under no rules and into a buffer of its own.
pub fn read_request<R: Inlet>(alloc: Global, reader: &mut R) -> Result<Request, ReadError>
    ensures means { IfSome (R.input reader.old) (Answers result) }
    ensures few { IfOk result (λ request. TakesAtMost (most_taken request)
        (R.input reader.old) (R.input reader.new)) }
    ensures fits { IfOk result IsFit }
    ensures refusal { IfErr result EndsReading }
    ensures failed { IsCountedFault result (R.failed_reads reader.old) (R.failed_reads reader.new) }
{
    let mut buf = Vec::new(alloc);
    let mut kept = KeptSelectors::new(alloc);
    read_admitted_into(alloc, &Rules::none(), reader, &mut buf, &mut kept)
}

//! Replies as text.

ghost use Rattle.std.specs.Prelude.{◌≡◌, Some, IfOk};
ghost use Rattle.reply_reader.specs.Replies.{text_said, told_of};
ghost use Rattle.metrics_writer.specs.Doubles.{IsTextOfDoubles};
ghost use Rattle.metrics_writer.specs.Texts.{text_of};
ghost use Rattle.blocktool.specs.Texts.{IsDoublesOfReply, IsTextAs, IsTextOfReply};

use crate::fault::Fault;
use crate::texts::read_text;
use imported_values::Digits;
use metrics_writer::{WriteError, write_doubles, write_text};
use reply_reader::{Reply, ReplyError};
use std::alloc::Global;
use std::io::{Read, Write};
use std::rt::Files;

/// How values are written.
#[derive(Clone, Copy, Drop)]
pub(crate) enum Shown {
    /// As decimals with this many digits after the point.
    Decimals(Digits),
    /// As the doubles that they represent.
    Doubles,
}

/// A reply: how its values are written, and the file in which it is, if it is not standard input.
#[derive(Clone, Copy, Drop)]
pub(crate) struct ReplyIn<'a> {
    pub(crate) shown: Shown,
    pub(crate) file: Option<&'a str>,
}

/// The reply that a text is.
pub(crate) fn reply_of(alloc: Global, text: &[u8]) -> Result<Reply, Fault>
    ensures { IfOk result (λ reply. text_said text.now ≡ Some (told_of reply)) }
{
    match Reply::read(alloc, text) {
        Ok(reply) => Ok(reply),
        Err(ReplyError::BadReply) => Err(Fault::BadReply),
        Err(ReplyError::Memory) => Err(Fault::Memory),
    }
}

fn fault_of(error: WriteError) -> Fault {
    match error {
        WriteError::NoMetric => Fault::NoMetric,
        WriteError::Memory => Fault::Memory,
    }
}

fn text_of(alloc: Global, reply: &Reply, digits: Digits) -> Result<Vec<u8>, Fault>
    ensures { IfOk result (λ text. text.items ≡ text_of digits reply.now.rows.items) }
{
    match write_text(alloc, reply.rows.as_slice(), digits.number()) {
        Ok(text) => Ok(text),
        Err(error) => Err(fault_of(error)),
    }
}

fn doubles_of(alloc: Global, reply: &Reply) -> Result<Vec<u8>, Fault>
    ensures { IfOk result (λ text. IsTextOfDoubles reply.now.rows.items text.items) }
{
    match write_doubles(alloc, reply.rows.as_slice()) {
        Ok(text) => Ok(text),
        Err(error) => Err(fault_of(error)),
    }
}

/// The text of the merged rows of a reply, whose values have this many digits after the point.
fn text_of_reply(alloc: Global, reply: &[u8], digits: Digits) -> Result<Vec<u8>, Fault>
    // What is read as the reply's merged rows is what is written, sample for sample.
    ensures { IfOk result (λ text. IsTextOfReply digits reply.now text.items) }
{
    let told = reply_of(alloc, reply)?;
    let text = text_of(alloc, &told, digits)?;
    Ok(text)
}

/// The text of the merged rows of a reply, whose values represent doubles.
fn doubles_of_reply(alloc: Global, reply: &[u8]) -> Result<Vec<u8>, Fault>
    ensures { IfOk result (λ text. IsDoublesOfReply reply.now text.items) }
{
    let told = reply_of(alloc, reply)?;
    let text = doubles_of(alloc, &told)?;
    Ok(text)
}

/// The text of the merged rows of a reply.
fn text_as(alloc: Global, reply: &[u8], shown: Shown) -> Result<Vec<u8>, Fault>
    ensures { IfOk result (λ text. IsTextAs shown reply.now text.items) }
{
    match shown {
        Shown::Decimals(digits) => text_of_reply(alloc, reply, digits),
        Shown::Doubles => doubles_of_reply(alloc, reply),
    }
}

/// Writes the merged rows of the reply in a file, or on standard input, as OpenMetrics text.
pub(crate) fn to_openmetrics<R: Files + AllocGlobal, I: Read, W: Write>(
    alloc: Global,
    rt: &R,
    reply_in: &ReplyIn<'_>,
    input: &mut I,
    out: &mut W,
) -> Result<(), Fault> {
    let reply = read_text(alloc, rt, reply_in.file, input)?;
    let text = text_as(alloc, reply.as_slice(), reply_in.shown)?;
    out.write_all(text.as_slice())?;
    out.flush()?;
    Ok(())
}

//! Blocks out of rows.

ghost use Rattle.std.specs.Prelude.{◌≡◌, IfOk};
ghost use Rattle.exposition.specs.Rows.{IsSameOf};
ghost use Rattle.blocktool.specs.Texts.{AreRowsOfReply, AreRowsSaid, around, is_list};

use crate::fault::Fault;
use crate::listed::Listed;
use crate::progress::Teller;
use crate::target::Target;
use crate::text_input::{Said, write_said};
use crate::texts::read_text;
use crate::to_openmetrics::reply_of;
use block_outputs::Stretch;
use exposition::runs_of;
use labels::{MAX_TIME, MIN_TIME, Row};
use serde_json::Value;
use std::alloc::{AllocError, Global};
use std::io::{Read, Write};
use std::rt::Files;

/// A reply without parts, whose merged rows are a text.
fn around(alloc: Global, rows: &[u8]) -> Result<Vec<u8>, AllocError>
    ensures { IfOk result (λ text. text.items ≡ around rows.now) }
{
    let mut text = Vec::new(alloc);
    text.extend_from_slice(b"{\"parts\":[],\"rows\":")?;
    text.extend_from_slice(rows)?;
    text.push(b'}')?;
    Ok(text)
}

/// Whether a text is a list of JSON.
fn is_list(alloc: Global, text: &[u8]) -> Result<bool, Fault>
    ensures { IfOk result (λ b. b ≡ is_list text.now) }
{
    match Value::from_slice(alloc, text) {
        Ok(value) => Ok(value.is_array()),
        Err(error) if error.is_memory() => Err(Fault::Memory),
        Err(_) => Err(Fault::BadReply),
    }
}

fn rows_of_reply(alloc: Global, text: &[u8]) -> Result<Vec<Row>, Fault>
    ensures { IfOk result (λ rows. AreRowsOfReply text.now rows.items) }
{
    let told = reply_of(alloc, text)?;
    Ok(told.rows)
}

fn rows_of_list(alloc: Global, text: &[u8]) -> Result<Vec<Row>, Fault>
    ensures { IfOk result (λ rows. AreRowsOfReply (around text.now) rows.items) }
{
    let reply = around(alloc, text)?;
    let rows = rows_of_reply(alloc, reply.as_slice())?;
    Ok(rows)
}

/// The rows of a reply, or of a list of rows alone.
fn rows_in(alloc: Global, text: &[u8]) -> Result<Vec<Row>, Fault>
    ensures { IfOk result (λ rows. AreRowsSaid text.now rows.items) }
{
    if is_list(alloc, text)? {
        let rows = rows_of_list(alloc, text)?;
        return Ok(rows);
    }
    let rows = rows_of_reply(alloc, text)?;
    Ok(rows)
}

fn said_in(alloc: Global, rows: &[Row]) -> Result<Said, AllocError>
    // If there are several samples of one series at one time, the later is kept.
    ensures { IfOk result (λ said. IsSameOf rows.now said.listed.rows.items) }
{
    Ok(Said {
        listed: Listed {
            rows: runs_of(alloc, rows)?,
        },
        others: Vec::new(alloc),
        rounded: Vec::new(alloc),
        exemplars: 0,
    })
}

/// Makes blocks out of rows. The later rows win.
pub(crate) fn from_rows<R: Files + AllocGlobal + Clone + Drop, I: Read, W: Write, E: Write>(
    alloc: Global,
    rt: &R,
    target: &Target<'_>,
    file: Option<&str>,
    input: &mut I,
    out: &mut W,
    teller: &mut Teller<'_, E>,
) -> Result<(), Fault> {
    teller.is_at("reading the rows")?;
    let text = read_text(alloc, rt, file, input)?;
    let rows = rows_in(alloc, text.as_slice())?;
    let said = said_in(alloc, rows.as_slice())?;
    let whole = Stretch {
        from: MIN_TIME,
        to: MAX_TIME,
    };
    write_said(alloc, rt, said, whole, target, out, teller)
}

//! Rows as the body of a reply of remote read.

use labels::{LabelSet, Row, Sample};
use remote_rows::{packed, put_answer};
use snappy::decompress;
use std::alloc::Global;
use std::test::Fail;

/// The rows of an answer: `up{job="a"}` with a number at 30 ms.
fn rows_of(alloc: Global, number: i64) -> Result<Vec<Row>, Fail> {
    let mut pairs = Vec::new(alloc);
    for (name, value) in [("job", "a"), ("__name__", "up")] {
        pairs.push((
            String::from_str(alloc, name)?,
            String::from_str(alloc, value)?,
        ))?;
    }
    let mut samples = Vec::new(alloc);
    samples.push(Sample::new(30, number))?;
    let mut rows = Vec::new(alloc);
    rows.push(Row::new(LabelSet::new(alloc, pairs)?, samples))?;
    Ok(rows)
}

/// The reply to a query of `up` from 0 to 100, and to another that finds nothing, as Python's
/// protobuf writes it.
const REPLY: &[u8] = b"\x0a\x29\
    \x0a\x27\x0a\x0e\x0a\x08__name__\x12\x02up\x0a\x08\x0a\x03job\x12\x01a\
    \x12\x0b\x09\x00\x00\x00\x00\x00\x00\x14\x40\x10\x1e\x0a\x00";

#[test]
fn the_rows_of_answers_are_a_reply(rt: HostRuntime) -> Result<(), Fail> {
    let alloc = rt.alloc();
    let rows = rows_of(alloc, 5)?;
    let mut text = Vec::new(alloc);
    put_answer(alloc, &mut text, rows.as_slice(), false)?;
    put_answer(alloc, &mut text, &[], false)?;
    assert!(rt; text.as_slice() == REPLY);
    let body = packed(alloc, text.as_slice())?;
    assert!(rt; decompress(alloc, body.as_slice(), 100)?.as_slice() == REPLY);
    Ok(())
}

/// The same label set without its sample.
const NAMES: &[u8] = b"\x0a\x1c\
    \x0a\x1a\x0a\x0e\x0a\x08__name__\x12\x02up\x0a\x08\x0a\x03job\x12\x01a";

/// What stands for minus infinity, and the bits of it behind their key.
const LEAST: i64 = -4_382_002_437_431_492_608;

#[test]
fn label_sets_alone_and_other_doubles_are_sent(rt: HostRuntime) -> Result<(), Fail> {
    let alloc = rt.alloc();
    let rows = rows_of(alloc, LEAST)?;
    let mut text = Vec::new(alloc);
    put_answer(alloc, &mut text, rows.as_slice(), true)?;
    assert!(rt; text.as_slice() == NAMES);
    text.clear();
    put_answer(alloc, &mut text, rows.as_slice(), false)?;
    assert!(rt;
        text.as_slice()
            .ends_with(b"\x09\x00\x00\x00\x00\x00\x00\xf0\xff\x10\x1e")
    );
    Ok(())
}

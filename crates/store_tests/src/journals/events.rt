//! Events spelled by hand: numbers of seven bits a byte as the encoding page of protobuf has them,
//! signed ones by its zigzag (0, -1, 1, -2 are 0, 1, 2, 3; so 300 is 600, which is D8 04).

use event_text::{EventError, TextError, put_batch, put_cut, put_deletion, read_event};
use labels::{LabelSet, Sample};
use matchers::{Matcher, MatcherError, Op};
use std::alloc::Global;
use std::test::Fail;

/// `up` has 7 at 0 and -1 at 300; `up{job="a"}` has 0 at -2; `up` has 1 at 301.
const BATCH: &[u8] = b"\x01\x03\
    \x01\x08__name__\x02up\x02\x00\x0E\xD8\x04\x01\
    \x02\x08__name__\x02up\x03job\x01a\x01\x03\x00\
    \x01\x08__name__\x02up\x01\xDA\x04\x02";

/// Of `up`, of which the job is not `a` and the zone matches `x.*`, from -1 to 300.
const DELETION: &[u8] =
    b"\x02\x03\x00\x08__name__\x02up\x01\x03job\x01a\x02\x04zone\x03x.*\x01\xD8\x04";

const CUT: &[u8] = b"\x03\xD8\x04";

/// The samples of the batch.
fn batch(alloc: Global) -> Result<Vec<(LabelSet, Sample)>, Fail> {
    let up = LabelSet::of_sorted_texts(alloc, &[("__name__", "up")])?;
    let job = LabelSet::of_sorted_texts(alloc, &[("__name__", "up"), ("job", "a")])?;
    let mut samples = Vec::new(alloc);
    samples.push((up.try_clone()?, Sample::new(0, 7)))?;
    samples.push((up.try_clone()?, Sample::new(300, -1)))?;
    samples.push((job, Sample::new(-2, 0)))?;
    samples.push((up, Sample::new(301, 1)))?;
    Ok(samples)
}

fn matcher(alloc: Global, name: &str, op: Op, text: &str) -> Result<Matcher, Fail> {
    let name = String::from_str(alloc, name)?;
    let text = String::from_str(alloc, text)?;
    Ok(Matcher::new(alloc, name, op, text)?)
}

/// The refusal of bytes, if they are refused.
fn refusal(alloc: Global, bytes: &[u8]) -> Option<EventError> {
    read_event(alloc, bytes).err()
}

fn is_refused(alloc: Global, bytes: &[u8], error: TextError) -> bool {
    refusal(alloc, bytes) == Some(EventError::Text(error))
}

#[test]
fn a_batch_is_written_by_runs(rt: HostRuntime) -> Result<(), Fail> {
    let alloc = rt.alloc();
    let mut text = Vec::new(alloc);
    put_batch(&mut text, &batch(alloc)?)?;
    assert_eq!(rt; text.as_slice(), BATCH);
    Ok(())
}

#[test]
fn a_deletion_is_written_and_read(rt: HostRuntime) -> Result<(), Fail> {
    let alloc = rt.alloc();
    let mut matchers = Vec::new(alloc);
    matchers.push(matcher(alloc, "__name__", Op::Equal, "up")?)?;
    matchers.push(matcher(alloc, "job", Op::NotEqual, "a")?)?;
    matchers.push(matcher(alloc, "zone", Op::Like, "x.*")?)?;
    let mut text = Vec::new(alloc);
    put_deletion(&mut text, &matchers, -1, 300)?;
    assert_eq!(rt; text.as_slice(), DELETION);
    let event = read_event(alloc, DELETION)
        .ok()
        .expect(&rt, "the deletion is read");
    let found = event.into_matchers().expect(&rt, "it is a deletion");
    assert_eq!(rt; found.len(), 3);
    assert_eq!(rt; found[2].name(), "zone");
    assert_eq!(rt; found[2].text(), "x.*");
    Ok(())
}

#[test]
fn a_cut_is_written(rt: HostRuntime) -> Result<(), Fail> {
    let mut text = Vec::new(rt.alloc());
    put_cut(&mut text, 300)?;
    assert_eq!(rt; text.as_slice(), CUT);
    assert!(rt; read_event(rt.alloc(), CUT).is_ok());
    Ok(())
}

#[test]
fn each_fault_has_its_code(rt: HostRuntime) {
    let alloc = rt.alloc();
    assert!(rt; is_refused(alloc, b"\x04\x00", TextError::Kind));
    // A number in a longer form, a text that is no UTF-8, a fifth operator.
    assert!(rt; is_refused(alloc, b"\x03\x80\x00", TextError::Field));
    assert!(rt;
        is_refused(
            alloc,
            b"\x01\x01\x01\x01\xFF\x01a\x01\x00\x00",
            TextError::Field
        )
    );
    assert!(rt; is_refused(alloc, b"\x02\x01\x04\x01a\x01a\x00\x00", TextError::Field));
    // Names that fall, and an empty value.
    let falls = b"\x01\x01\x02\x01b\x01x\x01a\x01x\x01\x00\x00";
    assert!(rt; is_refused(alloc, falls, TextError::Labels));
    assert!(rt;
        is_refused(
            alloc,
            b"\x01\x01\x01\x01a\x00\x01\x00\x00",
            TextError::Labels
        )
    );
    // A run without a sample, and two runs of one label set.
    assert!(rt; is_refused(alloc, b"\x01\x01\x00\x00", TextError::Runs));
    let twice = b"\x01\x02\x00\x01\x00\x00\x00\x01\x02\x00";
    assert!(rt; is_refused(alloc, twice, TextError::Runs));
    // The time 2^62, which is the number 2^63, and a range that ends before it begins.
    let late = b"\x03\x80\x80\x80\x80\x80\x80\x80\x80\x80\x01";
    assert!(rt; is_refused(alloc, late, TextError::Bounds));
    assert!(rt; is_refused(alloc, b"\x02\x00\x02\x00", TextError::Bounds));
    assert!(rt; is_refused(alloc, b"\x03\x02\x00", TextError::Rest));
    // A pattern that is no regular expression.
    assert_eq!(rt;
        refusal(alloc, b"\x02\x01\x02\x01a\x01(\x00\x00"),
        Some(EventError::Matcher(MatcherError::PatternRefused))
    );
}

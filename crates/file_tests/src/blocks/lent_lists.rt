//! How many entries a list that a block lends reads.

use super::{opened, worked};
use crate::draft::{Draft, align};
use crate::files::{SEGMENT, put_chunk};
use block::Block;
use labels::SeriesRef;
use postings::{Postings, Source};
use std::alloc::{AllocError, Global};

/// Whether a list stands at the reference of this number, or at its end where that is 0.
fn is_at<P: Postings>(list: &P, number: u32) -> bool {
    match list.current() {
        Some(reference) => reference.number() == number,
        None => number == 0,
    }
}

#[test]
fn a_seek_in_six_references_reads_four_at_most(rt: HostRuntime) {
    let block = worked(rt.alloc(), (0, 20), &[]).ok();
    let block = block.expect(&rt, "it opens");
    let mut list = block.view().all();
    assert!(rt; is_at(&list, 4));
    assert!(rt; list.last_reads() == 1);
    list.seek(SeriesRef::new(9));
    assert!(rt; is_at(&list, 9));
    assert!(rt; 0 < list.last_reads() && list.last_reads() <= 4);
    list.seek(SeriesRef::new(3));
    assert!(rt; is_at(&list, 9));
    assert!(rt; list.last_reads() == 0);
    list.advance();
    assert!(rt; is_at(&list, 0));
}

/// The texts `0000` to `0999`, behind one another.
fn digits(alloc: Global) -> Result<String, AllocError> {
    let mut text = String::new(alloc);
    for number in 0..1000u32 {
        write!(text, "{number:04}")?;
    }
    Ok(text)
}

/// The texts `0000` to `0999` and `n`.
fn symbols(alloc: Global, digits: &str) -> Option<Vec<&str>> {
    let mut symbols = Vec::new(alloc);
    for number in 0..1000 {
        let place = 4 * number;
        symbols.push(digits.get(place..place + 4)?).ok()?;
    }
    symbols.push("n").ok()?;
    Some(symbols)
}

/// An index of 1,000 series of one label each, whose references are 314 to 1,313. The one chunk of
/// each is the first of the file.
fn thousand_series(alloc: Global) -> Option<Vec<u8>> {
    let digits = digits(alloc).ok()?;
    let symbols = symbols(alloc, digits.as_str())?;
    let mut draft = Draft::new(alloc, &symbols).ok()?;
    align(&mut draft.file).ok()?;
    draft.contents[1] = draft.file.len() as u64;
    let mut all = Vec::new(alloc);
    for number in 0..1000 {
        let reference = draft.series(alloc, &[1, 1000, number, 1, 0, 0, 8]).ok()?;
        all.push(reference).ok()?;
    }
    draft.list(alloc, &[("", "")], &all).ok()?;
    for (value, reference) in symbols.iter().zip(&all) {
        draft.list(alloc, &[("n", *value)], &[*reference]).ok()?;
    }
    draft.whole(alloc).ok()
}

/// A chunks file with one sample, 7 at time 0.
fn one_chunk(alloc: Global) -> Option<Vec<u8>> {
    let mut file = SEGMENT.to_vec(alloc).ok()?;
    let content = [0xE0, 0, 1, 0, 0, 0, 0, 0, 0, 0, 0, 0, 0, 0, 0, 0, 0, 0, 7];
    put_chunk(&mut file, &content).ok()?;
    Some(file)
}

fn block_of_thousand(alloc: Global) -> Option<Block> {
    let index = thousand_series(alloc)?;
    opened(alloc, (0, 20), &index, one_chunk(alloc)?, &[]).ok()
}

#[test]
fn a_seek_in_a_thousand_references_reads_eleven_at_most(rt: HostRuntime) {
    let block = block_of_thousand(rt.alloc()).expect(&rt, "it opens");
    assert!(rt; block.series_count() == 1000);
    for target in 300..1320 {
        let want = if target > 1313 { 0 } else { target.max(314) };
        let mut list = block.view().all();
        list.seek(SeriesRef::new(target));
        assert!(rt; is_at(&list, want), "from {target}");
        assert!(rt; list.last_reads() <= 11, "from {target}");
    }
}

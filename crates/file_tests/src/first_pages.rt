//! The examples of the first pages of `chunk_reader`, `block` and `block_writer`.

use block::{Block, BlockError, Range};
use block_writer::{BlockBytes, PartRows, write};
use chunk_reader::{ChunkError, Chunks};
use index_reader::IndexError;
use labels::{LabelSet, Row, Sample};
use std::alloc::Global;
use std::process::Abort;

#[test]
fn the_example_of_the_first_page_of_chunk_reader(rt: HostRuntime) -> Result<(), ChunkError> {
    // The head of a file, and at 8 a chunk of one sample.
    let file = b"\x85\xBD\x40\xDD\x01\0\0\0\
        \x12\xE0\0\x01\0\0\0\0\0\0\0\x0A\0\0\0\0\0\0\0\x04\x5D\x31\x63\xEF";
    let chunks = Chunks::open(file.to_vec(rt.alloc())?)?;
    let samples = chunks.find(8, 10, 10)?;
    assert_eq!(rt; samples.len(), 1);
    assert_eq!(rt; samples.get(0), Sample::new(10, 4));
    let refused = chunks.find(8, 10, 11).err();
    assert_eq!(rt; refused, Some(ChunkError::TimesDisagree));
    Ok(())
}

#[test]
fn the_example_of_the_first_page_of_block(rt: HostRuntime) -> Result<(), BlockError> {
    let alloc = rt.alloc();
    let range = Range::read_meta(alloc, br#"{"minTime":0,"maxTime":30,"version":1}"#)?;
    assert_eq!(rt; (range.covers(29), range.covers(30)), (true, false));
    let refused = Block::open(alloc, range, b"no index", Vec::new(alloc), b"").err();
    assert_eq!(rt; refused, Some(BlockError::Index(IndexError::TooShort)));
    Ok(())
}

/// What the example of `block_writer` does.
fn write_one_row(rt: &impl Abort, alloc: Global) -> Option<()> {
    let pairs = [("__name__", "up"), ("job", "a")];
    let labels = LabelSet::of_sorted_texts(alloc, &pairs).ok()?;
    let samples = Vec::from_array(alloc, [Sample::new(10, 1), Sample::new(20, 1)]).ok()?;
    let rows = PartRows::new(Vec::from_array(alloc, [Row::new(labels, samples)]).ok()?)?;
    let BlockBytes {
        index,
        chunks,
        tombstones,
    } = write(alloc, &rows).ok()?;
    let range = Range::new(0, 30)?;
    let block = Block::open(alloc, range, &index, chunks, &tombstones).ok()?;
    assert_eq!(rt; (block.series_count(), block.sample_count()), (1, 2));
    Some(())
}

#[test]
fn the_example_of_the_first_page_of_block_writer(rt: HostRuntime) {
    write_one_row(&rt, rt.alloc()).expect(&rt, "a row is written");
}

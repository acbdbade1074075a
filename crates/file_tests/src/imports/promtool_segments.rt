//! A segment that promtool 2.42 (Debian) wrote.
//!
//! Of this text `promtool tsdb create-blocks-from openmetrics` made a block, of which the head of
//! chunks/000001 and its first two chunks stand here; the times and values are those that `promtool
//! tsdb dump` printed.
//!
//! ```text
//! # TYPE odd gauge
//! odd{k="0"} 1.5 1700006400.000
//! odd{k="0"} 1.5 1700006413.008
//! odd{k="0"} 1.5 1700006426.016
//! odd{k="1"} NaN 1700006400.000
//! odd{k="1"} NaN 1700006413.008
//! odd{k="1"} NaN 1700006426.016
//! # EOF
//! ```

use chunk_reader::{ChunkError, Chunks};
use index_reader::Chunk;
use prometheus_block::{SourceError, read_chunk};
use xor_reader::FloatSample;

const SEGMENT: &[u8] = b"\x85\xBD\x40\xDD\x01\x00\x00\x00\
    \x13\x01\x00\x03\x80\xC0\xB8\x84\xFA\x62\x3F\xF8\x00\x00\x00\x00\x00\x00\xD0\x65\x00\
    \x64\x66\x25\x7F\
    \x13\x01\x00\x03\x80\xC0\xB8\x84\xFA\x62\x7F\xF8\x00\x00\x00\x00\x00\x01\xD0\x65\x00\
    \xCA\x8D\x0C\x92";

const FIRST: i64 = 1_700_006_400_000;

const LAST: i64 = 1_700_006_426_016;

fn samples_of(bits: u64) -> [FloatSample; 3] {
    [
        FloatSample::new(FIRST, bits),
        FloatSample::new(1_700_006_413_008, bits),
        FloatSample::new(LAST, bits),
    ]
}

fn chunk_at(reference: u64, maxt: i64) -> Chunk {
    Chunk {
        mint: FIRST,
        maxt,
        reference,
    }
}

#[test]
fn chunks_are_read_where_they_stand(rt: HostRuntime) {
    let alloc = rt.alloc();
    let Ok(bytes) = SEGMENT.to_vec(alloc) else {
        panic!(rt; "no memory");
    };
    let Ok(segment) = Chunks::open(bytes) else {
        panic!(rt; "the segment is refused");
    };
    let Ok(first) = read_chunk(alloc, &segment, chunk_at(8, LAST)) else {
        panic!(rt; "the first chunk is refused");
    };
    let want = samples_of(0x3ff8_0000_0000_0000);
    assert_eq!(rt; first.floats.as_slice(), want.as_slice());
    let Ok(second) = read_chunk(alloc, &segment, chunk_at(33, LAST)) else {
        panic!(rt; "the second chunk is refused");
    };
    let want = samples_of(0x7ff8_0000_0000_0001);
    assert_eq!(rt; second.floats.as_slice(), want.as_slice());
}

#[test]
fn other_times_and_places_are_refused(rt: HostRuntime) {
    let alloc = rt.alloc();
    let Ok(bytes) = SEGMENT.to_vec(alloc) else {
        panic!(rt; "no memory");
    };
    let Ok(segment) = Chunks::open(bytes) else {
        panic!(rt; "the segment is refused");
    };
    let late = read_chunk(alloc, &segment, chunk_at(8, LAST + 1)).err();
    assert_eq!(rt; late, Some(SourceError::Chunk(ChunkError::TimesDisagree)));
    let between = read_chunk(alloc, &segment, chunk_at(9, LAST)).err();
    assert_eq!(rt; between, Some(SourceError::Chunk(ChunkError::Crc)));
    let behind = read_chunk(alloc, &segment, chunk_at(58, LAST)).err();
    assert_eq!(rt; behind, Some(SourceError::Chunk(ChunkError::Reference)));
}

//! The worked files of the format, and others as they are written.

use crate::files::{CHUNKS, EMPTY_INDEX, INDEX, NO_DELETIONS, SEGMENT};
use block::{Block, Range};
use block_writer::{BlockBytes, PartRows, write};
use labels::{LabelSet, Row, Sample, SeriesRef};
use std::alloc::Global;

/// The pairs of a label set, and the samples: those from a time up to before another have a value.
type Listed = (
    &'static [(&'static str, &'static str)],
    &'static [(i64, i64, i64)],
);

fn row_of(alloc: Global, listed: &Listed) -> Option<Row> {
    let mut pairs = Vec::new(alloc);
    for (name, value) in listed.0 {
        let name = String::from_str(alloc, name).ok()?;
        pairs
            .push((name, String::from_str(alloc, value).ok()?))
            .ok()?;
    }
    let mut samples = Vec::new(alloc);
    for (from, until, value) in listed.1 {
        for t in *from..*until {
            samples.push(Sample::new(t, *value)).ok()?;
        }
    }
    Some(Row::new(LabelSet::new(alloc, pairs).ok()?, samples))
}

fn rows_of(alloc: Global, listed: &[Listed]) -> Option<Vec<Row>> {
    let mut rows = Vec::new(alloc);
    for one in listed {
        rows.push(row_of(alloc, one)?).ok()?;
    }
    Some(rows)
}

fn part_of(alloc: Global, listed: &[Listed]) -> Option<PartRows> {
    PartRows::new(rows_of(alloc, listed)?)
}

/// The files of a part of these rows.
fn written(alloc: Global, listed: &[Listed]) -> Option<BlockBytes> {
    let part = part_of(alloc, listed)?;
    write(alloc, &part).ok()
}

/// Bytes of a file, and where they stand.
type Bytes = &'static [(usize, &'static [u8])];

/// Rows, and some bytes of the index and of the chunks file, whose length stands between them.
const WRITTEN: &[(&[Listed], Bytes, usize, Bytes)] = &[
    // No rows make an index of the empty pair.
    (&[], &[(0, EMPTY_INDEX)], 8, &[(0, SEGMENT)]),
    // Two samples stand in one chunk.
    (
        &[(&[("job", "a")], &[(-5, -4, 7), (6, 7, -8)])],
        &[],
        48,
        &[(
            8,
            &[
                0x22, 0xE0, 0x00, 0x02, 0xFF, 0xFF, 0xFF, 0xFF, 0xFF, 0xFF, 0xFF, 0xFB, 0, 0, 0, 0,
                0, 0, 0, 0x07, 0, 0, 0, 0, 0, 0, 0, 0x06, 0xFF, 0xFF, 0xFF, 0xFF, 0xFF, 0xFF, 0xFF,
                0xF8, 0x30, 0x22, 0x4E, 0xC7,
            ],
        )],
    ),
    // Chunks stand side by side.
    (
        &[
            (&[("job", "a")], &[(0, 121, 1)]),
            (&[("job", "b")], &[(0, 120, 1)]),
            (&[("job", "c")], &[(10, 11, 1)]),
        ],
        &[],
        3914,
        &[
            (8, &[0x82, 0x0F, 0xE0, 0x00, 0x78]),
            (1937, &[0x12, 0xE0, 0x00, 0x01, 0x00]),
            (1961, &[0x82, 0x0F, 0xE0, 0x00, 0x78]),
            (3890, &[0x12, 0xE0, 0x00, 0x01, 0x00]),
        ],
    ),
    // A later chunk is told by its distance. One label, of one symbol; two chunks: from 0 to 119 at
    // 8, and 1 later, no longer than itself, 1929 further.
    (
        &[(&[("job", "job")], &[(0, 121, 1)])],
        &[(
            32,
            &[
                0x0B, 0x01, 0x00, 0x00, 0x02, 0x00, 0x77, 0x08, 0x01, 0x00, 0x92, 0x1E,
            ],
        )],
        1961,
        &[],
    ),
];

/// Whether a file has these bytes.
fn has_bytes(file: &[u8], want: Bytes) -> bool {
    for (at, bytes) in want {
        let rest = file.get(*at..).unwrap_or(&[]);
        if !rest.starts_with(bytes) {
            return false;
        }
    }
    true
}

#[test]
fn chunks_stand_side_by_side_and_no_rows_make_an_index_of_the_empty_pair(rt: HostRuntime) {
    let alloc = rt.alloc();
    for (listed, index, len, chunks) in WRITTEN {
        let files = written(alloc, listed).expect(&rt, "it is written");
        assert!(rt; has_bytes(&files.index, index), "of {} rows", listed.len());
        assert!(rt; files.chunks.len() == *len, "of {} rows", listed.len());
        assert!(rt;
            has_bytes(&files.chunks, chunks),
            "of {} rows",
            listed.len()
        );
    }
    let files = written(alloc, &[]).expect(&rt, "it is written");
    assert!(rt; files.index.len() == 112);
}

/// Six series of one sample at 10.
const WORKED: &[Listed] = &[
    (&[("__name__", "down"), ("job", "a")], &[(10, 11, 4)]),
    (&[("__name__", "down"), ("job", "b")], &[(10, 11, 5)]),
    (&[("__name__", "up"), ("job", "a")], &[(10, 11, 1)]),
    (
        &[("__name__", "up"), ("job", "a"), ("zone", "x")],
        &[(10, 11, 6)],
    ),
    (&[("__name__", "up"), ("job", "b")], &[(10, 11, 2)]),
    (
        &[("__name__", "up"), ("job", "b"), ("zone", "x")],
        &[(10, 11, 3)],
    ),
];

#[test]
fn the_worked_block_is_written(rt: HostRuntime) {
    let files = written(rt.alloc(), WORKED).expect(&rt, "it is written");
    assert!(rt; files.index.as_slice() == INDEX);
    assert!(rt; files.chunks.as_slice() == CHUNKS);
    assert!(rt; files.tombstones.as_slice() == NO_DELETIONS);
}

/// The block from 0 up to 121 of the files of these rows.
fn written_block(alloc: Global, part: &PartRows) -> Option<Block> {
    let BlockBytes {
        index,
        chunks,
        tombstones,
    } = write(alloc, part).ok()?;
    let range = Range::new(0, 121)?;
    Block::open(alloc, range, &index, chunks, &tombstones).ok()
}

fn are_rows(found: &[(SeriesRef, Row)], want: &[Row]) -> bool {
    for ((_, row), other) in found.iter().zip(want) {
        if row.labels() != other.labels() || row.samples() != other.samples() {
            return false;
        }
    }
    found.len() == want.len()
}

/// Two series: of 121 samples, in two chunks, and of one sample.
const OF_THREE_CHUNKS: &[Listed] = &[
    (&[("job", "a")], &[(0, 121, 1)]),
    (&[("job", "b")], &[(10, 11, 1)]),
];

#[test]
fn what_is_written_is_opened(rt: HostRuntime) {
    let alloc = rt.alloc();
    let part = part_of(alloc, OF_THREE_CHUNKS).expect(&rt, "it is a part");
    let block = written_block(alloc, &part).expect(&rt, "it opens");
    let found = block.list_all(alloc).ok().expect(&rt, "there is memory");
    assert!(rt; are_rows(&found, part.rows()));
    assert!(rt; found.len() == 2);
}

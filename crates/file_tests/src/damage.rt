//! Files damaged: any byte of them, and any end.

use crate::files::{CHUNKS, INDEX, NO_DELETIONS};
use crate::{chunks, deletions, indexes};
use std::alloc::Global;

/// What a file is read as.
enum Format {
    Index,
    Chunks,
    Tombstones,
}

/// The code that the file is refused with, or `ok`.
fn code_of(alloc: Global, format: &Format, file: &[u8]) -> &'static str {
    match format {
        Format::Index => indexes::code_of(alloc, file),
        Format::Chunks => chunks::code_of(alloc, file),
        Format::Tombstones => deletions::code_of(alloc, file),
    }
}

/// The deletion of the series 6 from -2 to 20.
const ONE_DELETION: &[u8] = &[
    0x01, 0x30, 0xBA, 0x30, 0x01, 0x06, 0x03, 0x28, 0x2F, 0x56, 0x2B, 0xE5,
];

/// A file, and codes, each with the place that it goes up to from where the one before it ends.
type Codes = (Format, &'static [u8], &'static [(usize, &'static str)]);

/// The codes for any other byte at each place of the worked index.
const OF_INDEX: Codes = (
    Format::Index,
    INDEX,
    &[
        (4, "I2"),
        (5, "I3"),
        (49, "I6"),
        (64, "I9"),
        (78, "I8"),
        (80, "I9"),
        (94, "I8"),
        (96, "I9"),
        (110, "I8"),
        (112, "I9"),
        (142, "I8"),
        (144, "I9"),
        (161, "I8"),
        (313, "I11"),
        (390, "I13"),
        (442, "I4"),
    ],
);

/// The same of other files.
const OF_BYTES: &[Codes] = &[
    (Format::Chunks, CHUNKS, &[(4, "C1"), (8, "C2"), (152, "C4")]),
    (
        Format::Tombstones,
        NO_DELETIONS,
        &[(4, "T1"), (5, "T2"), (9, "T3")],
    ),
    (
        Format::Tombstones,
        ONE_DELETION,
        &[(4, "T1"), (5, "T2"), (12, "T3")],
    ),
];

fn put(file: &mut [u8], place: usize, byte: u8) {
    if let Some(slot) = file.get_mut(place) {
        *slot = byte;
    }
}

/// Whether each of the 255 other values of the byte at the place leads to this code.
fn damage_gives(alloc: Global, format: &Format, file: &mut [u8], place: usize, want: &str) -> bool {
    let Some(good) = file.get(place).copied() else {
        return false;
    };
    let mut all = true;
    for byte in 0..=255 {
        put(file, place, byte);
        all = all && (byte == good || code_of(alloc, format, file) == want);
    }
    put(file, place, good);
    all
}

/// The place up to which any other byte of a file is refused as it is to be, or 0 where the file as
/// it is is refused.
fn refused_until(alloc: Global, row: &Codes) -> usize {
    let (format, bytes, codes) = row;
    let Ok(mut file) = bytes.to_vec(alloc) else {
        return 0;
    };
    let mut from = 0;
    for (until, code) in *codes {
        for place in from..*until {
            if !damage_gives(alloc, format, &mut file, place, code) {
                return place;
            }
        }
        from = *until;
    }
    if code_of(alloc, format, &file) == "ok" {
        from
    } else {
        0
    }
}

#[test]
fn every_damaged_byte_of_an_index_is_refused(rt: HostRuntime) {
    let place = refused_until(rt.alloc(), &OF_INDEX);
    assert!(rt; place == INDEX.len(), "at {place}");
}

#[test]
fn every_damaged_byte_of_chunks_and_of_deletions_is_refused(rt: HostRuntime) {
    for row in OF_BYTES {
        let place = refused_until(rt.alloc(), row);
        assert!(rt; place == row.1.len(), "at {place}");
    }
}

/// The codes of so many first bytes alone.
const OF_FRONTS: &[Codes] = &[
    (Format::Index, INDEX, &[(57, "I1"), (442, "I4")]),
    (
        Format::Chunks,
        CHUNKS,
        &[
            (4, "C1"),
            (8, "C2"),
            (9, "C3"),
            (32, "C4"),
            (33, "C3"),
            (56, "C4"),
            (57, "C3"),
            (80, "C4"),
            (81, "C3"),
            (104, "C4"),
            (105, "C3"),
            (128, "C4"),
            (129, "C3"),
            (152, "C4"),
        ],
    ),
    (
        Format::Tombstones,
        ONE_DELETION,
        &[(4, "T1"), (5, "T2"), (9, "T4"), (12, "T3")],
    ),
];

#[test]
fn every_shorter_file_is_refused(rt: HostRuntime) {
    let alloc = rt.alloc();
    for (format, file, codes) in OF_FRONTS {
        let mut from = 0;
        for (until, code) in *codes {
            for kept in from..*until {
                let front = file.get(..kept).unwrap_or(&[]);
                assert!(rt; code_of(alloc, format, front) == *code, "{kept} bytes");
            }
            from = *until;
        }
        assert!(rt; from == file.len());
    }
}

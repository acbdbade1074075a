//! Blocks of one series whose chunks are made by a rule.

use super::counted;
use block::Block;

/// The lengths of chunks, deletions, where the range ends, how many samples the block has, and the
/// code of its refusal.
const COUNTED: &[(&[u64], &[u8], i64, u64, &str)] = &[
    (&[120, 1], &[], 121, 121, "ok"),
    (&[120, 1], &[], 120, 0, "B1"),
    (&[1, 1, 1], &[], 3, 3, "ok"),
    // From 119 to 120, which are spelled 238 and 240.
    (&[120, 1], &[0x02, 0xEE, 0x01, 0xF0, 0x01], 121, 119, "ok"),
    // 16 chunks of 65,535 samples, which are 16 less than 1,048,576, and one of 17 or of 16.
    (
        &[
            65_535, 65_535, 65_535, 65_535, 65_535, 65_535, 65_535, 65_535, 65_535, 65_535, 65_535,
            65_535, 65_535, 65_535, 65_535, 65_535, 17,
        ],
        &[0x03, 0x00, 0x00],
        1,
        0,
        "I15",
    ),
    (
        &[
            65_535, 65_535, 65_535, 65_535, 65_535, 65_535, 65_535, 65_535, 65_535, 65_535, 65_535,
            65_535, 65_535, 65_535, 65_535, 65_535, 16,
        ],
        &[],
        1_048_576,
        1_048_576,
        "ok",
    ),
];

/// How many samples a block has, and `ok`; or 0, and the code of its refusal.
fn count_of(made: Result<Block, &'static str>) -> (u64, &'static str) {
    match made {
        Ok(block) => (block.sample_count(), "ok"),
        Err(code) => (0, code),
    }
}

#[test]
fn a_series_has_several_chunks_and_a_mebi_of_samples_at_most(rt: HostRuntime) {
    for (lengths, entries, until, samples, want) in COUNTED {
        let found = count_of(counted(rt.alloc(), lengths, entries, *until));
        assert!(rt;
            found.0 == *samples && found.1 == *want,
            "{lengths:?} up to {until}"
        );
    }
}

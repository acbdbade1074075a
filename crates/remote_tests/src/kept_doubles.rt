//! Doubles and the numbers that are kept for them.

use stored_doubles::{restored, stored, swapped};

/// The bits of doubles, by Python's `struct.pack(">d", x)`, and what is kept for each.
const KEPT: &[(u64, i64)] = &[
    // 0.0, and minus zero
    (0, 0),
    (0x8000_0000_0000_0000, i64::MIN),
    // 1, -1, 42, 2^53 - 1, 2^53, -(2^53), 2^53 + 2
    (0x3FF0_0000_0000_0000, 1),
    (0xBFF0_0000_0000_0000, -1),
    (0x4045_0000_0000_0000, 42),
    (0x433F_FFFF_FFFF_FFFF, 9_007_199_254_740_991),
    (0x4340_0000_0000_0000, 9_007_199_254_740_992),
    (0xC340_0000_0000_0000, -9_007_199_254_740_992),
    (0x4340_0000_0000_0001, 4_845_873_199_050_653_697),
    // 0.1, the mark of a series' end, plus infinity
    (0x3FB9_9999_9999_999A, 4_591_870_180_066_957_722),
    (0x7FF0_0000_0000_0002, 9_218_868_437_227_405_314),
    (0x7FF0_0000_0000_0000, 9_218_868_437_227_405_312),
    // minus infinity has the bits of -(2^52), and the least of all doubles those of 1
    (0xFFF0_0000_0000_0000, -4_382_002_437_431_492_608),
    (1, 0x3FF0_0000_0000_0000),
    (u64::MAX, -0x4010_0000_0000_0000),
];

#[test]
fn each_double_is_kept_and_restored(rt: HostRuntime) {
    for (bits, number) in KEPT {
        assert!(rt; stored(*bits) == *number, "of {bits:?}");
        assert!(rt; restored(*number) == *bits, "of {number:?}");
        assert!(rt; swapped(swapped(*number)) == *number, "of {number:?}");
    }
}

//! Doubles whose bits are documented: the examples of binary64 in Wikipedia's "Double-precision
//! floating-point format", and Prometheus's own NaNs (model/value/value.go).

use doubles::{decimal, is_stale, rounded, whole};

#[test]
fn whole_numbers_are_told(rt: HostRuntime) {
    // 1, the double after 1, -2, 23, 0, -0.
    assert_eq!(rt; whole(0x3ff0_0000_0000_0000), Some(1));
    assert_eq!(rt; whole(0x3ff0_0000_0000_0001), None);
    assert_eq!(rt; whole(0xc000_0000_0000_0000), Some(-2));
    assert_eq!(rt; whole(0x4037_0000_0000_0000), Some(23));
    assert_eq!(rt; whole(0x0000_0000_0000_0000), Some(0));
    assert_eq!(rt; whole(0x8000_0000_0000_0000), Some(0));
    // The least and the greatest double above 0, infinity, a NaN.
    assert_eq!(rt; whole(0x0000_0000_0000_0001), None);
    assert_eq!(rt; whole(0x7fef_ffff_ffff_ffff), None);
    assert_eq!(rt; whole(0x7ff0_0000_0000_0000), None);
    assert_eq!(rt; whole(0x7ff8_0000_0000_0001), None);
    // 2^62 and 2^63.
    assert_eq!(rt;
        whole(0x43d0_0000_0000_0000),
        Some(4_611_686_018_427_387_904)
    );
    assert_eq!(rt; whole(0x43e0_0000_0000_0000), None);
}

#[test]
fn decimals_are_told(rt: HostRuntime) {
    // 3/256 = 0.01171875.
    assert_eq!(rt; decimal(0x3f88_0000_0000_0000, 8), Some(1_171_875));
    assert_eq!(rt; decimal(0x3f88_0000_0000_0000, 9), Some(11_718_750));
    assert_eq!(rt; decimal(0x3f88_0000_0000_0000, 7), None);
    // 0.1, which is read as a double above it.
    assert_eq!(rt; decimal(0x3fb9_9999_9999_999a, 1), Some(1));
    assert_eq!(rt; decimal(0xbfb9_9999_9999_999a, 0), None);
    // The doubles next to 1/3 and to pi.
    assert_eq!(rt; decimal(0x3fd5_5555_5555_5555, 9), None);
    assert_eq!(rt; decimal(0x4009_21fb_5444_2d18, 9), None);
}

#[test]
fn halves_go_to_the_even_number(rt: HostRuntime) {
    // 2.5, 3.5, -0.5, as Python's round gives them.
    assert_eq!(rt; rounded(0x4004_0000_0000_0000, 0), Some(2));
    assert_eq!(rt; rounded(0x400c_0000_0000_0000, 0), Some(4));
    assert_eq!(rt; rounded(0xbfe0_0000_0000_0000, 0), Some(0));
    // The double next to pi, the least above 0, 2^63, infinity, a NaN.
    assert_eq!(rt; rounded(0x4009_21fb_5444_2d18, 9), Some(3_141_592_654));
    assert_eq!(rt; rounded(0x0000_0000_0000_0001, 9), Some(0));
    assert_eq!(rt; rounded(0x43e0_0000_0000_0000, 0), None);
    assert_eq!(rt; rounded(0x7ff0_0000_0000_0000, 0), None);
    assert_eq!(rt; rounded(0x7ff8_0000_0000_0001, 0), None);
}

#[test]
fn one_nan_marks_the_end_of_a_series(rt: HostRuntime) {
    assert!(rt; is_stale(0x7ff0_0000_0000_0002));
    assert!(rt; !is_stale(0x7ff8_0000_0000_0001));
    assert!(rt; !is_stale(0x7ff0_0000_0000_0000));
}

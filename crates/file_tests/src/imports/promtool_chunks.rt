//! Chunks that promtool 2.42 (Debian) wrote.
//!
//! This text was given to `promtool tsdb create-blocks-from openmetrics`:
//!
//! ```text
//! # TYPE alone gauge
//! alone -0 1700000002.008
//! # TYPE steps gauge
//! steps 1 1700000000.000
//! steps 1 1700000001.000
//! steps 2.5 1700000002.500
//! steps NaN 1700000012.192
//! steps +Inf 1700000013.693
//! steps -0.1 1700000075.194
//! steps -0.1 1700000076.695
//! steps 3 1700000578.196
//! steps 4 1700001967.697
//! steps 5 1700001968.198
//! # TYPE windows gauge
//! windows 12 1700000000
//! windows 12 1700000015
//! windows 24 1700000030
//! windows 13 1700000045
//! windows 0.1 1700000060
//! windows 9223372036854775808 1700000075
//! windows 5e-324 1700000090
//! # EOF
//! ```
//!
//! The data of the three chunks was cut out of the block's chunks/000001, and `promtool tsdb dump`
//! printed the times and values that are wanted here (9.223372036854776e+18 for 2^63). Their bits
//! are those of IEEE 754; the NaN is Prometheus's normal one, 0x7ff8000000000001. The steps change
//! by 500, 8192 (the greatest of the shortest form), -8191, 60000, -60000, 500000, 888000 and
//! -1389000 milliseconds, so each form of a change stands there.

use xor_reader::{FloatSample, XorError, read_xor_chunk};

const ALONE: &[u8] = b"\x00\x01\xB0\xBF\xAB\xFE\xF9\x62\x80\x00\x00\x00\x00\x00\x00\x00\x00";

const STEPS: &[u8] = b"\x00\x0A\x80\xA0\xAB\xFE\xF9\x62\x3F\xF0\x00\x00\x00\x00\x00\x00\xE8\x07\
    \x40\xFA\x61\x37\xFF\xB4\x00\x18\xBE\xFF\xF0\x00\x00\x00\x00\x00\x06\x80\x06\x00\x20\x00\x00\
    \x00\x00\x00\x07\x3A\x98\x30\x7F\x80\x93\x33\x33\x33\x33\x33\x37\x45\x68\x1C\xF4\x24\x17\xFD\
    \x8C\xCC\xCC\xCC\xCC\xCC\xDF\x00\x00\x00\x00\x00\x0D\x8C\xC0\x80\x06\x00\x00\x00\x00\x00\x00\
    \x7F\xFF\xFF\xFF\xFF\xFF\x56\x71\xC4\x00\x08\x00\x00\x00\x00\x00\x00";

const WINDOWS: &[u8] = b"\x00\x07\x80\xA0\xAB\xFE\xF9\x62\x40\x28\x00\x00\x00\x00\x00\x00\x98\x75\
    \x35\x83\x6B\x12\x58\x7E\xFF\x27\x33\x33\x33\x33\x33\x35\x7C\x59\x99\x99\x99\x99\x99\x9A\xC3\
    \xFC\x3E\x00\x00\x00\x00\x00\x00\x10";

#[test]
fn a_chunk_of_one_sample_is_read(rt: HostRuntime) {
    let Ok(samples) = read_xor_chunk(rt.alloc(), ALONE) else {
        panic!(rt; "the chunk is refused");
    };
    let want = [FloatSample::new(1_700_000_002_008, 0x8000_0000_0000_0000)];
    assert_eq!(rt; samples.as_slice(), want.as_slice());
}

#[test]
fn each_form_of_a_change_is_read(rt: HostRuntime) {
    let Ok(samples) = read_xor_chunk(rt.alloc(), STEPS) else {
        panic!(rt; "the chunk is refused");
    };
    let want = [
        FloatSample::new(1_700_000_000_000, 0x3ff0_0000_0000_0000),
        FloatSample::new(1_700_000_001_000, 0x3ff0_0000_0000_0000),
        FloatSample::new(1_700_000_002_500, 0x4004_0000_0000_0000),
        FloatSample::new(1_700_000_012_192, 0x7ff8_0000_0000_0001),
        FloatSample::new(1_700_000_013_693, 0x7ff0_0000_0000_0000),
        FloatSample::new(1_700_000_075_194, 0xbfb9_9999_9999_999a),
        FloatSample::new(1_700_000_076_695, 0xbfb9_9999_9999_999a),
        FloatSample::new(1_700_000_578_196, 0x4008_0000_0000_0000),
        FloatSample::new(1_700_001_967_697, 0x4010_0000_0000_0000),
        FloatSample::new(1_700_001_968_198, 0x4014_0000_0000_0000),
    ];
    assert_eq!(rt; samples.as_slice(), want.as_slice());
}

#[test]
fn new_and_old_windows_are_read(rt: HostRuntime) {
    let Ok(samples) = read_xor_chunk(rt.alloc(), WINDOWS) else {
        panic!(rt; "the chunk is refused");
    };
    let want = [
        FloatSample::new(1_700_000_000_000, 0x4028_0000_0000_0000),
        FloatSample::new(1_700_000_015_000, 0x4028_0000_0000_0000),
        FloatSample::new(1_700_000_030_000, 0x4038_0000_0000_0000),
        FloatSample::new(1_700_000_045_000, 0x402a_0000_0000_0000),
        FloatSample::new(1_700_000_060_000, 0x3fb9_9999_9999_999a),
        FloatSample::new(1_700_000_075_000, 0x43e0_0000_0000_0000),
        FloatSample::new(1_700_000_090_000, 0x0000_0000_0000_0001),
    ];
    assert_eq!(rt; samples.as_slice(), want.as_slice());
}

#[test]
fn refusals_have_their_codes(rt: HostRuntime) {
    let Some(short) = read_xor_chunk(rt.alloc(), &WINDOWS[..48]).err() else {
        panic!(rt; "a chunk that is cut short is read");
    };
    assert_eq!(rt; short, XorError::Short);
    assert_eq!(rt; short.code(), "X1");
    let none = read_xor_chunk(rt.alloc(), b"\0\0").err();
    assert_eq!(rt; none, Some(XorError::Empty));
}

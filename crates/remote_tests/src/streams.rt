//! Snappy's streams.

use snappy::{Fault, SnappyError, compress, decompress};
use std::test::Fail;

/// Streams and their texts: the example of the format's description, one that libsnappy wrote, and
/// one text by each kind of copy; no text at all.
const STREAMS: &[(&[u8], &[u8])] = &[
    (b"\x07\x08xab\x01\x02", b"xababab"),
    (
        b"\x1d\x14hello \x5a\x06\x00",
        b"hello hello hello hello hello",
    ),
    (b"\x0c\x08abc\x15\x03", b"abcabcabcabc"),
    (b"\x0c\x08abc\x22\x03\x00", b"abcabcabcabc"),
    (b"\x0c\x08abc\x23\x03\x00\x00\x00", b"abcabcabcabc"),
    (b"\x03\xf0\x02abc", b"abc"),
    (b"\x03\xfc\x02\x00\x00\x00abc", b"abc"),
    (b"\x83\x00\x08abc", b"abc"),
    (b"\x00", b""),
];

#[test]
fn streams_are_read(rt: HostRuntime) -> Result<(), Fail> {
    for (bytes, text) in STREAMS {
        let read = decompress(rt.alloc(), bytes, text.len())?;
        assert!(rt; read.as_slice() == *text, "of {bytes:?}");
    }
    Ok(())
}

/// Bytes, and their first fault under a limit of 200 bytes with its place.
const FAULTS: &[(&[u8], Fault, usize)] = &[
    (b"", Fault::Length, 0),
    (b"\x80", Fault::Length, 0),
    (b"\x80\x80\x80\x80\x10", Fault::Length, 0),
    (b"\xc9\x01\x00a", Fault::Limit, 0),
    (b"\xff\xff\xff\xff\x0f\x00a", Fault::Limit, 0),
    // 128 bytes need six, since three can give 64.
    (b"\x80\x01\x00a\xfe\x01\x00", Fault::OutOfReach, 0),
    (b"\x80\x01\x00a\xfe\x01\x00\xfa", Fault::Short, 7),
    (b"\x03\x08ab", Fault::Short, 1),
    (b"\x05\x00a\x01\x02", Fault::Offset, 3),
    (b"\x05\x00a\x02\x00\x00", Fault::Offset, 3),
    (b"\x05\x01\x01", Fault::Offset, 1),
    (b"\x02\x08abc", Fault::Overrun, 1),
    (b"\x02\x00a\x06\x01\x00", Fault::Overrun, 3),
    (b"\x05\x08abc", Fault::Unfinished, 5),
];

#[test]
fn the_first_fault_and_its_place(rt: HostRuntime) {
    for (bytes, fault, place) in FAULTS {
        let read = decompress(rt.alloc(), bytes, 200).err();
        assert!(rt;
            read == Some(SnappyError::Fault(*fault, *place)),
            "of {bytes:?}"
        );
    }
}

#[test]
fn a_repeated_text_is_written_as_libsnappy_does(rt: HostRuntime) -> Result<(), Fail> {
    let packed = compress(rt.alloc(), b"hello hello hello hello hello")?;
    assert!(rt; packed.as_slice() == b"\x1d\x14hello \x5a\x06\x00".as_slice());
    Ok(())
}

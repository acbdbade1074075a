//! Numbers of seven bits a byte, and fields.

use protobuf_fields::{Fault, Field, field_of};
use std::test::Fail;
use varints::{VarintError, put_varint, varint_len, varint_of};

/// Numbers and their shortest spellings: the examples of Snappy's format description and of the
/// page "Encoding" of Protocol Buffers, and the ends.
const SPELLED: &[(u64, &[u8])] = &[
    (64, &[0x40]),
    (2_097_150, &[0xFE, 0xFF, 0x7F]),
    (1, &[0x01]),
    (150, &[0x96, 0x01]),
    (0, &[0x00]),
    (
        u64::MAX,
        &[0xFF, 0xFF, 0xFF, 0xFF, 0xFF, 0xFF, 0xFF, 0xFF, 0xFF, 0x01],
    ),
];

#[test]
fn numbers_are_read_and_written(rt: HostRuntime) -> Result<(), Fail> {
    let mut out = Vec::new(rt.alloc());
    for (number, bytes) in SPELLED {
        assert!(rt;
            varint_of(bytes) == Ok((*number, [].as_slice())),
            "of {bytes:?}"
        );
        assert!(rt; varint_len(*number) == bytes.len(), "of {bytes:?}");
        out.clear();
        put_varint(&mut out, *number)?;
        assert!(rt; out.as_slice() == *bytes, "of {bytes:?}");
    }
    Ok(())
}

#[test]
fn spare_bytes_are_read_and_too_many_refused(rt: HostRuntime) {
    assert!(rt; varint_of(&[0x81, 0x80, 0x00, 9]) == Ok((1, [9].as_slice())));
    assert!(rt; varint_of(&[0x80; 11]) == Err(VarintError::TooBig));
    assert!(rt; varint_of(&[0x80; 9]) == Err(VarintError::Short));
    assert!(rt; varint_of(&[]) == Err(VarintError::Short));
}

/// What `Field` would be printed as, and of which bytes.
fn is_read(bytes: &[u8], number: u32, value: u64) -> bool {
    match field_of(bytes) {
        Ok((Field::Number(n, v), _)) | Ok((Field::Eight(n, v), _)) => n == number && v == value,
        Ok((Field::Four(n, v), _)) => n == number && u64::from(v) == value,
        _ => false,
    }
}

fn is_text(bytes: &[u8], number: u32, text: &[u8]) -> bool {
    match field_of(bytes) {
        Ok((Field::Text(n, t), _)) => n == number && t == text,
        _ => false,
    }
}

/// Bytes, and the fault of the field in front of them.
const FAULTS: &[(&[u8], Fault)] = &[
    (&[0x0A, 3, b'u', b'p'], Fault::Short),
    (&[0x09, 0, 0, 0, 0, 0, 0, 0], Fault::Short),
    (&[0x80; 11], Fault::TooBig),
    (&[0x02, 0], Fault::Key),
    (&[0x80, 0x80, 0x80, 0x80, 0x10, 0], Fault::Key),
    (&[0x2B, 0x2C], Fault::Kind),
    (&[0x2C], Fault::Kind),
    (&[0x2E, 0], Fault::Kind),
];

#[test]
fn fields_are_those_of_the_page_encoding(rt: HostRuntime) {
    // Its first example, of the message {1: 150}, and its second, {2: "testing"}.
    assert!(rt; is_read(&[0x08, 0x96, 0x01], 1, 150));
    assert!(rt; is_text(b"\x12\x07testing", 2, b"testing"));
    assert!(rt;
        is_read(
            &[0x11, 0, 0, 0, 0, 0, 0, 0xF8, 0x3F],
            2,
            0x3FF8_0000_0000_0000
        )
    );
    assert!(rt; is_read(&[0x15, 1, 2, 0, 0], 2, 513));
    for (bytes, fault) in FAULTS {
        assert!(rt; field_of(bytes).err() == Some(*fault), "of {bytes:?}");
    }
}

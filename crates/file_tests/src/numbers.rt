//! What is put, by the rows of the format documents, and checksums by public vectors.

use std::alloc::AllocError;
use std::test::Fail;
use wire::{
    Cut, WireError, crc32c, put_be32, put_be64, put_bytes, put_u8, put_uvarint, put_varint,
};

#[test]
fn the_example_of_the_first_page(rt: HostRuntime) -> Result<(), Fail> {
    let mut out = Vec::new(rt.alloc());
    put_uvarint(&mut out, 300)?;
    put_bytes(&mut out, b"up")?;

    let mut cut = Cut::new(out.as_slice());
    assert_eq!(rt; cut.uvarint(), Ok(300));
    assert_eq!(rt; cut.bytes(2), Ok(b"up".as_slice()));
    assert_eq!(rt; cut.u8(), Err(WireError::Short));
    Ok(())
}

/// What each call that puts a field appends.
const PUT: &[u8] = &[7, 0, 0, 1, 0, 0, 0, 0, 0, 0, 0, 2, 1, 0xAC, 0x02, 3, 9, 8];

fn put_each(out: &mut Vec<u8>) -> Result<(), AllocError> {
    put_u8(out, 7)?;
    put_be32(out, 256)?;
    put_be64(out, 513)?;
    put_uvarint(out, 300)?;
    put_varint(out, -2)?;
    put_bytes(out, &[9, 8])
}

/// Bytes, and their checksum as it is published.
const SUMS: &[(&[u8], u32)] = &[
    (b"", 0),
    (b"123456789", 0xE306_9283),
    (&[0; 32], 0x8A91_36AA),
    (&[0xFF; 32], 0x62A8_AB43),
];

#[test]
fn each_put_appends_its_spelling_and_checksums_are_those_of_public_vectors(rt: HostRuntime) {
    let mut out = Vec::new(rt.alloc());
    assert!(rt; put_each(&mut out).is_ok());
    assert!(rt; out.as_slice() == PUT);
    for (bytes, sum) in SUMS {
        assert!(rt; crc32c(bytes) == *sum, "of {bytes:?}");
    }
    assert!(rt; WireError::Short.code() == "W1");
    assert!(rt; WireError::LongForm.code() == "W2");
    assert!(rt; WireError::TooBig.code() == "W3");
}

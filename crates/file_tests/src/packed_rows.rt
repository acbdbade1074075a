//! How many bytes packed chunks take, which no clause says, by hand, and each call once.

use labels::Sample;
use packed_chunks::{PackedChunk, PackedChunks};
use std::alloc::{AllocError, Global};
use std::io;
use std::process::Abort;

/// Samples of these values, 15 seconds apart, each so many milliseconds late.
fn scrapes(alloc: Global, values: &[i64], late: &[i64]) -> Result<Vec<Sample>, AllocError> {
    let mut samples = Vec::new(alloc);
    let mut time = 1_700_000_000_000i64;
    let mut i = 0;
    for value in values {
        let by = late.get(i).copied().unwrap_or(0);
        samples.push(Sample::new(time.wrapping_add(by), *value))?;
        time = time.wrapping_add(15_000);
        i = if i < 100 { i + 1 } else { 0 };
    }
    Ok(samples)
}

/// Packs the samples, sees that they are given back, and tells how many bytes their rows take.
fn packed_len(rt: &impl Abort, alloc: Global, samples: &[Sample]) -> Result<usize, AllocError> {
    if 65_535 < samples.len() {
        return Ok(0);
    }
    let chunk = PackedChunk::encode(alloc, samples)?;
    let mut found = Vec::new(alloc);
    chunk.samples().push_all(&mut found)?;
    assert!(rt; found.as_slice() == samples);
    Ok(chunk.len_in_bytes())
}

#[test]
fn the_example_of_the_first_page(rt: HostRuntime) -> io::Result<()> {
    let scrapes = [
        Sample::new(15_000, 7),
        Sample::new(30_004, 9),
        Sample::new(45_001, 12),
    ];
    let chunk = PackedChunk::encode(rt.alloc(), &scrapes)?;
    let samples = chunk.samples();
    assert_eq!(rt; samples.get(1), Sample::new(30_004, 9));
    assert_eq!(rt; samples.place_from(30_000), 1);
    assert_eq!(rt; chunk.len_in_bytes(), 11);
    Ok(())
}

#[test]
fn rows_are_as_narrow_as_lines_allow(rt: HostRuntime) -> io::Result<()> {
    let alloc = rt.alloc();
    let on_time = [0i64; 8];
    let late = [0, 3, 1, 2, 3, 0, 2, 1];
    // Both lines meet all samples, so there are no rows before the eight bytes.
    let constant = scrapes(alloc, &[7; 8], &on_time)?;
    assert_eq!(rt; packed_len(&rt, alloc, &constant)?, 8);
    let rising = scrapes(alloc, &[1, 4, 7, 10, 13, 16, 19, 22], &on_time)?;
    assert_eq!(rt; packed_len(&rt, alloc, &rising)?, 8);
    // Six bits of a value and two of a time make a byte.
    let gauge = scrapes(alloc, &[49, 3, 17, 0, 22, 8, 31, 5], &late)?;
    assert_eq!(rt; packed_len(&rt, alloc, &gauge)?, 8 + 8);
    // The bits of 1.0, 2.0, 3.0, 2.0, 1.0, 4.0, 2.0, 3.0 differ above the 51 lowest: 3 bits each.
    let doubles = scrapes(
        alloc,
        &[
            0x3FF0_0000_0000_0000,
            0x4000_0000_0000_0000,
            0x4008_0000_0000_0000,
            0x4000_0000_0000_0000,
            0x3FF0_0000_0000_0000,
            0x4010_0000_0000_0000,
            0x4000_0000_0000_0000,
            0x4008_0000_0000_0000,
        ],
        &late,
    )?;
    assert_eq!(rt; packed_len(&rt, alloc, &doubles)?, 8 + 8);
    // 64 bits of a value, and two of a time, in a byte of its own.
    let wide = scrapes(
        alloc,
        &[i64::MAX, i64::MIN, 5, -1, 7, i64::MAX, 0, -9],
        &late,
    )?;
    assert_eq!(rt; packed_len(&rt, alloc, &wide)?, 8 * 9 + 8);
    assert_eq!(rt; packed_len(&rt, alloc, &[])?, 8);
    let one = [Sample::new(i64::MIN, i64::MAX)];
    assert_eq!(rt; packed_len(&rt, alloc, &one)?, 8);
    // Times as far apart as they can be, so each row is the sample itself.
    let any = [
        Sample::new(i64::MAX, 1),
        Sample::new(i64::MIN, i64::MIN),
        Sample::new(0, i64::MAX),
    ];
    assert_eq!(rt; packed_len(&rt, alloc, &any)?, 3 * 16 + 8);
    Ok(())
}

#[test]
fn chunks_stand_one_after_the_other(rt: HostRuntime) -> io::Result<()> {
    let alloc = rt.alloc();
    let mut chunks = PackedChunks::new(alloc);
    let mut scratch = Vec::new(alloc);
    let first = scrapes(alloc, &[5, 9, 2], &[])?;
    let second = scrapes(alloc, &[i64::MIN, 9, 2, 4], &[2, 0, 1])?;
    if 65_535 < first.len() || 65_535 < second.len() {
        return Ok(());
    }
    chunks.push(&mut scratch, &first)?;
    chunks.push(&mut scratch, &second)?;
    assert_eq!(rt; chunks.len(), 2);
    let mut found = Vec::new(alloc);
    for i in 0..2 {
        if i < chunks.len() {
            chunks.get(i).push_all(&mut found)?;
        }
    }
    let mut both = Vec::new(alloc);
    both.extend_from_slice(&first)?;
    both.extend_from_slice(&second)?;
    assert!(rt; found == both);
    Ok(())
}

#[test]
fn a_range_is_read(rt: HostRuntime) -> io::Result<()> {
    let alloc = rt.alloc();
    let chunk = PackedChunk::encode(
        alloc,
        &[
            Sample::new(10, 1),
            Sample::new(20, 5),
            Sample::new(30, 2),
            Sample::new(45, 9),
        ],
    )?;
    let samples = chunk.samples();
    assert_eq!(rt; samples.first_time(), 10);
    assert_eq!(rt; samples.last_time(), 45);
    assert_eq!(rt; samples.get(2), Sample::new(30, 2));
    assert_eq!(rt; samples.place_from(21), 2);
    let mut found = Vec::new(alloc);
    samples.push_within(&mut found, 11, 30)?;
    assert!(rt; found.as_slice() == [Sample::new(20, 5), Sample::new(30, 2)].as_slice());
    Ok(())
}

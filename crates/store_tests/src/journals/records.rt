//! A journal computed by hand.
//!
//! The checksums of the contents are those that RFC 3720 (B.4) and the catalogue of CRCs print:
//! E3069283 for `123456789`, 8A9136AA for 32 bytes of 0, 62A8AB43 for 32 bytes of 255. Those of the
//! lengths 9 and 32 (30D5900B, 68DAC519) were computed by the processor's instruction `crc32`.

ghost use Rattle.std.specs.Prelude.{IfOk};
ghost use Rattle.journal.specs.Media.{IsJournal};

use journal::{Journal, JournalError, Medium, MemoryMedium, recover};
use std::alloc::Global;
use std::test::Fail;

const DIGITS: &[u8] = b"123456789";

const ZEROS: [u8; 32] = [0; 32];

const ONES: [u8; 32] = [255; 32];

/// The header, and the records of the three contents, which begin at bytes 5, 26 and 70.
const FILE: &[u8] = b"FZLJ\x01\
    \x00\x00\x00\x09\x30\xD5\x90\x0B123456789\xE3\x06\x92\x83\
    \x00\x00\x00\x20\x68\xDA\xC5\x19\
    \x00\x00\x00\x00\x00\x00\x00\x00\x00\x00\x00\x00\x00\x00\x00\x00\
    \x00\x00\x00\x00\x00\x00\x00\x00\x00\x00\x00\x00\x00\x00\x00\x00\x8A\x91\x36\xAA\
    \x00\x00\x00\x20\x68\xDA\xC5\x19\
    \xFF\xFF\xFF\xFF\xFF\xFF\xFF\xFF\xFF\xFF\xFF\xFF\xFF\xFF\xFF\xFF\
    \xFF\xFF\xFF\xFF\xFF\xFF\xFF\xFF\xFF\xFF\xFF\xFF\xFF\xFF\xFF\xFF\x62\xA8\xAB\x43";

fn new_journal(
    alloc: Global,
    before: u64,
    failing: u64,
) -> Result<Journal<MemoryMedium>, JournalError>
    ensures { IfOk result (λ j. IsJournal ⟦<MemoryMedium as Medium>⟧.shows
        ⟦<MemoryMedium as Medium>⟧.kept ⟦<MemoryMedium as Medium>⟧.sound j.medium j.len j.closed) }
{
    match Journal::create(MemoryMedium::new(alloc, before, failing)) {
        Ok(journal) => Ok(journal),
        Err((error, _medium)) => Err(error),
    }
}

#[test]
fn contents_are_written_so(rt: HostRuntime) -> Result<(), Fail> {
    let alloc = rt.alloc();
    let mut journal = new_journal(alloc, 0, 0)?;
    journal.append(alloc, DIGITS)?;
    journal.append(alloc, &ZEROS)?;
    journal.append(alloc, &ONES)?;
    assert_eq!(rt; journal.medium.bytes(), FILE);
    assert_eq!(rt; journal.medium.synced(), 114);
    Ok(())
}

#[test]
fn contents_are_read_so(rt: HostRuntime) -> Result<(), Fail> {
    let found = recover(rt.alloc(), FILE)?;
    assert_eq!(rt; found.len, 114);
    assert_eq!(rt; found.contents.len(), 3);
    assert_eq!(rt; found.contents[0].as_slice(), DIGITS);
    assert_eq!(rt; found.contents[1].as_slice(), ZEROS.as_slice());
    assert_eq!(rt; found.contents[2].as_slice(), ONES.as_slice());
    Ok(())
}

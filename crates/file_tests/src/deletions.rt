//! What deletions cover. What is refused of a file of deletions stands in `case_files`.

use crate::files::deletions_of;
use labels::SeriesRef;
use std::alloc::{AllocError, Global};
use tombstones::Tombstones;

/// The code that the file is refused with, or `ok`.
pub fn code_of(alloc: Global, file: &[u8]) -> &'static str {
    match Tombstones::open(alloc, file) {
        Ok(_) => "ok",
        Err(error) => error.code(),
    }
}

#[test]
fn the_example_of_the_first_page(rt: HostRuntime) -> Result<(), AllocError> {
    let mut tombstones = Tombstones::new(rt.alloc());
    tombstones.add(SeriesRef::new(6), 10, 20)?;
    assert!(rt; tombstones.deleted(SeriesRef::new(6), 20));
    assert!(rt; !tombstones.deleted(SeriesRef::new(6), 21));
    assert!(rt; !tombstones.deleted(SeriesRef::new(7), 20));
    Ok(())
}

/// A deletion: the number of the series, and the first and the last time.
type Added = (u32, i64, i64);

/// A series, a time, and whether the sample there is deleted.
type Asked = (u32, i64, bool);

fn add_all(tombstones: &mut Tombstones, added: &[Added]) -> Result<(), AllocError> {
    for (reference, from, to) in added {
        tombstones.add(SeriesRef::new(*reference), *from, *to)?;
    }
    Ok(())
}

/// The deletions of a file of these entries, and these.
fn with_added(alloc: Global, entries: &[u8], added: &[Added]) -> Option<Tombstones> {
    let file = deletions_of(alloc, entries)?;
    let mut tombstones = Tombstones::open(alloc, &file).ok()?;
    add_all(&mut tombstones, added).ok()?;
    Some(tombstones)
}

const LONG: Added = (6, 0, 100);

const SHORT: Added = (6, 10, 20);

const OTHER: Added = (7, 5, 6);

/// What the three of them delete: the long deletion reaches past a later short one.
const OF_THREE: &[Asked] = &[
    (6, -1, false),
    (6, 0, true),
    (6, 9, true),
    (6, 10, true),
    (6, 20, true),
    (6, 21, true),
    (6, 99, true),
    (6, 100, true),
    (6, 101, false),
    (7, 4, false),
    (7, 5, true),
    (7, 6, true),
    (7, 7, false),
    (7, 100, false),
    (5, 15, false),
    (8, 15, false),
];

/// Two deletions of the series 6 and one of the series 4, in any order.
const OVERLAP: &[u8] = &[0x06, 0x14, 0x28, 0x04, 0x00, 0x02, 0x06, 0x00, 0x16];

/// The three deletions, in the order opposite to that of the references.
const THREE: &[u8] = &[0x07, 0x0A, 0x0C, 0x06, 0x14, 0x28, 0x06, 0x00, 0xC8, 0x01];

/// The entries of a file, what is added, and what is then deleted.
const FOUND: &[(&[u8], &[Added], &[Asked])] = &[
    (OVERLAP, &[(4, 2, 3)], &[(4, 2, true)]),
    (
        &[],
        &[(6, 1, 2), (3, 5, 5)],
        &[(6, 2, true), (3, 5, true), (3, 2, false)],
    ),
    (&[], &[LONG, SHORT, OTHER], OF_THREE),
    (&[], &[LONG, OTHER, SHORT], OF_THREE),
    (&[], &[SHORT, LONG, OTHER], OF_THREE),
    (&[], &[SHORT, OTHER, LONG], OF_THREE),
    (&[], &[OTHER, LONG, SHORT], OF_THREE),
    (&[], &[OTHER, SHORT, LONG], OF_THREE),
    (THREE, &[], OF_THREE),
];

/// Whether these samples are deleted as they are to be.
fn deletes(tombstones: &Tombstones, asked: &[Asked]) -> bool {
    let mut all = true;
    for (reference, t, want) in asked {
        all = all && tombstones.deleted(SeriesRef::new(*reference), *t) == *want;
    }
    all
}

#[test]
fn added_deletions_are_closed_and_overlap_in_any_order(rt: HostRuntime) {
    let alloc = rt.alloc();
    for (entries, added, asked) in FOUND {
        let tombstones = with_added(alloc, entries, added).expect(&rt, "it opens");
        assert!(rt;
            deletes(&tombstones, asked),
            "{entries:?} and {} more",
            added.len()
        );
    }
}

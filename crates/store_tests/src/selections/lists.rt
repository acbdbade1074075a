//! A list by worked rows.

use labels::SeriesRef;
use postings::{Counted, Postings, SliceList};
use std::alloc::Global;

fn references(alloc: Global, numbers: &[u32]) -> Option<Vec<SeriesRef>> {
    let mut references = Vec::new(alloc);
    for number in numbers {
        references.push(SeriesRef::new(*number)).ok()?;
    }
    Some(references)
}

/// The list of a slice that ascends.
fn list_of(references: &[SeriesRef]) -> Option<SliceList<'_>> {
    if SliceList::is_ascending(references) {
        Some(SliceList::new(references))
    } else {
        None
    }
}

/// Whether a list leaves just these numbers after each target was sought.
fn leaves<P: Postings + Drop>(mut list: P, targets: &[u32], numbers: &[u32]) -> bool {
    for target in targets {
        list.seek(SeriesRef::new(*target));
    }
    for number in numbers {
        if list.current() != Some(SeriesRef::new(*number)) {
            return false;
        }
        list.advance();
    }
    list.current() == None
}

/// Whether a seek leaves a list at a number, or at its end.
fn seeks(list: &mut SliceList<'_>, target: u32, first: Option<u32>) -> bool {
    list.seek(SeriesRef::new(target));
    match list.current() {
        Some(reference) => first == Some(reference.number()),
        None => first == None,
    }
}

/// The numbers of a list, targets that are sought in it, and what it then leaves.
type Row = (&'static [u32], &'static [u32], &'static [u32]);

const SOUGHT: &[Row] = &[
    (&[2, 5, 9], &[5, 3], &[5, 9]),
    (&[2, 5, 9], &[], &[2, 5, 9]),
    (&[], &[], &[]),
];

fn slice_leaves(alloc: Global, row: &Row) -> Option<bool> {
    let references = references(alloc, row.0)?;
    Some(leaves(list_of(&references)?, row.1, row.2))
}

/// Targets that are sought one after another in 2, 5 and 9, and where the list then is.
const IN_TURN: &[(u32, Option<u32>)] = &[(5, Some(5)), (3, Some(5)), (10, None), (1, None)];

#[test]
fn a_seek_leaves_what_is_not_below_its_target(rt: HostRuntime) {
    let three = [SeriesRef::new(2), SeriesRef::new(5), SeriesRef::new(9)];
    let mut list = list_of(&three).expect(&rt, "it ascends");
    for (target, first) in IN_TURN {
        assert!(rt; seeks(&mut list, *target, *first), "to {target}");
    }
    for row in SOUGHT {
        assert!(rt;
            slice_leaves(rt.alloc(), row) == Some(true),
            "{:?} and {:?}",
            row.0,
            row.1
        );
    }
}

#[test]
fn the_example_of_the_first_page(rt: HostRuntime) {
    let odd = [SeriesRef::new(1), SeriesRef::new(5), SeriesRef::new(9)];
    assert!(rt; SliceList::is_ascending(&odd));
    let mut list = Counted::new(SliceList::new(&odd));
    list.seek(SeriesRef::new(4));
    assert_eq!(rt; list.current(), Some(SeriesRef::new(5)));
    assert_eq!(rt; list.moves(), 1);
}

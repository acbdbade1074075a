//! As many labels as a series may have, and one more.

use super::code_of_made;
use crate::draft::Draft;
use std::alloc::Global;

/// 65 label names, ascending.
const NAMES: [&str; 65] = [
    "A", "B", "C", "D", "E", "F", "G", "H", "I", "J", "K", "L", "M", "N", "O", "P", "Q", "R", "S",
    "T", "U", "V", "W", "X", "Y", "Z", "_", "a", "b", "c", "d", "e", "f", "g", "h", "i", "j", "k",
    "l", "m", "n", "o", "p", "q", "r", "s", "t", "u", "v", "w", "x", "y", "z", "za", "zb", "zc",
    "zd", "ze", "zf", "zg", "zh", "zi", "zj", "zk", "zl",
];

/// An index of one series that has the value `A` of each of the first names, so many, and one
/// chunk; the first few are listed.
fn wide(alloc: Global, count: usize, listed: usize) -> Option<Vec<u8>> {
    let names = NAMES.get(..count)?;
    let mut body = Vec::from_array(alloc, [count as u64]).ok()?;
    for symbol in 0..count as u64 {
        body.extend_from_slice(&[symbol, 0]).ok()?;
    }
    body.extend_from_slice(&[1, 20, 0, 8]).ok()?;
    let mut draft = Draft::new(alloc, names).ok()?;
    let reference = draft.series(alloc, &body).ok()?;
    draft.list(alloc, &[("", "")], &[reference]).ok()?;
    for name in names.iter().take(listed) {
        draft.list(alloc, &[(*name, "A")], &[reference]).ok()?;
    }
    draft.whole(alloc).ok()
}

/// How many labels a series has, how many of them are listed, and the code.
const WIDE: &[(usize, usize, &str)] = &[
    (64, 64, "ok"),
    (65, 65, "I15"),
    (65, 64, "I14"),
    (1, 1, "ok"),
    (1, 0, "I14"),
];

#[test]
fn a_series_has_at_most_64_labels(rt: HostRuntime) {
    let alloc = rt.alloc();
    for (count, listed, want) in WIDE {
        let code = code_of_made(alloc, wide(alloc, *count, *listed));
        assert!(rt; code == *want, "{listed} of {count}");
    }
}

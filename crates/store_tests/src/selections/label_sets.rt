//! What a label set is refused with, row by row.

use labels::{LabelError, LabelSet};
use std::alloc::{AllocError, Global};

/// Names with their values.
type Pairs = &'static [(&'static str, &'static str)];

fn pair_of(alloc: Global, name: &str, value: &str) -> Result<(String, String), AllocError> {
    let name = String::from_str(alloc, name)?;
    Ok((name, String::from_str(alloc, value)?))
}

fn pairs_of(alloc: Global, pairs: Pairs) -> Result<Vec<(String, String)>, AllocError> {
    let mut owned = Vec::new(alloc);
    for (name, value) in pairs {
        owned.push(pair_of(alloc, name, value)?)?;
    }
    Ok(owned)
}

/// The code of what pairs are refused with.
fn code_of(alloc: Global, pairs: Result<Vec<(String, String)>, AllocError>) -> &'static str {
    let Ok(pairs) = pairs else {
        return "no memory";
    };
    match LabelSet::new(alloc, pairs) {
        Ok(_) => "ok",
        Err(error) => error.code(),
    }
}

const RULES: &[(Pairs, &str)] = &[
    (&[], "ok"),
    (&[("b", "1"), ("a", "1")], "ok"),
    (&[("a", "1"), ("9", "1"), ("a", "2")], "L1"),
    (&[("a", "1"), ("", "")], "L1"),
    (&[("a", "1"), ("b", "1"), ("a", "1")], "L2"),
    (&[("a", ""), ("b", "1"), ("a", "1")], "L2"),
];

/// Labels `n0`, `n1` and so on, and one without a value.
fn many(alloc: Global, count: u32) -> Result<Vec<(String, String)>, AllocError> {
    let mut pairs = pairs_of(alloc, &[("empty", "")])?;
    for number in 0..count {
        let name = format!(in alloc; "n{number}")?;
        pairs.push((name, String::from_str(alloc, "v")?))?;
    }
    Ok(pairs)
}

#[test]
fn the_first_broken_rule_is_told(rt: HostRuntime) {
    let alloc = rt.alloc();
    for (pairs, want) in RULES {
        let code = code_of(alloc, pairs_of(alloc, pairs));
        assert!(rt; code == *want, "{want} of {} pairs", pairs.len());
    }
    assert!(rt; code_of(alloc, many(alloc, 64)) == "ok");
    assert!(rt; code_of(alloc, many(alloc, 65)) == "L3");
    assert!(rt; LabelError::Memory.code() == "memory");
}

#[test]
fn the_example_of_the_first_page(rt: HostRuntime) -> Result<(), AllocError> {
    let pairs = [("__name__", "up"), ("job", "a")];
    let labels = LabelSet::of_sorted_texts(rt.alloc(), &pairs)?;
    assert_eq!(rt; labels.value("job"), "a");
    assert_eq!(rt; labels.value("zone"), "");
    Ok(())
}

//! What the worked index of the format lends, and an index of more labels than a series may have.
//! What is refused of an index stands in `case_files`.

mod limits;

use crate::files::{INDEX, is_text, put_labels};
use index_reader::{Entries, Index, IndexError};
use std::alloc::{AllocError, Global};

/// The code that the file is refused with, or `ok`.
pub fn code_of(alloc: Global, file: &[u8]) -> &'static str {
    match Index::open(alloc, file) {
        Ok(_) => "ok",
        Err(error) => error.code(),
    }
}

/// The same of a file that is to be made first.
fn code_of_made(alloc: Global, made: Option<Vec<u8>>) -> &'static str {
    match made {
        Some(file) => code_of(alloc, &file),
        None => "no file",
    }
}

/// A line for each series: its reference, its label set, and of each chunk the least time, the
/// greatest and the reference.
fn shown(alloc: Global, index: &Index) -> Result<String, AllocError> {
    let mut text = String::new(alloc);
    for at in 0..index.len() {
        write!(text, "{}", index.reference_at(at).number())?;
        put_labels(&mut text, &index.labels_at(alloc, at)?)?;
        for chunk in index.chunks_at(at) {
            write!(text, " {}..{}@{}", chunk.mint, chunk.maxt, chunk.reference)?;
        }
        text.push('\n')?;
    }
    Ok(text)
}

/// What the worked index shows.
const SHOWN: &str =
    "4 __name__=down job=a 10..10@8\n5 __name__=down job=b 10..10@32\n6 __name__=up job=a 10..10@56\n7 __name__=up job=a zone=x 10..10@80\n8 __name__=up job=b 10..10@104\n9 __name__=up job=b zone=x 10..10@128\n";

/// Each reference of a list, a space before it.
fn put_list(text: &mut String, mut list: Entries<'_>) -> Result<(), AllocError> {
    for i in 0..list.len() {
        if i < list.len() {
            write!(text, " {}", list.get(i).number())?;
        }
    }
    Ok(())
}

/// The lists of these pairs, each between brackets where there is one.
fn lists_of(alloc: Global, index: &Index, pairs: &[(&str, &str)]) -> Result<String, AllocError> {
    let mut text = String::new(alloc);
    for (name, value) in pairs {
        write!(text, "{name}={value}")?;
        if let Some(list) = index.entries(name, value) {
            text.push_str(" [")?;
            put_list(&mut text, list)?;
            text.push_str(" ]")?;
        }
        text.push('\n')?;
    }
    put_list(&mut text, index.all())?;
    Ok(text)
}

/// The pairs of the worked index, and some that no series has.
const PAIRS: &[(&str, &str)] = &[
    ("", ""),
    ("__name__", "down"),
    ("__name__", "up"),
    ("job", "a"),
    ("job", "b"),
    ("job", "z"),
    ("up", "a"),
    ("zone", "x"),
];

/// Their lists, and then the list of all series.
const LISTS: &str =
    "=\n__name__=down [ 4 5 ]\n__name__=up [ 6 7 8 9 ]\njob=a [ 4 6 7 ]\njob=b [ 5 8 9 ]\njob=z\nup=a\nzone=x [ 7 9 ]\n 4 5 6 7 8 9";

/// How many values each of these names has, and the values.
fn values_of(alloc: Global, index: &Index, names: &[&str]) -> Result<String, AllocError> {
    let mut text = String::new(alloc);
    for name in names {
        write!(text, "{name}: {}", index.value_count(name))?;
        for i in 0..index.value_count(name) {
            write!(text, " {}", index.value_at(name, i))?;
        }
        text.push('\n')?;
    }
    Ok(text)
}

/// The values of names, some of which no series has.
const VALUES: &str = "__name__: 2 down up\njob: 2 a b\nzone: 1 x\n: 0\nup: 0\n";

/// How often a list is read, of which each entry is asked for.
fn reads_of(mut list: Entries<'_>) -> u64 {
    for i in 0..list.len() {
        if i < list.len() {
            list.get(i);
        }
    }
    list.reads()
}

#[test]
fn the_worked_index_lends_its_series_its_lists_and_its_values(rt: HostRuntime) {
    let alloc = rt.alloc();
    let index = Index::open(alloc, INDEX).ok().expect(&rt, "it opens");
    assert!(rt; index.len() == 6 && !index.is_empty());
    assert!(rt; is_text(shown(alloc, &index), SHOWN));
    assert!(rt; is_text(lists_of(alloc, &index, PAIRS), LISTS));
    let values = values_of(alloc, &index, &["__name__", "job", "zone", "", "up"]);
    assert!(rt; is_text(values, VALUES));
    assert!(rt; index.all().reads() == 0);
    assert!(rt; reads_of(index.all()) == 6);
}

/// The worked index, opened again where it was refused memory.
fn opened_again(alloc: Global) -> Option<Index> {
    match Index::open(alloc, INDEX) {
        Ok(index) => Some(index),
        Err(IndexError::Memory) => Index::open(alloc, INDEX).ok(),
        Err(_) => None,
    }
}

/// The lists of the worked index, asked for again where they were refused memory.
fn lists_again(alloc: Global, index: &Index) -> Result<String, AllocError> {
    match lists_of(alloc, index, PAIRS) {
        Ok(lists) => Ok(lists),
        Err(_) => lists_of(alloc, index, PAIRS),
    }
}

/// `tests/allocations` runs this test with each of its allocations refused in turn.
#[test]
fn an_open_refused_memory_answers_when_made_again(rt: HostRuntime) {
    let alloc = rt.alloc();
    let index = opened_again(alloc).expect(&rt, "it opens");
    assert!(rt; is_text(lists_again(alloc, &index), LISTS));
}

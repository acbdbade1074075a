//! A list in pages and its older version, and which pages both share.

use pages::PagedList;
use std::alloc::{AllocError, Global};
use std::sync::Arc;
use std::test::Fail;

#[test]
fn the_example_of_the_first_page(rt: HostRuntime) -> Result<(), Fail> {
    let alloc = rt.alloc();
    let mut list = PagedList::<u32, 16>::new(alloc)?;
    list.push(alloc, 10)?;
    list.push(alloc, 20)?;
    let old = list.try_clone()?;
    assert!(rt; list.len() > 1);
    list.set(0, 11)?;
    assert_eq!(rt;
        (list.get(0).copied(), old.get(0).copied()),
        (Some(11), Some(10))
    );
    Ok(())
}

/// A list now, and as it was.
type Versions<E> = (PagedList<E, 16>, PagedList<E, 16>);

/// 200 pointers in a list.
fn pointers(alloc: Global) -> Result<PagedList<Arc<u64>, 16>, AllocError> {
    let mut list = PagedList::new(alloc)?;
    for n in 0..200u64 {
        list.push(alloc, Arc::new(alloc, n)?)?;
    }
    Ok(list)
}

/// The pointers after one was set, and before.
fn with_another(alloc: Global) -> Option<Versions<Arc<u64>>> {
    let mut list = pointers(alloc).ok()?;
    let old = list.try_clone().ok()?;
    if list.len() <= 150 {
        return None;
    }
    list.set(150, Arc::new(alloc, 5).ok()?).ok()?;
    Some((list, old))
}

/// What is behind a pointer, or 0 if there is none.
fn number_at(list: &PagedList<Arc<u64>, 16>, at: usize) -> u64 {
    match list.get(at) {
        Some(pointer) => **pointer,
        None => 0,
    }
}

/// How many own a pointer, or 0 if there is none.
fn owners_at(list: &PagedList<Arc<u64>, 16>, at: usize) -> usize {
    match list.get(at) {
        Some(pointer) => Arc::strong_count(pointer),
        None => 0,
    }
}

/// The leaf that was copied owns each of its pointers once more.
#[test]
fn pointers_are_shared_but_for_the_leaf_that_was_set(rt: HostRuntime) {
    let (list, old) = with_another(rt.alloc()).expect(&rt, "there is memory");
    assert!(rt; number_at(&list, 150) == 5);
    assert!(rt; number_at(&old, 150) == 150);
    assert!(rt; owners_at(&old, 149) == 2);
    assert!(rt; owners_at(&old, 10) == 1);
}

//! What a start finds in a folder, and whether the store goes on.

ghost use Rattle.std.specs.Prelude.{◌≡◌, map, true};
ghost use Rattle.head.specs.Blocks.{part_in};
ghost use Rattle.logged_folder.specs.Logged.{logged_sound};
ghost use Rattle.store_folder.specs.Finding.{IsFoundStore};
ghost use Rattle.store_folder.specs.States.{origin_of};

use crate::restarts::events::{ONE_MORE, event_of};
use crate::restarts::running::Running;
use crate::restarts::telling::tell;
use data_folder::Folder;
use logged_folder::LoggedFolder;
use std::alloc::Global;
use std::marker::Brand;
use std::thread::Threads;
use store_folder::{Beginning, FoundStore, StoreKeeper, open_store, resume_store};

/// After how many bytes of events a journal is begun anew.
pub const MOST: u64 = 200;

/// A store that runs over a folder in memory.
pub type Store<N> = Running<StoreKeeper<N, LoggedFolder>>;

/// The store that goes on with what was found in a folder.
fn resume<N: Beginning, F: Folder + Drop>(
    alloc: Global,
    folder: F,
    found: FoundStore,
) -> Option<Running<StoreKeeper<N, F>>>
    requires sound { F.sound folder ≡ true }
    requires found { IsFoundStore F.shows F.kept found.journal (map part_in found.blocks.items)
        folder }
    requires first { N.first ≡ origin_of found.journal.head (map part_in found.blocks.items) }
{
    match resume_store::<N, F>(alloc, folder, found, MOST) {
        Ok(started) => Some(Running::of(started)),
        Err(_) => None,
    }
}

/// What a start reports of what was found in a folder, or `None` if it is refused.
fn told_of<N: Beginning, F: Folder + Drop>(
    alloc: Global,
    folder: F,
    found: FoundStore,
) -> Option<String>
    requires sound { F.sound folder ≡ true }
    requires found { IsFoundStore F.shows F.kept found.journal (map part_in found.blocks.items)
        folder }
    requires first { N.first ≡ origin_of found.journal.head (map part_in found.blocks.items) }
{
    let store = resume::<N, F>(alloc, folder, found)?;
    tell(alloc, store.snapshot())
}

/// What a start reports of a folder: no text if it has no store, and `None` if it is refused.
fn told<R: Threads + Sync, F: Folder + Drop>(rt: &R, alloc: Global, folder: F) -> Option<String>
    requires { F.sound folder ≡ true }
{
    let mut folder = folder;
    match open_store(rt, alloc, &mut folder) {
        Ok(Some(found)) => told_of::<Brand, F>(alloc, folder, found),
        Ok(None) => Some(String::new(alloc)),
        Err(_) => None,
    }
}

/// Whether a store takes a further event, and a start finds it.
fn takes_more<R: Threads + Sync, N: Beginning>(
    rt: &R,
    alloc: Global,
    store: &mut Store<N>,
) -> Option<bool> {
    let event = event_of(alloc, ONE_MORE)?;
    store.commit(alloc, &event).ok()?;
    let folder = store.folder();
    let left = folder.left(folder.entries(), 0).ok()?;
    let found = told(rt, alloc, left)?;
    let after = tell(alloc, store.snapshot())?;
    Some(found.as_str() == after.as_str())
}

/// What a start reports of what was found in a folder, and goes on with, or else `None`.
fn go_on<R: Threads + Sync, N: Beginning>(
    rt: &R,
    alloc: Global,
    folder: LoggedFolder,
    found: FoundStore,
) -> Option<String>
    requires sound { logged_sound folder ≡ true }
    requires found { IsFoundStore ⟦<LoggedFolder as Folder>⟧.shows
        ⟦<LoggedFolder as Folder>⟧.kept found.journal (map part_in found.blocks.items) folder }
    requires first { N.first ≡ origin_of found.journal.head (map part_in found.blocks.items) }
{
    let mut store = resume::<N, LoggedFolder>(alloc, folder, found)?;
    let text = tell(alloc, store.snapshot())?;
    if takes_more(rt, alloc, &mut store)? {
        return Some(text);
    }
    None
}

/// What a start reports of a folder, and goes on with: no text if it has no store, and `None` if it
/// is refused, or does not go on.
pub fn start<R: Threads + Sync>(rt: &R, alloc: Global, folder: LoggedFolder) -> Option<String>
    requires { logged_sound folder ≡ true }
{
    let mut folder = folder;
    match open_store(rt, alloc, &mut folder) {
        Ok(Some(found)) => go_on::<R, Brand>(rt, alloc, folder, found),
        Ok(None) => Some(String::new(alloc)),
        Err(_) => None,
    }
}

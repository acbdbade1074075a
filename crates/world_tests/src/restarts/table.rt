//! The table: each call of a session fails in turn, and what a start makes of each crash.

use crate::restarts::fault::Fault;
use crate::restarts::sessions::{Ended, run_session};
use std::alloc::Global;
use std::marker::Brand;
use std::test::Fail;
use std::thread::Threads;

/// A session of which `before` calls go well, and then `failing` calls fail, from the crash on that
/// comes after `from` changes.
fn run<R: Threads + Sync>(
    rt: &R,
    alloc: Global,
    before: u64,
    failing: u64,
    from: usize,
) -> Result<Ended, Fault> {
    run_session::<R, Brand>(rt, alloc, before, failing, from)
}

/// A session in which no call fails.
fn run_whole<R: Threads + Sync>(rt: &R, alloc: Global) -> Result<Ended, Fault> {
    run(rt, alloc, u64::MAX, 0, 0)
}

/// All sessions of which `failing` calls fail, after at most `most` that go well. A crash before
/// the first that fails is also a crash of the session in which none fails.
fn run_each<R: Threads + Sync>(
    rt: &R,
    alloc: Global,
    most: usize,
    failing: u64,
) -> Result<Ended, Fault> {
    let mut all = Ended::nothing();
    for before in 0..=most {
        all.add(run(rt, alloc, before as u64, failing, before)?);
    }
    Ok(all)
}

#[test]
fn a_start_finds_what_was_answered(rt: HostRuntime) -> Result<(), Fail> {
    let whole = run_whole(&rt, rt.alloc())?;
    assert!(rt; whole.changes > 80);
    assert!(rt; whole.starts > whole.changes);
    assert!(rt; whole.rolls > 2);
    Ok(())
}

#[test]
fn a_start_finds_what_was_answered_before_all_calls_failed(rt: HostRuntime) -> Result<(), Fail> {
    let whole = run_whole(&rt, rt.alloc())?;
    let all = run_each(&rt, rt.alloc(), whole.changes, u64::MAX)?;
    assert!(rt; all.starts > whole.changes);
    Ok(())
}

#[test]
fn a_store_goes_on_after_one_call_failed(rt: HostRuntime) -> Result<(), Fail> {
    let whole = run_whole(&rt, rt.alloc())?;
    let all = run_each(&rt, rt.alloc(), whole.changes, 1)?;
    assert!(rt; all.starts > whole.changes);
    assert!(rt; all.failed_rolls > 3);
    Ok(())
}

#[test]
fn a_store_goes_on_or_is_closed_after_two_calls_failed(rt: HostRuntime) -> Result<(), Fail> {
    let whole = run_whole(&rt, rt.alloc())?;
    let all = run_each(&rt, rt.alloc(), whole.changes, 2)?;
    assert!(rt; all.starts > whole.changes);
    assert!(rt; all.failed_rolls > 3);
    Ok(())
}

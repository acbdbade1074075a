//! What a write keeps beside samples that it leaves out. The bodies are those of
//! `tests/live/wire.py`. What is left out is worked out by hand.

ghost use Rattle.std.specs.Prelude.{◌≡◌, []};
ghost use Rattle.head.specs.Blocks.{opening_of};

use crate::port::{reply_to, request};
use snapshots::{Naming, Open, Store};
use std::alloc::{AllocError, Global};
use std::marker::Brand;
use std::sync::Wait;
use std::test::Fail;
use std::thread::Threads;

/// `up{job="a"}` has 5 at 100 and 6 at 120, and `up{job="b"}` has 7 at 110.
const FIRST: &[u8] = b"\x5f\xf0\x5e\
    \x0a\x34\x0a\x0e\x0a\x08__name__\x12\x02up\x0a\x08\x0a\x03job\x12\x01a\
    \x12\x0b\x09\x00\x00\x00\x00\x00\x00\x14\x40\x10\x64\
    \x12\x0b\x09\x00\x00\x00\x00\x00\x00\x18\x40\x10\x78\
    \x0a\x27\x0a\x0e\x0a\x08__name__\x12\x02up\x0a\x08\x0a\x03job\x12\x01b\
    \x12\x0b\x09\x00\x00\x00\x00\x00\x00\x1c\x40\x10\x6e";

/// Those again, and of `up{job="a"}` 1 at 110, 7 at 120 and 8 at 130.
const AGAIN: &[u8] = b"\x87\x01\xf0\x86\
    \x0a\x5c\x0a\x0e\x0a\x08__name__\x12\x02up\x0a\x08\x0a\x03job\x12\x01a\
    \x12\x0b\x09\x00\x00\x00\x00\x00\x00\x14\x40\x10\x64\
    \x12\x0b\x09\x00\x00\x00\x00\x00\x00\xf0\x3f\x10\x6e\
    \x12\x0b\x09\x00\x00\x00\x00\x00\x00\x18\x40\x10\x78\
    \x12\x0b\x09\x00\x00\x00\x00\x00\x00\x1c\x40\x10\x78\
    \x12\x0c\x09\x00\x00\x00\x00\x00\x00\x20\x40\x10\x82\x01\
    \x0a\x27\x0a\x0e\x0a\x08__name__\x12\x02up\x0a\x08\x0a\x03job\x12\x01b\
    \x12\x0b\x09\x00\x00\x00\x00\x00\x00\x1c\x40\x10\x6e";

/// `up{job="a"}` has 9 at 130.
const OTHER_AT_130: &[u8] = b"\x2a\xa4\
    \x0a\x28\x0a\x0e\x0a\x08__name__\x12\x02up\x0a\x08\x0a\x03job\x12\x01a\
    \x12\x0c\x09\x00\x00\x00\x00\x00\x00\x22\x40\x10\x82\x01";

/// Some of the first again, and of `up{job="a"}` 9 at 101, 6 at 100 and 1 at 150; `up{job="c"}` has
/// 7 at 110.
const BELOW: &[u8] = b"\xa3\x01\xf0\xa2\
    \x0a\x4f\x0a\x0e\x0a\x08__name__\x12\x02up\x0a\x08\x0a\x03job\x12\x01a\
    \x12\x0b\x09\x00\x00\x00\x00\x00\x00\x14\x40\x10\x64\
    \x12\x0b\x09\x00\x00\x00\x00\x00\x00\x22\x40\x10\x65\
    \x12\x0b\x09\x00\x00\x00\x00\x00\x00\x18\x40\x10\x64\
    \x12\x0c\x09\x00\x00\x00\x00\x00\x00\xf0\x3f\x10\x96\x01\
    \x0a\x27\x0a\x0e\x0a\x08__name__\x12\x02up\x0a\x08\x0a\x03job\x12\x01b\
    \x12\x0b\x09\x00\x00\x00\x00\x00\x00\x1c\x40\x10\x6e\
    \x0a\x27\x0a\x0e\x0a\x08__name__\x12\x02up\x0a\x08\x0a\x03job\x12\x01c\
    \x12\x0b\x09\x00\x00\x00\x00\x00\x00\x1c\x40\x10\x6e";

/// `up{job="a"}` has 2 at 150.
const OTHER_AT_150: &[u8] = b"\x2a\xa4\
    \x0a\x28\x0a\x0e\x0a\x08__name__\x12\x02up\x0a\x08\x0a\x03job\x12\x01a\
    \x12\x0c\x09\x00\x00\x00\x00\x00\x00\x00\x40\x10\x96\x01";

/// The end of the reply if nothing was left out.
const DONE: &[u8] = b"{\"ok\":true}";

/// The replies to writes of these bodies, one after another. The first may be cut below 125.
fn replies<J: Naming, R: Wait + Threads + Sync>(
    rt: &R,
    alloc: Global,
    store: Store,
    bodies: &[&[u8]],
    is_cut: bool,
) -> Result<Vec<Vec<u8>>, AllocError>
    requires book { store.seen.book ≡ J.book }
    requires opening { opening_of [] ≡ J.opening }
{
    let mut all = Vec::new(alloc);
    let opened = store.open::<Open<J>, &R>(rt, alloc, Vec::new(alloc), 1, 1);
    let Ok((committer, mut passes, mut seats)) = opened else {
        return Ok(all);
    };
    let (Some(mut pass), Some(mut seat)) = (passes.pop(), seats.pop()) else {
        return Ok(all);
    };
    for body in bodies {
        let bytes = request(alloc, "write", body)?;
        all.push(reply_to(
            rt,
            alloc,
            bytes.as_slice(),
            &mut pass,
            &mut seat,
            &committer,
        )?)?;
        if is_cut && all.len() == 1 && committer.cut(rt, &mut seat, 125).is_err() {
            return Ok(all);
        }
    }
    Ok(all)
}

#[test]
fn one_bad_sample_costs_no_other(rt: HostRuntime) -> Result<(), Fail> {
    let alloc = rt.alloc();
    let bodies = [FIRST, AGAIN, FIRST, OTHER_AT_130];
    let all = replies::<Brand, HostRuntime>(&rt, alloc, Store::new(), bodies.as_slice(), false)?;
    assert!(rt; all.len() == 4);
    assert!(rt; all[0].as_slice().ends_with(DONE));
    let left = b"{\"cause\":\"E2\",\"left\":{\"E2\":1,\"E3\":1},\"of\":6,\"refused\":\"G5\"}";
    assert!(rt; all[1].as_slice().ends_with(left));
    assert!(rt; all[2].as_slice().ends_with(DONE));
    let other = b"{\"cause\":\"E3\",\"left\":{\"E3\":1},\"of\":1,\"refused\":\"G5\"}";
    assert!(rt; all[3].as_slice().ends_with(other));
    Ok(())
}

#[test]
fn a_repeat_of_what_a_block_holds_is_held(rt: HostRuntime) -> Result<(), Fail> {
    let alloc = rt.alloc();
    let bodies = [FIRST, BELOW, OTHER_AT_150];
    let all = replies::<Brand, HostRuntime>(&rt, alloc, Store::new(), bodies.as_slice(), true)?;
    assert!(rt; all.len() == 3);
    assert!(rt; all[0].as_slice().ends_with(DONE));
    let left = b"{\"cause\":\"E1\",\"left\":{\"E1\":3},\"of\":6,\"refused\":\"G5\"}";
    assert!(rt; all[1].as_slice().ends_with(left));
    let other = b"{\"cause\":\"E3\",\"left\":{\"E3\":1},\"of\":1,\"refused\":\"G5\"}";
    assert!(rt; all[2].as_slice().ends_with(other));
    Ok(())
}

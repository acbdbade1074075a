//! What a server does for its store by itself: cuts, joins, and the saving of what is kept.

use crate::caretaker::Caretaker;
use crate::cutter::PAUSE;
use keeper::{KeepError, Keeper};
use snapshots::{Committer, OpenNaming};
use std::alloc::Global;
use std::sync::Wait;
use std::sync::atomic::{AtomicBool, Ordering};
use std::thread::sleep;
use std::time::{Clock, Duration};

/// Whether a store is tended: it cuts itself, or what is in it is kept.
pub(crate) fn is_tended<J: OpenNaming, K: Keeper>(caretaker: Option<&Caretaker<J>>) -> bool {
    caretaker.is_some() || !K::is_idle()
}

/// Why a journal was not begun anew, in words.
fn reason_of(error: KeepError) -> &'static str {
    match error {
        KeepError::Memory => "no memory",
        KeepError::TooLong => "too long",
        KeepError::Failed => "cannot write",
        KeepError::Closed => "cannot write, and nothing more is kept",
    }
}

/// Saves what is kept, if that is worth it, and reports what came of it.
fn save<J: OpenNaming, C: Wait + Drop, K: Keeper + Drop>(
    rt: &(impl Wait + Eprint),
    committer: &Committer<J, C, K>,
) {
    if K::is_idle() {
        return;
    }
    match committer.roll_if_due(rt) {
        Ok(None) => {}
        Ok(Some(blocks)) => {
            let noun = if blocks == 1 { "block" } else { "blocks" };
            let _ = eprintln!(rt; "rolled the journal: {blocks} {noun}");
        }
        Err(error) => {
            let reason = reason_of(error);
            let _ = eprintln!(rt; "did not roll the journal: {reason}");
        }
    }
}

/// Looks now and then whether the store is to be cut, joined or saved, and does so, until that is
/// over.
pub(crate) fn tend_while<J: OpenNaming, C: Wait + Drop, K: Keeper + Drop, R: Wait + Clock + Eprint>(
    rt: &R,
    alloc: Global,
    caretaker: Option<Caretaker<J>>,
    committer: &Committer<J, C, K>,
    over: &AtomicBool,
) {
    let mut caretaker = caretaker;
    for _ in 0..u64::MAX {
        if over.load(Ordering::SeqCst) {
            return;
        }
        if let Some(caretaker) = &mut caretaker {
            caretaker.look(rt, alloc, committer);
        }
        save(rt, committer);
        sleep(rt, Duration::from_millis(PAUSE));
    }
}

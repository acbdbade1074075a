//! Sessions of a store, each step of which is looked at.

ghost use Rattle.std.specs.Prelude.{◌≡◌};
ghost use Rattle.block_folder.specs.declared.values.Values.TheVariants.{Whole};
ghost use Rattle.store_folder.specs.Origins.{beginning};

use crate::restarts::events::{SESSION, Wish, event_of};
use crate::restarts::fault::Fault;
use crate::restarts::running::Running;
use crate::restarts::starts::{MOST, Store};
use crate::restarts::steps::{Answer, Step};
use crate::restarts::telling::tell;
use block_folder::Values;
use head::Snapshot;
use logged_folder::LoggedFolder;
use std::alloc::Global;
use std::thread::Threads;
use store_folder::{Beginning, begin_store};

/// What a session came to.
#[derive(Clone, Copy, Debug, PartialEq, Eq, Drop)]
pub struct Ended {
    /// How many starts were looked at.
    pub starts: usize,
    /// How many times the journal was begun anew.
    pub rolls: usize,
    /// How many times that failed, and the store went on.
    pub failed_rolls: usize,
    /// How many changes of the folder there were.
    pub changes: usize,
}

impl Ended {
    /// Nothing yet.
    pub fn nothing() -> Ended {
        Ended {
            starts: 0,
            rolls: 0,
            failed_rolls: 0,
            changes: 0,
        }
    }

    /// Counts starts.
    fn count(&mut self, starts: usize) {
        self.starts = self.starts.saturating_add(starts);
    }

    /// Adds what another session came to.
    pub fn add(&mut self, other: Ended) {
        self.starts = self.starts.saturating_add(other.starts);
        self.rolls = self.rolls.saturating_add(other.rolls);
        self.failed_rolls = self.failed_rolls.saturating_add(other.failed_rolls);
        self.changes = self.changes.saturating_add(other.changes);
    }

    /// Counts a roll: one that is done, or one after whose failure the store goes on.
    fn count_roll(&mut self, answer: Answer) {
        match answer {
            Answer::Done => self.rolls = self.rolls.saturating_add(1),
            Answer::Refused => self.failed_rolls = self.failed_rolls.saturating_add(1),
            Answer::Closed => {}
        }
    }
}

/// The state before a step.
#[derive(Clone, Copy)]
struct Before {
    number: usize,
    changes: usize,
    to_fail: u64,
    was_closed: bool,
}

impl Before {
    fn of<N: Beginning>(store: &Store<N>, number: usize) -> Before {
        Before {
            number,
            changes: store.folder().entries(),
            to_fail: store.folder().to_fail(),
            was_closed: store.is_closed(),
        }
    }

    /// How the step was answered. It has to be done if no call failed and the store was open. If
    /// the store was closed, nothing may be done.
    fn answer<N: Beginning>(self, store: &Store<N>, is_done: bool) -> Result<Answer, Fault> {
        let has_failed = store.folder().to_fail() < self.to_fail;
        let has_changed = store.folder().entries() != self.changes;
        match (self.was_closed, is_done, store.is_closed()) {
            (false, true, false) => Ok(Answer::Done),
            (false, false, false) if has_failed => Ok(Answer::Refused),
            (false, false, true) if has_failed => Ok(Answer::Closed),
            (true, _, true) if !has_failed && !has_changed => Ok(Answer::Closed),
            _ => Err(Fault::Answer(self.number)),
        }
    }
}

fn text_of(alloc: Global, at: &Snapshot) -> Result<String, Fault> {
    match tell(alloc, at) {
        Some(text) => Ok(text),
        None => Err(Fault::Session),
    }
}

/// What the snapshot of a store would have after an event, as text.
fn text_after<N: Beginning>(alloc: Global, store: &Store<N>, wish: Wish) -> Result<String, Fault> {
    let Some(event) = event_of(alloc, wish) else {
        return Err(Fault::Session);
    };
    let Some(after) = store.after(alloc, &event) else {
        return Err(Fault::Session);
    };
    text_of(alloc, &after)
}

/// Whether an event is kept.
fn is_kept<N: Beginning>(alloc: Global, store: &mut Store<N>, wish: Wish) -> Result<bool, Fault> {
    let Some(event) = event_of(alloc, wish) else {
        return Err(Fault::Session);
    };
    Ok(store.commit(alloc, &event).is_ok())
}

/// Commits an event, and looks at each crash meanwhile. Returns how many starts that takes.
fn commit<R: Threads + Sync, N: Beginning>(
    rt: &R,
    alloc: Global,
    store: &mut Store<N>,
    number: usize,
    wish: Wish,
    from: usize,
) -> Result<usize, Fault> {
    let at = Before::of(store, number);
    let before = text_of(alloc, store.snapshot())?;
    let after = text_after(alloc, store, wish)?;
    let is_done = is_kept(alloc, store, wish)?;
    let answer = at.answer(store, is_done)?;
    let step = Step {
        number,
        first: at.changes.saturating_add(1),
        before,
        after,
        answer,
    };
    step.look(rt, alloc, store.folder(), from)
}

/// Looks at each crash while the store is saved, which changes nothing that a start reports.
fn look_at_roll<R: Threads + Sync, N: Beginning>(
    rt: &R,
    alloc: Global,
    store: &Store<N>,
    at: Before,
    answer: Answer,
    from: usize,
) -> Result<usize, Fault> {
    let step = Step {
        number: at.number,
        first: at.changes.saturating_add(1),
        before: text_of(alloc, store.snapshot())?,
        after: text_of(alloc, store.snapshot())?,
        answer,
    };
    step.look(rt, alloc, store.folder(), from)
}

/// Saves the store if that is worth it, and looks at each crash meanwhile.
fn roll_if_due<R: Threads + Sync, N: Beginning>(
    rt: &R,
    alloc: Global,
    store: &mut Store<N>,
    number: usize,
    from: usize,
    ended: &mut Ended,
) -> Result<(), Fault> {
    let at = Before::of(store, number);
    let saved = store.roll_if_due(alloc);
    if saved == Ok(None) {
        return Ok(());
    }
    let answer = at.answer(store, saved.is_ok())?;
    ended.count_roll(answer);
    ended.count(look_at_roll(rt, alloc, store, at, answer, from)?);
    Ok(())
}

/// All steps of a session after the beginning.
fn run_steps<R: Threads + Sync, N: Beginning>(
    rt: &R,
    alloc: Global,
    store: &mut Store<N>,
    from: usize,
    ended: &mut Ended,
) -> Result<(), Fault> {
    for (place, wish) in SESSION.iter().enumerate() {
        let number = place.saturating_add(1);
        ended.count(commit(rt, alloc, store, number, *wish, from)?);
        roll_if_due(rt, alloc, store, number, from, ended)?;
    }
    ended.changes = store.folder().entries();
    Ok(())
}

/// Looks at each crash while a store is begun.
fn look_at_begin<R: Threads + Sync>(
    rt: &R,
    alloc: Global,
    folder: &LoggedFolder,
    answer: Answer,
    from: usize,
) -> Result<usize, Fault> {
    let Ok(opening) = Snapshot::opening(alloc, Vec::new(alloc)) else {
        return Err(Fault::Session);
    };
    let step = Step {
        number: 0,
        first: 0,
        before: String::new(alloc),
        after: text_of(alloc, &opening)?,
        answer,
    };
    step.look(rt, alloc, folder, from)
}

/// Runs a session over a folder of which `before` calls go well, and then `failing` calls fail.
/// Looks at each crash in it that comes after at least `from` changes.
pub fn run_session<R: Threads + Sync, N: Beginning>(
    rt: &R,
    alloc: Global,
    before: u64,
    failing: u64,
    from: usize,
) -> Result<Ended, Fault>
    requires { N.first ≡ beginning Whole }
{
    let mut ended = Ended::nothing();
    let folder = LoggedFolder::new(alloc, before, failing);
    match begin_store::<N, LoggedFolder>(alloc, folder, Values::Whole, MOST) {
        Ok(started) => {
            let mut store = Running::of(started);
            ended.count(look_at_begin(rt, alloc, store.folder(), Answer::Done, from)?);
            run_steps(rt, alloc, &mut store, from, &mut ended)?;
        }
        Err((_, folder)) => {
            ended.count(look_at_begin(rt, alloc, &folder, Answer::Closed, from)?);
            ended.changes = folder.entries();
        }
    }
    Ok(ended)
}

//! A step of a session, and what a start makes of each crash in it.

use crate::restarts::fault::Fault;
use crate::restarts::starts::start;
use logged_folder::LoggedFolder;
use std::alloc::Global;
use std::thread::Threads;

/// How a step was answered.
#[derive(Clone, Copy, Debug, PartialEq, Eq, Drop)]
pub enum Answer {
    /// What was asked is done.
    Done,
    /// It is refused, and the store goes on.
    Refused,
    /// It is refused, and the store takes nothing more.
    Closed,
}

/// A step: what a start reports before it, and after it if it is done.
#[derive(Drop)]
pub struct Step {
    /// Its number in the session.
    pub number: usize,
    /// After how many changes of the folder the first crash in it comes.
    pub first: usize,
    /// What a start reports if nothing of the step is there.
    pub before: String,
    /// What a start reports if all of the step is there.
    pub after: String,
    /// How it was answered.
    pub answer: Answer,
}

impl Step {
    /// Whether a start may report this after a crash in the step, or else after its answer.
    fn allows(&self, is_answered: bool, told: &str) -> bool {
        let is_before = told == self.before.as_str();
        let is_after = told == self.after.as_str();
        match self.answer {
            Answer::Done if is_answered => is_after,
            Answer::Refused if is_answered => is_before,
            _ => is_before || is_after,
        }
    }

    /// Looks at what a start makes of what a crash leaves after this many changes, with this many
    /// bytes that were not synced.
    fn look_at<R: Threads + Sync>(
        &self,
        rt: &R,
        alloc: Global,
        folder: &LoggedFolder,
        entries: usize,
        unsynced: usize,
    ) -> Result<(), Fault> {
        let fault = Fault::Start(self.number, entries, unsynced);
        let Ok(left) = folder.left(entries, unsynced) else {
            return Err(Fault::Session);
        };
        let Some(told) = start(rt, alloc, left) else {
            return Err(fault);
        };
        if self.allows(entries >= folder.entries(), told.as_str()) {
            return Ok(());
        }
        Err(fault)
    }

    /// Looks at a crash after this many changes: with none of the bytes that were not synced, one,
    /// half of them, all but one, and all. Returns how many starts that takes.
    fn look_after<R: Threads + Sync>(
        &self,
        rt: &R,
        alloc: Global,
        folder: &LoggedFolder,
        entries: usize,
    ) -> Result<usize, Fault> {
        let all = folder.unsynced(entries);
        if all == 0 {
            self.look_at(rt, alloc, folder, entries, 0)?;
            return Ok(1);
        }
        for few in [0, 1, all / 2, all - 1, all] {
            self.look_at(rt, alloc, folder, entries, few)?;
        }
        Ok(5)
    }

    /// Looks at each crash in the step and after it that comes after at least `from` changes.
    /// Returns how many starts that takes.
    pub fn look<R: Threads + Sync>(
        &self,
        rt: &R,
        alloc: Global,
        folder: &LoggedFolder,
        from: usize,
    ) -> Result<usize, Fault> {
        let mut starts = 0usize;
        for entries in from.max(self.first)..=folder.entries() {
            starts = starts.saturating_add(self.look_after(rt, alloc, folder, entries)?);
        }
        Ok(starts)
    }
}

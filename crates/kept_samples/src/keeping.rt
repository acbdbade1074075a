//! What is kept of samples.

ghost use Rattle.std.specs.Prelude.{◌≡◌, ◌++◌, OnOk, IfErr};
ghost use Rattle.kept_samples.specs.Keeping.{kept_one, told, IsRefused, IsRefusalOf};
ghost use Rattle.kept_samples.specs.Keeping.{Keeps, IsFirstRefusal};

use imported_values::{Form, Reason, Verdict, judge_in};
use index_reader::Chunk;
use labels::{Sample, SeriesRef};
use std::alloc::{AllocError, AllocFailed};
use tombstones::Tombstones;
use xor_reader::FloatSample;

/// A closed range of times, in milliseconds.
#[derive(Clone, Copy, Debug, PartialEq, Eq, Drop)]
pub struct Times {
    /// The first time.
    pub from: i64,
    /// The last time.
    pub to: i64,
}

impl Times {
    ghost use Rattle.labels.specs.Contents.{in_range};
    ghost use Rattle.kept_samples.specs.Keeping.{meets};

    /// Whether a time lies in the range.
    pub fn has(self, t: i64) -> bool
        ensures { result ≡ in_range self.from self.to t }
    {
        self.from <= t && t <= self.to
    }

    /// Whether the times of a chunk meet the range.
    pub fn meet(self, chunk: Chunk) -> bool
        ensures { result ≡ meets self chunk }
    {
        chunk.mint <= self.to && self.from <= chunk.maxt
    }
}

/// How many samples were read, by what became of them.
#[derive(Clone, Copy, Debug, PartialEq, Eq, Drop)]
pub struct Tally {
    /// They are kept.
    pub kept: u64,
    /// They are rounded, and among those that are kept.
    pub rounded: u64,
    /// They are stale markers.
    pub stale: u64,
    /// Their values are no numbers of parts.
    pub rest: u64,
    /// They are deleted.
    pub deleted: u64,
    /// Their times lie outside the range.
    pub outside: u64,
}

impl Tally {
    /// None.
    pub fn new() -> Tally {
        Tally {
            kept: 0,
            rounded: 0,
            stale: 0,
            rest: 0,
            deleted: 0,
            outside: 0,
        }
    }
}

/// Why samples are not kept.
#[derive(Clone, Copy, Debug, PartialEq, Eq, Drop)]
pub enum KeepError {
    /// No memory is left.
    Memory,
    /// A value is refused.
    Value {
        /// Why.
        reason: Reason,
        /// Its time, in milliseconds.
        t: i64,
        /// The bits of the double.
        bits: u64,
    },
}

impl From<AllocError> for KeepError {
    ghost use Rattle.kept_samples.specs.declared.keeping.KeepError.TheVariants.{Memory};

    ghost from_gives = { λ _ e. e ≡ Memory };

    fn from(_error: AllocError) -> KeepError {
        KeepError::Memory
    }
}

impl<T: Drop> From<AllocFailed<T>> for KeepError {
    ghost use Rattle.kept_samples.specs.declared.keeping.KeepError.TheVariants.{Memory};

    ghost from_gives = { λ _ e. e ≡ Memory };

    fn from(_error: AllocFailed<T>) -> KeepError {
        KeepError::Memory
    }
}

/// What becomes of a sample.
#[derive(Clone, Copy, Debug, PartialEq, Eq, Drop)]
pub enum Fate {
    /// Its time lies outside the range.
    Outside,
    /// It is deleted.
    Deleted,
    /// Its value is judged.
    Judged(Verdict),
}

/// What is asked of the samples of a series.
#[derive(Clone, Copy, Drop)]
pub struct Asked<'a> {
    /// What values are kept as.
    pub form: Form,
    /// The times that are kept.
    pub times: Times,
    /// What is deleted.
    pub tombstones: &'a Tombstones,
    /// The series.
    pub reference: SeriesRef,
}

impl<'a> Asked<'a> {
    ghost use Rattle.kept_samples.specs.Keeping.{IsFate};

    fn fate(&self, float: FloatSample) -> Fate
        ensures { IsFate self.now float result }
    {
        let t = float.t();
        if !self.times.has(t) {
            return Fate::Outside;
        }
        if self.tombstones.deleted(self.reference, t) {
            return Fate::Deleted;
        }
        Fate::Judged(judge_in(self.form, float.bits()))
    }
}

/// Appends the samples of a series that are kept: those of the range that no deletion deletes and
/// whose values the form keeps. Each sample is told in one count of the tally. The first value that
/// the form refuses is answered.
pub fn keep_samples(
    kept: &mut Vec<Sample>,
    tally: &mut Tally,
    asked: &Asked<'_>,
    floats: &[FloatSample],
) -> Result<(), KeepError>
    // The samples that are kept are appended, and each sample is counted by what became of it.
    ensures ok { OnOk result (Keeps asked.now floats.now kept.old.items kept.new.items
        tally.old tally.new) }
    // A refusal is that of the first value that is refused.
    ensures err { IfErr result (IsFirstRefusal asked.now floats.now) }
{
    for float in floats {
        keep_one(kept, tally, *float, asked.fate(*float))?;
    }
    Ok(())
}

fn keep_one(
    kept: &mut Vec<Sample>,
    tally: &mut Tally,
    float: FloatSample,
    fate: Fate,
) -> Result<(), KeepError>
    ensures kept { OnOk result (kept.new.items ≡ kept.old.items ++ kept_one float.0 fate) }
    ensures told { OnOk result (tally.new ≡ told tally.old fate) }
    ensures not_refused { OnOk result (IsRefused fate → ⊥) }
    ensures err { IfErr result (IsRefusalOf float fate) }
{
    match fate {
        Fate::Outside => tally.outside = tally.outside.saturating_add(1),
        Fate::Deleted => tally.deleted = tally.deleted.saturating_add(1),
        Fate::Judged(Verdict::Left(Reason::Stale)) => tally.stale = tally.stale.saturating_add(1),
        Fate::Judged(Verdict::Left(Reason::Rest)) => tally.rest = tally.rest.saturating_add(1),
        Fate::Judged(Verdict::Kept(value)) => {
            kept.push(Sample::new(float.t(), value))?;
            tally.kept = tally.kept.saturating_add(1);
        }
        Fate::Judged(Verdict::Rounded(value)) => {
            kept.push(Sample::new(float.t(), value))?;
            tally.kept = tally.kept.saturating_add(1);
            tally.rounded = tally.rounded.saturating_add(1);
        }
        Fate::Judged(Verdict::Refused(reason)) => {
            return Err(KeepError::Value {
                reason,
                t: float.t(),
                bits: float.bits(),
            });
        }
    }
    Ok(())
}

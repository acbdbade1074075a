//! Deletions, and whether one of them deletes a time.

ghost use Rattle.std.specs.Prelude.{◌≡◌, map, ◌<◌, ◌≤◌, ◌++◌, ◌∷◌, ◌||◌, [], true, false, ℕ, ℤ};
ghost use Rattle.std.specs.Prelude.{List, length, slice_index_or, Decides, IfOk, OnErr, OnOk};
ghost use Rattle.std.specs.List.Sorted.{IsPermutation};
ghost use Rattle.tombstones.specs.Covering.{are_covered, covered, deletes, has_deletion, interval};
ghost use Rattle.tombstones.specs.Covering.{CoversAlso};
ghost use Rattle.tombstones.specs.Grammar.{IsTombstones, SpellsAll};
ghost use Rattle.tombstones.specs.Order.{AreInOrder, AreReaches, IsOrdered, IsReach, begins_by};
ghost use Rattle.tombstones.specs.Outcome.{GivesAll};
ghost use Rattle.tombstones.specs.Reading.{deletions_of};
ghost use Rattle.tombstones.specs.declared.deletion.Deletion.{Deletion as DeletionValue};

use crate::deletion::Deletion;
use crate::error::TombstoneError;
use crate::file::deletions_of;
use labels::SeriesRef;
use std::alloc::{AllocError, Global};
use std::marker::Model;

/// Deletions, in the order of their references, and within a series of where they begin. Beside
/// each it keeps the greatest end of the deletions of that series up to it, so that one of them
/// decides a time.
#[derive(Drop)]
pub struct Tombstones {
    deletions: Vec<Deletion>,
    reaches: Vec<i64>,
}

impl Model for Tombstones {
    ghost use Rattle.std.specs.Prelude.{List};
    ghost use Rattle.tombstones.specs.Order.{IsOrdered};
    ghost use Rattle.tombstones.specs.declared.deletion.Deletion.{Deletion as DeletionValue};

    ghost Value = { List DeletionValue };

    ghost view = { λ t. t.deletions.items };

    ghost invariant = { λ t. IsOrdered t.deletions.items t.reaches.items };
}

impl Tombstones {
    /// No deletions. It takes no memory.
    pub fn new(alloc: Global) -> Tombstones
        ensures { result ≡ [] }
    {
        Tombstones {
            deletions: Vec::new(alloc),
            reaches: Vec::new(alloc),
        }
    }

    /// The deletions of a file, in any order there.
    ///
    /// `T1` where the file does not begin with `01 30 BA 30`; `T2` where the version that follows
    /// is missing or not 1; `T4` where the file has fewer than 9 or more than 1,073,741,824
    /// bytes; `T3` where the checksum at the end is wrong; `T4` where what stands between is no
    /// list of entries, each with a reference of 32 bits and an interval of times that is not
    /// empty. The first of these is answered.
    pub fn open(alloc: Global, file: &[u8]) -> Result<Tombstones, TombstoneError>
        ensures exact { GivesAll result (deletions_of file.now) }
        ensures found { IfOk result (SpellsAll file.now) }
        ensures only { (deletions : List DeletionValue) → IsTombstones file.now deletions
            → GivesAll result (Ok deletions) }
    {
        open(alloc, file)
    }

    /// The deletions, in the order of their references, and within a series of where they begin.
    pub fn deletions(&self) -> &[Deletion]
        ensures { result.now ≡ self.now }
    {
        self.deletions.as_slice()
    }

    /// Whether the other deletions are the same.
    pub fn is_same(&self, other: &Tombstones) -> bool
        ensures { Decides result (self.now ≡ other.now) }
    {
        self.deletions.as_slice() == other.deletions.as_slice()
    }

    /// Whether a deletion of the series deletes the time. It takes time in proportion to the
    /// logarithm of the count of deletions, however many are of the series.
    pub fn deleted(&self, reference: SeriesRef, t: i64) -> bool
        ensures { result ≡ covered self.now reference t }
    {
        is_covered(
            self.deletions.as_slice(),
            self.reaches.as_slice(),
            reference.number(),
            t,
        )
    }

    /// Whether a deletion of the series is held, at whatever time. It takes time in proportion to
    /// the logarithm of the count of deletions.
    pub fn has_deletion_of(&self, reference: SeriesRef) -> bool
        ensures { result ≡ has_deletion self.now reference }
    {
        has_one_of(self.deletions.as_slice(), reference.number())
    }

    /// Adds the closed interval to the deletions of the series, in time in proportion to the
    /// count of deletions. Where memory runs out nothing is added.
    pub fn add(&mut self, reference: SeriesRef, from: i64, to: i64) -> Result<(), AllocError>
        ensures ok { OnOk result
            (CoversAlso self.old (λ r t. deletes r t (interval from to reference)) self.new) }
        ensures all { OnOk result (IsPermutation (interval from to reference ∷ self.old) self.new) }
        ensures err { OnErr result (self.new ≡ self.old) }
    {
        let deletion = interval_of(reference, from, to);
        let place = count_begun(self.deletions.as_slice(), deletion.reference, deletion.from);
        self.reaches.reserve(1)?;
        self.deletions.insert(place, deletion)?;
        self.reaches.push(to)?;
        set_reaches(
            self.deletions.as_slice(),
            self.reaches.as_mut_slice(),
            place,
        );
        Ok(())
    }

    /// These deletions, and for each of the series the closed interval. It takes memory for all
    /// of them, and time to put them in order.
    pub fn with(
        &self,
        alloc: Global,
        references: &[SeriesRef],
        from: i64,
        to: i64,
    ) -> Result<Tombstones, AllocError>
        ensures ok { IfOk result (CoversAlso self.now (are_covered references.now from to)) }
        ensures all { IfOk result
            (IsPermutation (self.now ++ map (interval from to) references.now)) }
    {
        join(alloc, self.deletions.as_slice(), references, from, to)
    }
}

fn interval_of(reference: SeriesRef, from: i64, to: i64) -> Deletion
    ensures { result ≡ interval from to reference }
{
    Deletion {
        reference: reference.number(),
        from,
        to,
    }
}

fn all_of(
    alloc: Global,
    deletions: &[Deletion],
    references: &[SeriesRef],
    from: i64,
    to: i64,
) -> Result<Vec<Deletion>, AllocError>
    ensures { IfOk result (λ v. v.items ≡ deletions.now ++ map (interval from to) references.now) }
{
    let mut all = Vec::with_capacity(alloc, deletions.len().saturating_add(references.len()))?;
    all.extend_from_slice(deletions)?;
    for at in 0..references.len() {
        all.push(interval_of(references[at], from, to))?;
    }
    Ok(all)
}

fn join(
    alloc: Global,
    deletions: &[Deletion],
    references: &[SeriesRef],
    from: i64,
    to: i64,
) -> Result<Tombstones, AllocError>
    ensures ok { IfOk result (CoversAlso deletions.now (are_covered references.now from to)) }
    ensures all { IfOk result
        (IsPermutation (deletions.now ++ map (interval from to) references.now)) }
{
    let deletions = all_of(alloc, deletions, references, from, to)?;
    put_in_order(alloc, deletions)
}

fn open(alloc: Global, file: &[u8]) -> Result<Tombstones, TombstoneError>
    ensures { GivesAll result (deletions_of file.now) }
{
    Ok(put_in_order(alloc, deletions_of(alloc, file)?)?)
}

/// The deletions, put in order.
fn put_in_order(alloc: Global, mut deletions: Vec<Deletion>) -> Result<Tombstones, AllocError>
    ensures { IfOk result (IsPermutation deletions.items) }
{
    deletions.sort_unstable_by_key(|deletion| (deletion.reference, deletion.from));
    let mut reaches = Vec::new(alloc);
    reaches.resize(deletions.len(), 0)?;
    set_reaches(deletions.as_slice(), reaches.as_mut_slice(), 0);
    Ok(Tombstones { deletions, reaches })
}

/// Sets the reaches from this place on. Those before it are right already.
fn set_reaches(deletions: &[Deletion], reaches: &mut [i64], place: usize)
    requires in_order { AreInOrder deletions.now }
    requires each { length reaches.old ≡ length deletions.now }
    requires before { AreReaches place deletions.now reaches.old }
    ensures each { length reaches.new ≡ length deletions.now }
    ensures all { AreReaches (length deletions.now) deletions.now reaches.new }
{
    for at in place..deletions.len() {
        reaches[at] = reach_at(deletions, reaches, at);
    }
}

/// The greatest end of the deletions of its series up to this one.
fn reach_at(deletions: &[Deletion], reaches: &[i64], at: usize) -> i64
    requires in_order { AreInOrder deletions.now }
    requires inside { at < length deletions.now }
    requires each { length reaches.now ≡ length deletions.now }
    requires before { AreReaches at deletions.now reaches.now }
    ensures { IsReach deletions.now at result }
{
    let deletion = deletions[at];
    if at > 0 && deletions[at - 1].reference == deletion.reference {
        return deletion.to.max(reaches[at - 1]);
    }
    deletion.to
}

/// How many deletions stand before those of the series.
fn place_of(deletions: &[Deletion], reference: u32) -> usize
    requires { AreInOrder deletions.now }
    ensures within { result ≤ length deletions.now }
    ensures below { (k : ℕ) (d : DeletionValue) → k < result
        → (slice_index_or deletions.now k d).reference < reference }
    ensures above { (k : ℕ) (d : DeletionValue) → result ≤ k → k < length deletions.now
        → reference ≤ (slice_index_or deletions.now k d).reference }
{
    deletions.partition_point(|deletion| deletion.reference < reference)
}

fn has_one_of(deletions: &[Deletion], reference: u32) -> bool
    requires { AreInOrder deletions.now }
    ensures { result ≡ has_deletion deletions.now reference }
{
    let place = place_of(deletions, reference);
    if place == deletions.len() {
        return false;
    }
    deletions[place].reference == reference
}

/// How many deletions are of the series before this one, or of this one and begin by this time.
fn count_begun(deletions: &[Deletion], reference: u32, t: i64) -> usize
    requires { AreInOrder deletions.now }
    ensures within { result ≤ length deletions.now }
    ensures begun { (k : ℕ) (d : DeletionValue) → k < result
        → begins_by reference t (slice_index_or deletions.now k d) ≡ true }
    ensures not_begun { (k : ℕ) (d : DeletionValue) → result ≤ k → k < length deletions.now
        → begins_by reference t (slice_index_or deletions.now k d) ≡ false }
{
    deletions.partition_point(|deletion| deletion.begins_by(reference, t))
}

fn is_covered(deletions: &[Deletion], reaches: &[i64], reference: u32, t: i64) -> bool
    requires { IsOrdered deletions.now reaches.now }
    ensures { result ≡ covered deletions.now reference t }
{
    let begun = count_begun(deletions, reference, t);
    if begun == 0 {
        return false;
    }
    deletions[begun - 1].reference == reference && t <= reaches[begun - 1]
}

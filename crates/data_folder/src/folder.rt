//! A folder of files.

ghost use Rattle.std.specs.Prelude.{◌≡◌, ◌≢◌, ◌≤◌, ◌++◌, ℕ, Bool, List, Option, None, Some, true};
ghost use Rattle.std.specs.Prelude.{length, take, min, OnOk, OnErr, IfOk};
ghost use Rattle.data_folder.specs.Folders.{Elapses, HasFile, IsFound, IsOneOf, KeepsAll};
ghost use Rattle.data_folder.specs.Folders.{KeepsOthers, Left, LeavesAll, LeavesOthers, MayGrow};
ghost use Rattle.data_folder.specs.Folders.{MayLeaveOf};
ghost use Rattle.data_folder.specs.Sweeping.{names_in};

use journal::MediumError;
use std::alloc::Global;

/// Files by their names. A name may have slashes: then it stands in a folder of this one.
///
/// Of files that do not tell their bytes, as those of the system, any bytes may be those that a
/// name shows; then the clauses say nothing of values. After a read, a sync, a cut or a replacement
/// that failed nothing more may be asked of them.
pub trait Folder {
    /// This is what the name has, or that it has nothing.
    ghost shows: { Self → List ℕ → Option (List ℕ) → Type 0 };

    /// These names stand in the folder of this name, in this order; none if it is not there.
    ghost lists: { Self → List ℕ → List (List ℕ) → Type 0 };

    /// Each crash leaves at least so many bytes of it.
    ghost kept: { Self → List ℕ → ℕ → Type 0 };

    /// Whether no read, no sync, no cut and no replacement has failed.
    ghost sound: { Self → Bool };

    /// Whether a call has failed.
    ghost failed: { Self → Bool };

    /// The moment, as a number that does not fall.
    ghost moment: { Self → ℕ };

    /// What a crash at some moment from that one on might have left, during a call or between two.
    ghost left_since: { Self → ℕ → Left → Type 0 };

    /// Writes at the end of a file. An `Err` may leave some of the bytes there.
    fn append(&mut self, name: &str, bytes: &[u8]) -> Result<(), MediumError>
        requires { sound self.old ≡ true }
        ensures written { OnOk result ((old : List ℕ) → shows self.old name.now (Some old)
            → shows self.new name.now (Some (old ++ bytes.now))) }
        ensures part { OnErr result ((old : List ℕ) → shows self.old name.now (Some old)
            → (k : ℕ) × shows self.new name.now (Some (old ++ take k bytes.now))) }
        ensures kept { (n : ℕ) → kept self.old name.now n → kept self.new name.now n }
        ensures others { KeepsOthers shows kept name.now name.now self.old self.new }
        ensures sound { sound self.new ≡ true }
        ensures failed { OnErr result (failed self.new ≡ true) }
        ensures lasting { failed self.old ≡ true → failed self.new ≡ true }
        ensures time { Elapses (moment self.old) (moment self.new) (left_since self.old)
            (left_since self.new) (LeavesOthers shows kept name.now name.now self.old
            (MayGrow shows kept self.old name.now (λ old. old ++ bytes.now) (λ n. n))) };

    /// After it, each crash leaves what was written to a file.
    fn sync(&mut self, name: &str) -> Result<(), MediumError>
        requires { sound self.old ≡ true }
        ensures same { OnOk result ((old : List ℕ) → shows self.old name.now (Some old)
            → HasFile shows kept name.now old self.new) }
        ensures others { KeepsOthers shows kept name.now name.now self.old self.new }
        ensures sound { OnOk result (sound self.new ≡ true) }
        ensures failed { OnErr result (failed self.new ≡ true) }
        ensures lasting { failed self.old ≡ true → failed self.new ≡ true }
        ensures time { Elapses (moment self.old) (moment self.new) (left_since self.old)
            (left_since self.new) (LeavesOthers shows kept name.now name.now self.old
            (MayGrow shows kept self.old name.now (λ old. old) (λ n. n))) };

    /// Cuts a file to a length; after it, each crash leaves that.
    fn cut(&mut self, name: &str, len: usize) -> Result<(), MediumError>
        requires sound { sound self.old ≡ true }
        requires within { (old : List ℕ) × shows self.old name.now (Some old)
            × (len ≤ length old) }
        ensures cut { OnOk result ((old : List ℕ) → shows self.old name.now (Some old)
            → shows self.new name.now (Some (take len old))) }
        ensures durable { OnOk result (kept self.new name.now len) }
        ensures others { KeepsOthers shows kept name.now name.now self.old self.new }
        ensures sound { OnOk result (sound self.new ≡ true) }
        ensures failed { OnErr result (failed self.new ≡ true) }
        ensures lasting { failed self.old ≡ true → failed self.new ≡ true }
        ensures time { Elapses (moment self.old) (moment self.new) (left_since self.old)
            (left_since self.new) (LeavesOthers shows kept name.now name.now self.old
            (MayGrow shows kept self.old name.now (λ old. old) (λ n. min len n))) };

    /// Writes a whole file in the place of what the name has, and syncs it and the folders above
    /// it. After an `Err` nothing is known of this name.
    fn write(&mut self, name: &str, bytes: &[u8]) -> Result<(), MediumError>
        requires { sound self.old ≡ true }
        ensures written { OnOk result (HasFile shows kept name.now bytes.now self.new) }
        ensures others { KeepsOthers shows kept name.now name.now self.old self.new }
        ensures sound { sound self.new ≡ true }
        ensures failed { OnErr result (failed self.new ≡ true) }
        ensures lasting { failed self.old ≡ true → failed self.new ≡ true }
        ensures time { Elapses (moment self.old) (moment self.new) (left_since self.old)
            (left_since self.new)
            (LeavesOthers shows kept name.now name.now self.old (λ left. Unit {0})) };

    /// Gives a file, which was synced, the name of another one in its place, at once, and syncs the
    /// folder. After an `Err` a crash may leave either of them under that name.
    fn replace(&mut self, from: &str, to: &str) -> Result<(), MediumError>
        requires sound { sound self.old ≡ true }
        requires whole { (bytes : List ℕ) × HasFile shows kept from.now bytes self.old }
        ensures replaced { OnOk result ((bytes : List ℕ)
            → HasFile shows kept from.now bytes self.old
            → HasFile shows kept to.now bytes self.new) }
        ensures others { KeepsOthers shows kept from.now to.now self.old self.new }
        ensures sound { OnOk result (sound self.new ≡ true) }
        ensures failed { OnErr result (failed self.new ≡ true) }
        ensures lasting { failed self.old ≡ true → failed self.new ≡ true }
        ensures time { Elapses (moment self.old) (moment self.new) (left_since self.old)
            (left_since self.new) (LeavesOthers shows kept from.now to.now self.old
            (IsOneOf shows kept self.old from.now to.now)) };

    /// Removes a file, or a folder in which nothing stands. After an `Err` nothing is known of this
    /// name.
    fn remove(&mut self, name: &str) -> Result<(), MediumError>
        requires { sound self.old ≡ true }
        ensures removed { OnOk result (shows self.new name.now None × kept self.new name.now 0) }
        ensures others { KeepsOthers shows kept name.now name.now self.old self.new }
        ensures sound { sound self.new ≡ true }
        ensures failed { OnErr result (failed self.new ≡ true) }
        ensures lasting { failed self.old ≡ true → failed self.new ≡ true }
        ensures time { Elapses (moment self.old) (moment self.new) (left_since self.old)
            (left_since self.new)
            (LeavesOthers shows kept name.now name.now self.old (λ left. Unit {0})) };

    /// What a name has, or `None`. It is synced before it is read, so each crash leaves it.
    fn read(&mut self, alloc: Global, name: &str) -> Result<Option<Vec<u8>>, MediumError>
        requires { sound self.old ≡ true }
        ensures found { IfOk result (λ found. IsFound shows kept name.now found self.new) }
        ensures all { KeepsAll shows kept self.old self.new }
        ensures sound { OnOk result (sound self.new ≡ true) }
        ensures failed { OnErr result (failed self.new ≡ true) }
        ensures lasting { failed self.old ≡ true → failed self.new ≡ true }
        ensures time { Elapses (moment self.old) (moment self.new) (left_since self.old)
            (left_since self.new) (LeavesAll shows kept self.old) };

    /// Makes a folder in this one, if it is not there. Nothing is said of it: what is written into
    /// it is there for good with all the folders above it.
    fn make(&mut self, folder: &str) -> Result<(), MediumError>
        requires { sound self.old ≡ true }
        ensures all { KeepsAll shows kept self.old self.new }
        ensures sound { sound self.new ≡ true }
        ensures failed { OnErr result (failed self.new ≡ true) }
        ensures lasting { failed self.old ≡ true → failed self.new ≡ true }
        ensures time { Elapses (moment self.old) (moment self.new) (left_since self.old)
            (left_since self.new) (LeavesAll shows kept self.old) };

    /// What stands in a folder, by its names there, in no order; none if the folder is not there.
    /// Nothing is said of what they are.
    fn names(&mut self, alloc: Global, folder: &str) -> Result<Vec<String>, MediumError>
        requires { sound self.old ≡ true }
        ensures listed { IfOk result (λ names. lists self.new folder.now (names_in names.items)) }
        ensures all { KeepsAll shows kept self.old self.new }
        ensures sound { sound self.new ≡ true }
        ensures failed { OnErr result (failed self.new ≡ true) }
        ensures lasting { failed self.old ≡ true → failed self.new ≡ true }
        ensures time { Elapses (moment self.old) (moment self.new) (left_since self.old)
            (left_since self.new) (LeavesAll shows kept self.old) };

    /// At this moment, a crash leaves of each name what it may leave.
    ghost only_now: { (f : Self) (name : List ℕ) (x : Option (List ℕ)) (n : ℕ) (left : Left)
        → shows f name x → kept f name n → left_since f (moment f) left
        → MayLeaveOf n x (left name) };

    /// What may be left since a moment may be left since an earlier one.
    ghost earlier: { (f : Self) (t u : ℕ) (left : Left) → t ≤ u → u ≤ moment f
        → left_since f u left → left_since f t left };
}

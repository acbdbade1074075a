//! What a journal is written to.

ghost use Rattle.std.specs.Prelude.{◌≡◌, ◌≤◌, ◌++◌, ℕ, Bool, List, true, length, take, min, OnOk};
ghost use Rattle.std.specs.Prelude.{OnErr};
ghost use Rattle.journal.specs.Media.{Elapses, MayLeave};

/// The medium failed.
#[derive(Clone, Copy, Debug, PartialEq, Eq, Drop)]
pub struct MediumError;

/// Bytes that grow at their end, as a file does.
///
/// Of a medium that does not tell its bytes, as a file of the system, any bytes may be those that
/// it shows; then the clauses say nothing of values.
pub trait Medium {
    /// These are the bytes that were written.
    ghost shows: { Self → List ℕ → Type 0 };

    /// Each crash leaves at least so many of them.
    ghost kept: { Self → ℕ → Type 0 };

    /// Whether no sync and no cut has failed. Where one has, nothing more may be asked of it.
    ghost sound: { Self → Bool };

    /// Whether it has failed.
    ghost failed: { Self → Bool };

    /// The moment, as a number that does not fall.
    ghost moment: { Self → ℕ };

    /// What a crash at some moment from that one on might have left, during a call or between two.
    ghost left_since: { Self → ℕ → List ℕ → Type 0 };

    /// What stands beside the bytes, as other files of a folder, is in the second as it was in the
    /// first, and so left by each crash since.
    ghost beside: { Self → Self → Type 0 };

    /// Writes at the end. An `Err` may leave some of the bytes there.
    fn append(&mut self, bytes: &[u8]) -> Result<(), MediumError>
        requires { sound self.old ≡ true }
        ensures written { OnOk result ((old : List ℕ) → shows self.old old
            → shows self.new (old ++ bytes.now)) }
        ensures part { OnErr result ((old : List ℕ) → shows self.old old
            → (k : ℕ) × shows self.new (old ++ take k bytes.now)) }
        ensures kept { (n : ℕ) → kept self.old n → kept self.new n }
        ensures sound { sound self.new ≡ true }
        ensures failed { OnErr result (failed self.new ≡ true) }
        ensures lasting { failed self.old ≡ true → failed self.new ≡ true }
        ensures time { (old : List ℕ) (n : ℕ) → shows self.old old → kept self.old n
            → Elapses (moment self.old) (moment self.new) (left_since self.old)
            (left_since self.new) (MayLeave n (old ++ bytes.now)) }
        ensures beside { beside self.old self.new };

    /// After it, each crash leaves what was written.
    fn sync(&mut self) -> Result<(), MediumError>
        requires { sound self.old ≡ true }
        ensures same { OnOk result ((old : List ℕ) → shows self.old old → shows self.new old) }
        ensures durable { OnOk result ((old : List ℕ) → shows self.old old
            → kept self.new (length old)) }
        ensures sound { OnOk result (sound self.new ≡ true) }
        ensures failed { OnErr result (failed self.new ≡ true) }
        ensures lasting { failed self.old ≡ true → failed self.new ≡ true }
        ensures time { (old : List ℕ) (n : ℕ) → shows self.old old → kept self.old n
            → Elapses (moment self.old) (moment self.new) (left_since self.old)
            (left_since self.new) (MayLeave n old) }
        ensures beside { beside self.old self.new };

    /// Cuts the bytes to a length; after it, each crash leaves that.
    fn cut(&mut self, len: usize) -> Result<(), MediumError>
        requires sound { sound self.old ≡ true }
        requires within { (old : List ℕ) × shows self.old old × (len ≤ length old) }
        ensures cut { OnOk result ((old : List ℕ) → shows self.old old
            → shows self.new (take len old)) }
        ensures durable { OnOk result (kept self.new len) }
        ensures sound { OnOk result (sound self.new ≡ true) }
        ensures failed { OnErr result (failed self.new ≡ true) }
        ensures lasting { failed self.old ≡ true → failed self.new ≡ true }
        ensures time { (old : List ℕ) (n : ℕ) → shows self.old old → kept self.old n
            → Elapses (moment self.old) (moment self.new) (left_since self.old)
            (left_since self.new) (MayLeave (min len n) old) }
        ensures beside { beside self.old self.new };

    /// Since this moment, a crash leaves a front of the bytes, no shorter than what is kept.
    ghost only_now: { (m : Self) (bytes : List ℕ) (n : ℕ) (left : List ℕ) → shows m bytes → kept m n
        → left_since m (moment m) left → MayLeave n bytes left };

    /// What may be left since a moment may be left since an earlier one.
    ghost earlier: { (m : Self) (t u : ℕ) (left : List ℕ) → t ≤ u → u ≤ moment m
        → left_since m u left → left_since m t left };

    /// Where nothing is done, all that is beside stays.
    ghost stays: { (m : Self) → beside m m };

    /// It stays in one call after another.
    ghost goes_on: { (a b c : Self) → beside a b → beside b c → beside a c };
}

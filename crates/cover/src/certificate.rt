//! Certificates, and the laws that hold of them.

ghost use Rattle.std.specs.Prelude.{◌≡◌, ℕ, ◌≤◌, List, length};
ghost use Rattle.cover.specs.Certificates.{Asked, IsAsked, IsValidCertificate, IsLeast};
ghost use Rattle.cover.specs.Certificates.{AreSeparators, IsLeftmost, begins_of, AreMatches};
ghost use Rattle.cover.specs.Certificates.{matches_of};

use labels::SeriesRef;

/// Why a run of references needs no further look.
#[derive(Clone, Copy, Debug, PartialEq, Eq)]
pub enum Verdict {
    /// The run is one series; it satisfies every matcher and has an undeleted sample in the range.
    Match,
    /// No series of the run has an undeleted sample in the range, and no one matcher rejects them
    /// all.
    NoSample,
    /// The matcher of this number, from 0, rejects each series of the run.
    Rejected(usize),
}

/// A run of references with its verdict: all references of the part from `from` up to, not
/// including, `until`.
#[derive(Clone, Copy, Debug, PartialEq, Eq)]
pub struct Interval {
    /// A reference of the part, the first of the run.
    pub from: SeriesRef,
    /// Where the next interval begins, or 4,294,967,296 at the end.
    pub until: u64,
    pub verdict: Verdict,
}

/// The laws of certificates, over whatever is asked.
///
/// A leftmost certificate is valid and least, there is no other, and its first references are
/// separators; no valid certificate has fewer intervals than there are separators, so they show it
/// least by themselves. The intervals under `Match` of a valid certificate stand for exactly the
/// references that match.
pub fn certificate_laws()
    ensures valid { (a : Asked) (c : List Interval) → IsLeftmost a c → IsValidCertificate a c }
    ensures least { (a : Asked) (c : List Interval) → IsAsked a → IsLeftmost a c → IsLeast a c }
    ensures unique { (a : Asked) (c d : List Interval) → IsAsked a → IsLeftmost a c
        → IsLeftmost a d → c ≡ d }
    ensures separated { (a : Asked) (c : List Interval) → IsAsked a → IsLeftmost a c
        → AreSeparators a (begins_of c) }
    ensures bounded { (a : Asked) (c : List Interval) (separators : List ℕ) → IsAsked a
        → AreSeparators a separators → IsValidCertificate a c → length separators ≤ length c }
    ensures matched { (a : Asked) (c : List Interval) → IsValidCertificate a c
        → AreMatches a (matches_of c) }
{}

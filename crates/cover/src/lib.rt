//! Certificates that say, of each run of a part's references, why it answers a query or does not.
//!
//! A certificate cuts all references of a part into runs, one after another. A run is one series
//! that answers, or series that one and the same matcher rejects, or series without an undeleted
//! sample in the range: an [`Interval`] is a run with its [`Verdict`], and a [`PartCover`] holds
//! the intervals of a part and what shows that there are no fewer.
//!
//! [`cover`] gives the leftmost certificate: each run is as long as any fitting run from its first
//! reference, and the smallest matcher that rejects it is named. So it is valid and no valid
//! certificate has fewer runs, over all ways of cutting the references, and the first references of
//! its runs, of which no fitting run contains two, show that by themselves. Its lists report at
//! most `m + 2` moves for each interval of any valid certificate, with `m` matchers: each counts
//! one for an `advance` or a `seek`. The laws of certificates are those of [`certificate_laws`].
//!
//! Of a `part` with six series, of which 1 and 6 are `up` of job `a`, 2 and 3 `up` of job `b`, and
//! 4 and 5 `down`:
//!
//! ```
//! let query = Query::new(Selector::parse(alloc, r#"up{job="a"}"#).ok()?, 0, 100).ok()?;
//! let found = cover(alloc, part, &query).ok()?;
//! let run = Interval {
//!     from: SeriesRef::new(2),
//!     until: 4,
//!     verdict: Verdict::Rejected(1),
//! };
//! assert_eq!(rt; found.certificate.get(1), Some(&run));
//! assert_eq!(rt; found.separators.len(), 4);
//! ```
//!
//! It stands on `labels`, `matchers` and `postings`; `specs/Certificates.antt` holds its words.
//! Partition certificates, and the walk that goes to the farthest list at each step, are those of
//! Barbay and Kenyon, "Adaptive intersection and t-threshold problems" (SODA 2002), here with any
//! matcher in place of a sorted set.
#![tactic(auto)]

mod certificate;
mod part_cover;
mod walk;

pub use certificate::{Interval, Verdict, certificate_laws};
pub use part_cover::{Moves, PartAnswer, PartCover, cover, cover_with_moves};
pub use postings::PartName;

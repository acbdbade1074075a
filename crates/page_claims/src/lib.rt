//! What a reply shows by itself: the checks that need no series, the claim that rests on them, the
//! counts of a certificate, the figures of a row, and what matchers say of a label set.
//!
//! [`find_claim`] says that no series is missing exactly where the intervals of each part are a
//! chain without a hole, each verdict names a matcher that is there, there are as many rows as
//! matches, the separators lie one in each interval, the rows of all are the merged rows of the
//! parts, and the auditor, if it was asked, named no flaw (`IsShown`). None of this shows that a
//! reason is true of the series: that is the auditor's. So the claim says how far it goes
//! ([`Completeness`]): whether a judge found no flaw in all parts, or in all but the head, or
//! whether it rests on the certificates alone. It goes no further than these if the reply does not
//! name its parts in order: the later of two wins. Which parts nobody judged stands beside it.
//!
//! ```
//! let told = Told::of(alloc, Reply::read(alloc, text)?)?;
//! let claim = find_claim(alloc, query.matchers().len(), &told, &[], &[])?;
//! assert_eq!(rt; claim.completeness, Completeness::Certified);
//! ```
//!
//! It stands on the auditor for what a reply is, for merged rows and for judgements, and on the
//! types of `labels`, `matchers`, `postings` and `cover`.
#![tactic(auto)]

mod about;
mod checks;
mod claim;
mod counts;
mod figures;
mod judged;
mod told;

pub use about::{rejecting, row_with};
pub use checks::{Checks, checks_of};
pub use claim::{Claim, Completeness, find_claim};
pub use counts::{SLOTS, count_in, counts_law, shown_of, slot_of};
pub use figures::{Figures, figures_of};
pub use judged::{is_found_silent, is_found_valid, names_in_order, names_of, same_name};
pub use told::{Place, Told};

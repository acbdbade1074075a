//! What is claimed of a reply that was judged over a kept store.
//!
//! [`find_state_claim`] claims as judged that no series is missing exactly if the reply passes the
//! checks that need no series (`page_claims`), names each block once, in order, and then the head,
//! a judge found each right of one state of the store ([`StateSaid`]), and no line names a flaw. A
//! block whose series had other numbers than its files have is judged for what is missing, and not
//! for how few its intervals are: [`otherwise_of`] names these.
//!
//! ```
//! let said = StateSaid { lines: &lines, is_found: true, told: 7, events: 9, mark: "5d3163ef:7" };
//! let claim = find_state_claim(alloc, query.matchers().len(), &told, &said)?;
//! ```
//!
//! It stands on `page_claims` for claims, and on `whole_audit` for lines.
#![tactic(auto)]

mod claim;
mod found;
mod verdicts;

pub use claim::{find_state_claim, is_right_of_state, otherwise_of};
pub use found::{FoundState, said_in};
pub use verdicts::{StateSaid, grade_of};

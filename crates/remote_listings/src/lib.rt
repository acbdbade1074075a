//! Listings of a snapshot: the names of labels, the values of a label, or label sets, as the JSON
//! of Prometheus's HTTP API.
//!
//! A listing tells of the series of a snapshot's parts that answer one of some queries: they
//! satisfy all matchers, and one of their undeleted samples is in the closed range of times. Each
//! name, value or label set stands once, in order, and at most so many of them if there is a limit;
//! what a limit leaves out is told by a warning. `specs/Listed.antt` says what is listed, and
//! `specs/Texts.antt` how it is spelled.
//!
//! ```
//! let up = Query::new(Selector::parse(alloc, "up").ok()?, 0, 20).ok()?;
//! let queries = Vec::from_array(alloc, [up]).ok()?;
//! let body = values_body(alloc, &snapshot, queries.as_slice(), "job", None).ok()?;
//! assert!(rt; body.as_slice() == br#"{"status":"success","data":["a"]}"#);
//! ```
//!
//! Series are found part by part by the certificates of `cover`, and no sample of them is read. The
//! label sets that answer stand in memory, and the body beside them. It stands on `labels`,
//! `matchers`, `cover`, `head`, `block_search` and `json`.
#![tactic(auto)]

mod laws;
mod listed;
mod spelled;
mod texts;
mod writing;

pub use laws::listing_laws;
pub use spelled::{names_body, series_body, values_body};

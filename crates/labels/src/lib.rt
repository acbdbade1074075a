//! Label sets, samples and the rows that they make: the words that every other crate speaks in.
//!
//! A [`LabelSet`] is a finite map from label names to texts that are not empty, kept as one
//! shared text. A [`Sample`] is a value at a time in milliseconds, a [`Row`] a label set with
//! samples, a [`SeriesRef`] the number of a series in its part. [`LabelError`] says why pairs
//! make no label set.
//!
//! ```
//! let pairs = [("__name__", "up"), ("job", "a")];
//! let labels = LabelSet::of_sorted_texts(rt.alloc(), &pairs)?;
//! assert_eq!(rt; labels.value("job"), "a");
//! assert_eq!(rt; labels.value("zone"), "");
//! ```
//!
//! The contracts see a label set as its pairs in the order of their names: `LabelSet::new`
//! refuses pairs exactly where a name is bad (`L1`), stands twice (`L2`), or more than 64 values
//! are not empty (`L3`), and else holds exactly the pairs that have a value; `LabelSet::value`
//! gives the empty text for an absent name. `specs/` also says what lists of references, contents
//! (label set, time, value), their rows, and parts (references with label sets and samples) are.
//! It stands on nothing but std. Names follow Prometheus's data model, in which a label with an
//! empty value is no label.
#![tactic(auto)]

mod error;
mod label_set;
mod last_part;
mod making;
mod name;
mod pairs;
mod reference;
mod row;
mod row_order;
mod sample;
mod text;

pub use error::LabelError;
pub use label_set::LabelSet;
pub use last_part::last_part_counts;
pub use making::MAX_LABELS;
pub use name::{continues_name, is_name, starts_name};
pub use pairs::LabelPairs;
pub use reference::{END, SeriesRef};
pub use row::{Row, rows_are_unique};
pub use row_order::sort_rows;
pub use sample::{MAX_TIME, MIN_TIME, Sample, is_time};

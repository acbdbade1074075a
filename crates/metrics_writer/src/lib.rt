//! Rows as OpenMetrics text.
//!
//! [`write_text`] writes a line for each sample of the rows: the name of the metric is the value of
//! `__name__`, the other labels stand in braces in the order of their names, values are decimals
//! with as many digits as were asked for, times are seconds with three digits. The rows stand in
//! their order, but those of one metric together, as OpenMetrics has it. The last line is `# EOF`.
//! Rows of which one has no `__name__` that names a metric are refused. [`write_doubles`] writes
//! rows whose values stand for doubles, which are written as Prometheus prints them.
//!
//! ```
//! let pairs = [("__name__", "up"), ("job", "a")];
//! let labels = LabelSet::of_sorted_texts(rt.alloc(), &pairs)?;
//! let mut samples = Vec::new(rt.alloc());
//! samples.push(Sample::new(1_700_000_000_250, 1))?;
//! let mut rows = Vec::new(rt.alloc());
//! rows.push(Row::new(labels, samples))?;
//! let text = write_text(rt.alloc(), &rows, 0)?;
//! assert_eq!(rt; text.as_slice(), b"up{job=\"a\"} 1 1700000000.250\n# EOF\n");
//! ```
//!
//! It stands on `labels`, on `doubles` for powers of ten, on `stored_doubles` and `double_text` for
//! doubles, and on `itoa` for digits. The format is OpenMetrics 1.0.
#![tactic(auto)]

mod double_rows;
mod groups;
mod numbers;
mod rows;
mod series;

pub use double_rows::write_doubles;
pub use rows::{WriteError, write_text};

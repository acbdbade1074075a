//! Whole texts of OpenMetrics, and of the older text of Prometheus, as rows.
//!
//! [`read_text`] reads a text line by line. Each sample is put over those before it: of two samples
//! of one label set at one time the later line's stands. Samples whose values are no whole numbers
//! of parts are told beside the rows ([`Left`]), or are rounded ([`Fractions`]); or each value is
//! kept as the number for the double nearest to it ([`Reading`]). The first line that is wrong is
//! refused with its number, its column and the [`Cause`].
//!
//! ```
//! let text = b"up{job=\"a\"} 1 1700000000.25\n# EOF\n";
//! let reading = Reading::Decimals(Fractions::Beside);
//! let read = read_text(rt.alloc(), Format::OpenMetrics, 0, reading, text)?;
//! assert_eq!(rt; read.rows.len(), 1);
//! ```
//!
//! It stands on `open_metrics` for lines, on `double_text` and `stored_doubles` for doubles, and on
//! `labels`.
#![tactic(auto)]

mod error;
mod lines;
mod rows;
mod runs;
mod series;
mod text;
mod values;

pub use error::{Cause, ReadError, Refusal};
pub use rows::runs_of;
pub use text::{Exposition, Fractions, Left, Reading, read_text};

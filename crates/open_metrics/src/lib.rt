//! Lines of OpenMetrics text, and of the older text of Prometheus.
//!
//! [`read_line`] reads a line without its end: a sample ([`SampleLine`]: its labels, its value and
//! its time), a line that says nothing of samples, or the end of the text. A line that is wrong is
//! refused with the first [`Reason`] and its place ([`Fault`]). [`number`] reads the number of a
//! value or a time exactly, in parts of which a power of ten make one: no double stands between.
//!
//! ```
//! let line = read_line(rt.alloc(), Format::OpenMetrics, 1, b"up{job=\"a\"} 1.5 1700000000.25")?;
//! ```
//!
//! It stands on `wire`, for what an answer says against reading, and on `decimal_text`. The formats
//! are those of OpenMetrics 1.0, with single spaces, and of Prometheus's exposition format 0.0.4.
#![tactic(auto)]

mod comments;
mod error;
mod labels;
mod lines;
mod numbers;
mod texts;
mod tokens;

pub use comments::Format;
pub use error::{Fault, Reason};
pub use labels::Label;
pub use lines::{Line, SampleLine, read_line};
pub use numbers::{Value, number};

//! The series that somebody asks about.
//!
//! [`series_of`] reads the label set of one series, which is written as a selector is, with `=`
//! alone:
//!
//! ```
//! let labels = series_of(alloc, r#"up{job="b"}"#)?;
//! assert_eq!(rt; labels.len(), 2);
//! let refused = series_of(alloc, r#"up{job!="b"}"#).err();
//! assert_eq!(rt; refused, Some(SeriesError::NoSeries));
//! ```
//!
//! It stands on `labels` and `matchers`.
#![tactic(auto)]

mod error;
mod series;

pub use error::SeriesError;
pub use series::series_of;

//! Decimal texts, as OpenMetrics writes times and values, read as whole numbers of parts.
//!
//! [`decimal`] reads a text such as `1700000002.008` in parts of which a power of ten make one: in
//! thousandths a time in seconds gives milliseconds. It is exact: no double stands between, nothing
//! is rounded, and what a text says beyond the parts is refused ([`DecimalError`]).
//!
//! ```
//! assert_eq!(rt; decimal(b"1700000002.008", 3), Ok(1_700_000_002_008));
//! assert_eq!(rt; decimal(b"0.1000", 1), Ok(1));
//! assert_eq!(rt; decimal(b"0.15", 1), Err(DecimalError::Finer));
//! assert_eq!(rt; rounded(b"0.15", 1, 0), Ok(Nearest { size: 2, exact: false }));
//! ```
//!
//! [`rounded`] gives the nearest whole number of parts, with the point moved as an exponent says.
//!
//! It stands on `wire`, for what an answer says against reading, and on `doubles`, for what is
//! nearest.
#![tactic(auto)]

mod error;
mod number;
mod rounding;

pub use error::DecimalError;
pub use number::decimal;
pub use rounding::{Nearest, rounded};

//! What a server tells of itself, in the text format of Prometheus.
//!
//! [`metrics`] writes the families of `specs/Families.antt` in their order: what was counted
//! ([`Counts`]) and how things stand ([`State`]). Each number stands as its decimal text, a time as
//! seconds with six digits behind the point, and the counts of a histogram are cumulative.
//!
//! ```text
//! # HELP fuzzledge_samples_accepted_total Samples of the batches that the store accepted.
//! # TYPE fuzzledge_samples_accepted_total counter
//! fuzzledge_samples_accepted_total 12
//! ```
//!
//! A worker counts for itself, and whoever reads makes the sums: a [`Counts`] holds those of one
//! worker or of all.
//!
//! It stands on `itoa`, for the digits of numbers.
#![tactic(auto)]

mod counts;
mod families;
mod names;
mod numbers;
mod rows;

pub use counts::{
    Counts, PathCounts, State, Times, place_in, place_of_port_status, place_of_refusal,
    place_of_status,
};
pub use families::metrics;

//! What is kept of the samples of a foreign series.
//!
//! [`keep_samples`] keeps the samples of a range of times that no deletion deletes, whose values a
//! form keeps, and tells each sample in exactly one count of a [`Tally`]. Times are in
//! milliseconds, values the bits of doubles. The first value that the form refuses is answered.
//! [`doubles_are_all_kept`] and [`no_double_is_refused`] say what so becomes of doubles that are
//! kept as such.
//!
//! It stands on `imported_values` for values, on `xor_reader` and `index_reader` for samples and
//! chunks, on `tombstones` for deletions, and on `labels`.
#![tactic(auto)]

mod keeping;
mod laws;

pub use keeping::{Asked, Fate, KeepError, Tally, Times, keep_samples};
pub use laws::{doubles_are_all_kept, no_double_is_refused};

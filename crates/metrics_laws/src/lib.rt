//! Laws of OpenMetrics text: what `metrics_writer` writes, `open_metrics` and `exposition` read
//! again.
//!
//! [`numbers_are_read_again`] says it of numbers, [`lines_are_read_again`] of the line of a sample,
//! [`texts_are_read_again`] of a whole text, and [`contents_are_read_again`] of the samples that it
//! says. [`samples_are_written_again`] is the other way: what is read is written as the same
//! samples. [`texts_are_grouped`] says that the lines of one metric stand together. Each law is the
//! contract of a function that does nothing.
#![tactic(auto)]

mod laws;

pub use laws::{
    contents_are_read_again, lines_are_read_again, numbers_are_read_again,
    samples_are_written_again, texts_are_grouped, texts_are_read_again,
};

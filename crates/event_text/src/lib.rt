//! Events of a store as bytes, each in one spelling.
//!
//! [`put_batch`], [`put_rows`], [`put_deletion`] and [`put_cut`] append the text of an event, and
//! [`text_of_event`] and [`text_of_rows`] give it; [`read_event`] gives the event of which all of
//! the bytes are the text, or the first fault, `J8` to `J13` ([`TextError`]). A batch is spelled by
//! runs: each label set once, with the samples of it that follow each other, so that a text is
//! about as long as the request that it came from.
//!
//! A matcher is built anew when it is read. `regex` promises nowhere that it builds a pattern that
//! it has built before, so a deletion may be refused then: `J14` ([`EventError`]).
//!
//! ```
//! let mut text = Vec::new(rt.alloc());
//! put_cut(&mut text, 300)?;
//! assert_eq!(rt; text.as_slice(), [3, 0xD8, 0x04].as_slice());
//! assert!(rt; read_event(rt.alloc(), &text).is_ok());
//! ```
//!
//! A head that is kept beside events is spelled by the same words: [`put_count`], [`put_labels`],
//! [`put_sample`], [`put_each_sample`], [`labels_of`], [`sample_of`], [`samples_of`].
//!
//! It stands on `wire` for numbers, and on `head` for what an event is. The form is this project's
//! own, and is in docs/FORMATS.md.
#![tactic(auto)]

mod error;
mod label_check;
mod parts;
mod reading;
mod runs;
mod spell;
mod writing;

pub use error::{EventError, TextError};
pub use reading::{labels_of, read_event, sample_of, samples_of};
pub use spell::{text_of_event, text_of_rows};
pub use writing::{
    one_spelling, put_batch, put_count, put_cut, put_deletion, put_each_sample, put_labels,
    put_rows, put_sample,
};

//! What the bytes of a connection to the port of Prometheus ask, with no store.
//!
//! [`answer`] reads whole bytes, which a reader in front of it took ([`Came`]), and gives an
//! [`Asked`], or the first [`Refusal`] that they meet: `specs/Meaning.antt` says what bytes mean,
//! head by head and body by body. A write is [`Received`] as rows and what is [`Left`] out of them:
//! a series whose labels make no label set costs its own samples alone, and a time that is no time
//! of the store, or more than a day ahead of the clock, that sample alone. A read is a list of
//! [`Reading`]s, whose ranges are cut to the times of the store and never refused.
//!
//! ```
//! let bytes = b"GET /api/v1/status/buildinfo HTTP/1.1\r\n\r\n";
//! let came = Came { bytes, end: End::Whole };
//! let asked = answer(rt.alloc(), &Rules::none(), 0, came)?;
//! assert!(rt; matches!(asked, Asked::BuildInfo));
//! ```
//!
//! A [`Refusal`] has a number, a status and a line of JSON ([`Refusal::line`]), as
//! `{"cause":"Z5","refused":"G6"}`. The protocols are remote write 1.0 and remote read of
//! Prometheus. Names are those of labels and metrics in Prometheus's data model.
#![tactic(auto)]

mod answering;
mod asked;
mod body;
mod came;
mod fields;
mod head;
mod label_sets;
mod left;
mod listings;
mod pages;
mod path;
mod reads;
mod refusal;
mod reply;
mod samples;
mod series;
mod status;

pub use answering::answer;
pub use asked::{Asked, Listed, Listing, ReadError, Reading, Received};
pub use came::{Came, End};
pub use label_sets::names_metric;
pub use left::{Left, LeftOut};
pub use path::Path;
pub use refusal::{BodyFault, QueryFault, Refusal};
pub use status::Status;

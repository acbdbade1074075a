//! What a page is held to besides its marks and values.
//!
//! [`check_boxes`] finds that pieces draw no box as that of the claim, so that a page has one;
//! [`check_selector`] that the texts from outside in pieces are the selector's; [`append_reply`]
//! writes which reply a page shows: its length and its SHA-256.
//!
//! ```
//! check_boxes(heading)?;
//! check_selector(alloc, heading, "up", 4096)?;
//! append_reply(alloc, &mut bytes, 12, digest)?;
//! ```
//!
//! It stands on `page_text` for pieces, and on `hex` for digits.
#![tactic(auto)]

mod boxes;
mod reply;
mod selectors;

pub use boxes::check_boxes;
pub use reply::append_reply;
pub use selectors::check_selector;

//! The page of an audited answer, as a server sends it.
//!
//! [`write_answer_page`] writes the page of `explain` for an answer that a store gave: it shows
//! what the answer's text says, which is read back, and nobody has judged it. [`write_form`] gives
//! the form that asks for such a page.
//!
//! ```
//! let question = read_question(alloc, b"selector=up&about=up%7Bjob%3D%22b%22%7D")?;
//! let found = answer(alloc, snapshot, &question.query)?;
//! let page = write_answer_page(alloc, &question, &found)?;
//! assert!(rt; page.starts_with(b"<!doctype html>"));
//! ```
//!
//! It stands on `answers`, on `page_requests`, on `reply_reader`, `page_claims`, `page_text` and
//! `page`, and on `sha2`.
#![tactic(auto)]

mod error;
mod form;
mod write;

pub use error::PageError;
pub use form::write_form;
pub use write::write_answer_page;

//! Tests from outside of what a selection is made of, as far as it needs types: label sets,
//! matchers and queries that are refused, a list of references, and a list in pages. Selectors and
//! certificates are in `case_files`.

mod label_sets;
mod lists;
mod paged_lists;
mod selectors;

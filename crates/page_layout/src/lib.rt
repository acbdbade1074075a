//! Columns of a strip and their layers, in whole numbers: which things stand in which column, where
//! a column stands, and how high its layers are.
//!
//! A strip of `count` things in `columns` columns puts the things from [`edge`] of a column to
//! before that of the next into it ([`range_of`]). So each thing lies in exactly one column, none
//! is empty if there are no more columns than things, and their sizes differ by at most 1
//! ([`columns_law`]).
//! The layers of a column share its height: [`top`] says how high they are up to one. Each has at
//! least one unit, so that one thing among thousands is still a line, and all together are as high
//! as the column ([`layers_law`]).
//!
//! ```
//! assert_eq!(rt; (edge(1, 3, 10), edge(2, 3, 10)), (3, 6));
//! assert_eq!(rt; (top(1, 1, 4369, 94), top(2, 4369, 4369, 94)), (1, 96));
//! ```
//!
//! It stands on nothing but std.
#![tactic(auto)]

mod columns;
mod layers;

pub use columns::{columns_law, edge, range_of, share};
pub use layers::{layers_law, top};

//! What a page of an audited answer shows, as marks: its counts, and the tiles of its strips.
//!
//! A strip shares the intervals of a part among columns ([`columns_of`]). A column has a tile for
//! each verdict that occurs in it ([`tiles_of`]), one on the other: they fill its height, and each
//! has at least one unit. The counts of the columns sum to those of the part, and those of all
//! verdicts to the intervals ([`marks_law`]). [`page_marks`] lists the counts and the tiles of a
//! whole page in their order, those of what its tables leave out too, and [`text_marks`] the counts
//! of a text; so what was drawn can be held to the reply that it shows. [`row_values`] lists the
//! values that rows show, by what they mean ([`figures_of`]).
//!
//! ```
//! let wanted = page_marks(alloc, query.matchers().len(), answers, rows)?;
//! let drawn = marks_of(alloc, pieces)?;
//! assert!(rt; same_marks(drawn.as_slice(), wanted.as_slice()));
//! ```
//!
//! It stands on `page_claims` for counts, on `page_layout` for columns and layers, on `page_text`
//! for marks and values, on `stored_doubles` for doubles, and on the types of `labels` and `cover`.
#![tactic(auto)]

mod columns;
mod figures;
mod laws;
mod pages;
mod tables;
mod tallies;
mod tiles;
mod values;

pub use columns::{FULL, GROUPS, MOST_BOXES, columns_of};
pub use figures::figures_of;
pub use laws::marks_law;
pub use pages::{FEW_PARTS, most_intervals, page_marks, text_marks};
pub use tables::MOST_ROWS;
pub use tallies::tallies_of;
pub use tiles::{Frame, tiles_of};
pub use values::row_values;

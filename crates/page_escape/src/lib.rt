//! How texts from outside stand in a page of HTML.
//!
//! Each character stands as itself, `& < > " '` as entities, and a character that cannot be seen,
//! or that changes how others are seen, as a box with its code (`U+202E`). So a text changes what
//! is read, and never an element or an attribute. [`append_leaf`] appends a text, [`append_word`] a
//! constant of the program. The entities are those of the HTML standard.
//!
//! ```
//! let mut out = Vec::new(alloc);
//! append_leaf(&mut out, &['a', '<', 'b'])?;
//! assert_eq!(rt; out.as_slice(), b"a&lt;b");
//! ```
//!
//! It stands on nothing but std.
#![tactic(auto)]

mod escape;

pub use escape::{append_high_digits, append_leaf, append_low_digits, append_word, is_invisible};

//! Patterns that are a choice of texts with dots, as `host0.example:9100|host1.example:9100`.
//!
//! [`read_choice`] reads the alternatives of such a pattern, and a [`Choice`] says which values
//! match it, in time linear in the pattern and the value. What a pattern means is what `regex`
//! makes of it between `^(?s:` and `)$`: that both are the same is the law `MeansPattern` of
//! `specs/Alternatives.antt`, which also says which patterns are choices.
#![tactic(auto)]

mod alternative;
mod atom;
mod choice;
mod reading;

pub use choice::{Choice, read_choice};

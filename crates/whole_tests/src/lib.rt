//! Tests from outside of whole audits: what is said of replies of a state that has the worked block
//! of docs/FORMATS.md and an empty head.
#![tactic(auto)]

#[cfg(test)]
mod first_page;
#[cfg(test)]
mod replies;
#[cfg(test)]
mod told_lines;
#[cfg(test)]
mod worked_block;

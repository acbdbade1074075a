//! Tests from outside of what needs a store and no server: an audit of each answer of a store while
//! many threads change it (`many`), what a start makes of all that a crash may leave (`restarts`),
//! and audits that are refused memory. What the auditor says of replies is in `case_files`.
//!
//! They are in a crate of their own, which needs no server, so the gate proves them at the same
//! time as `store_tests`.
#![tactic(auto)]

#[cfg(test)]
mod answered;
#[cfg(test)]
mod first_pages;
#[cfg(test)]
mod many;
#[cfg(test)]
mod refused_memory;
#[cfg(test)]
mod restarts;
#[cfg(test)]
mod runs;
#[cfg(test)]
mod tables;
#[cfg(test)]
mod worked_block;

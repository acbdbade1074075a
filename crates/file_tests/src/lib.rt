//! Tests of the files of a block from outside, of what needs types: what their readers lend, files
//! that are made by a rule or changed in each byte, what the writer writes, and what reads other
//! programs' data (`imports`); and of how few bytes chunks take in memory (`packed_rows`). Files
//! with bytes changed, and what is said of each, stand in `case_files`.
//!
//! They stand in a crate of their own, so that the gate proves each reader once and not a second
//! time with its tests.
#![tactic(auto)]

#[cfg(test)]
mod blocks;
#[cfg(test)]
mod chunks;
#[cfg(test)]
mod damage;
#[cfg(test)]
mod deletions;
#[cfg(test)]
mod draft;
#[cfg(test)]
mod files;
#[cfg(test)]
mod first_pages;
#[cfg(test)]
mod imports;
#[cfg(test)]
mod indexes;
#[cfg(test)]
mod numbers;
#[cfg(test)]
mod packed_rows;
#[cfg(test)]
mod written_files;

//! Tests of what an auditor reads of a kept store, and of replies that it judges over one.
//!
//! They stand in a crate of their own, so that the gate proves each reader once and not a second
//! time with its tests.
#![tactic(auto)]

#[cfg(test)]
mod journals;
#[cfg(test)]
mod sessions;

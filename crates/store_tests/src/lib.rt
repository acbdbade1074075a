//! Tests from outside of what a store uses and of what uses it: selections (`selections`), changes
//! (`changes`), searches and serving (`serving`), the subcommands of `querier` (`subcommands`), and
//! events in a journal (`journals`). The tests of the auditor and of crashes are in `world_tests`,
//! and what needs no types is in `case_files`.
//!
//! They are in one crate of their own. So the gate proves each crate that they test once and not a
//! second time with its tests. What links a store takes minutes before its first function.
#![tactic(auto)]

#[cfg(test)]
mod changes;
#[cfg(test)]
mod journals;
#[cfg(test)]
mod selections;
#[cfg(test)]
mod serving;
#[cfg(test)]
mod subcommands;

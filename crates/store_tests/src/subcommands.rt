//! Tests from outside of the subcommands of `querier`, as far as they need types: runs that are
//! refused memory, and writers that refuse. Command lines and what they give are in `case_files`.
//! The scripts of `tests/` read files of the host.

mod directories;
mod refusals;
mod rows;

//! Tests of the store from outside, of what needs types: what a commit copies, what an appender
//! takes, and changes that are refused memory. What is answered after changes is in `case_files`.

mod appenders;
mod first_pages;
mod heads;
mod refused_memory;
mod rows;

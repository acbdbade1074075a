//! Tests from outside of searches and of serving, as far as they need types: which lists a search
//! and a certificate walk, what workers answer compared with one thread, connections that are
//! refused memory, a server and its clients as threads of one process, two threads that commit, and
//! the reply that no client can cause. Requests and their replies are in `case_files`.

mod certificates;
mod connections;
mod counting;
mod script;
pub mod searches;
pub mod store;
mod system;
mod two_threads;
mod unavailable;

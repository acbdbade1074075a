//! The lock of a folder, which at most one process has.
//!
//! [`lock`] locks a file, which is made if it does not stand there; what it gives back keeps the
//! lock until it is dropped, or the process ends, however that happens. The file names the process
//! that has it, so that another can tell who does ([`Holder`]).
//!
//! It stands on nothing. The lock is the system's `flock`: it keeps out whoever asks for it, and
//! nobody else.
#![tactic(auto)]

mod holder;
mod locking;

pub use holder::Holder;
pub use locking::{LockError, lock};

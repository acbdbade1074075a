//! A table of crashes: sessions over a folder in memory, of which each call fails in turn, and what
//! a start makes of all that a crash may leave at each moment.
//!
//! A session begins a store, commits, deletes and cuts (`events`). Its journal is begun anew on the
//! way (`running`, `sessions`). At each moment of a step (`steps`) a start has to report the
//! snapshot before the step or the snapshot after it (`telling`). After the answer it has to report
//! the snapshot that was answered. Then the store has to go on (`starts`). `table` has the calls
//! that fail.
mod events;
mod fault;
mod running;
mod sessions;
mod starts;
mod steps;
mod table;
mod telling;

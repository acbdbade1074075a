//! Tests from outside of the port of Prometheus and of a sift. The port's are of what the bytes of
//! a connection do to a store, and of the reply.
//!
//! They are in a crate of their own, since what links a store takes minutes before its first
//! function. Bodies are those of Python's libsnappy and protobuf.
#![tactic(auto)]

#[cfg(test)]
mod listings;
#[cfg(test)]
mod port;
#[cfg(test)]
mod sifts;

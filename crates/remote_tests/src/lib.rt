//! Tests from outside of what a Prometheus sends and is sent: Snappy's streams, bodies of remote
//! write and of remote read, doubles as whole numbers.
//!
//! Expected values are those of public documents, of Debian's libsnappy and protobuf (Python), and
//! of bodies that were captured from Prometheus 2.42.
#![tactic(auto)]

#[cfg(test)]
mod kept_doubles;
#[cfg(test)]
mod messages;
#[cfg(test)]
mod numbers;
#[cfg(test)]
mod port_requests;
#[cfg(test)]
mod queries;
#[cfg(test)]
mod rows;
#[cfg(test)]
mod streams;

//! How many events a log speaks of.

/// The numbers of a log: how many events it accepted, how many it lists, with those that are
/// sealed, how many it tried, with those that wait, and how often it gave up what waited.
#[derive(Clone, Copy, Drop)]
pub struct Tally {
    /// How many it accepted.
    pub accepted: u64,
    /// How many it accepted or has sealed.
    pub listed: u64,
    /// How many it accepted, or wait.
    pub tried: u64,
    /// How often what waited was given up.
    pub voids: u64,
}
